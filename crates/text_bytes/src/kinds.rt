// The kinds of bytes that tokens, blanks and comments are made of.

ghost use Rattle.std.specs.Prelude.{◌≡◌};
ghost use Rattle.text_bytes.specs.Bytes.{blank, letter, digit, of_kind, mark_of};

#[derive(Clone, Copy, PartialEq, Eq)]
pub enum Mark {
    OpenBrace,
    CloseBrace,
    Semicolon,
    Colon,
    Comma,
    Equals,
    FullStop,
    Minus,
}

// What a run of bytes inside a token is made of: the bytes of a name, of a number, of a string.
#[derive(Clone, Copy)]
pub enum ByteKind {
    OfName,
    OfNumber,
    OfString,
}

pub fn is_blank(b: u8) -> bool
    ensures { result ≡ blank b }
{
    matches!(b, b' ' | b'\t' | b'\r' | b'\n')
}

// A letter or an underscore.
pub fn begins_name(b: u8) -> bool
    ensures { result ≡ letter b }
{
    b == b'_' || b.is_ascii_alphabetic()
}

pub fn is_digit(b: u8) -> bool
    ensures { result ≡ digit b }
{
    b.is_ascii_digit()
}

pub fn is_of_kind(kind: ByteKind, b: u8) -> bool
    ensures { result ≡ of_kind kind b }
{
    match kind {
        ByteKind::OfName => begins_name(b) || is_digit(b),
        ByteKind::OfNumber => is_digit(b),
        ByteKind::OfString => 32 <= b && b <= 126 && b != b'"',
    }
}

pub fn mark_of(b: u8) -> Option<Mark>
    ensures { result ≡ mark_of b }
{
    match b {
        b'{' => Some(Mark::OpenBrace),
        b'}' => Some(Mark::CloseBrace),
        b';' => Some(Mark::Semicolon),
        b':' => Some(Mark::Colon),
        b',' => Some(Mark::Comma),
        b'=' => Some(Mark::Equals),
        b'.' => Some(Mark::FullStop),
        b'-' => Some(Mark::Minus),
        _ => None,
    }
}
