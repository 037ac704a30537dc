// The word of a text that a refusal is about.

ghost use Rattle.std.specs.Prelude.{drop};
ghost use Rattle.token_words.specs.Excerpt.{Stands};

use std::fmt;
use text_bytes::{ByteKind, begins_name, is_digit, run_end};

// What stands at a place of the text; a string is held without its quotes.
#[derive(Clone, Copy)]
pub enum Excerpt<'a> {
    Word(&'a str),
    Digits(&'a str),
    Quoted(&'a str),
    Byte(u8),
    End,
}

// The bytes as text, or no text where they are not UTF-8.
pub fn as_text(bytes: &[u8]) -> &str {
    std::str::from_utf8(bytes).unwrap_or("")
}

// The longest run of bytes of a kind that the text begins with.
fn front(text: &[u8], kind: ByteKind) -> &str {
    as_text(&text[..run_end(text, 0, kind)])
}

// The number that the text begins with, or the decimal whole.
fn front_number(text: &[u8]) -> &str {
    let whole = run_end(text, 0, ByteKind::OfNumber);
    let end = match &text[whole..] {
        [b'.', digit, ..] if is_digit(*digit) => run_end(text, whole + 1, ByteKind::OfNumber),
        _ => whole,
    };
    as_text(&text[..end])
}

impl<'a> Excerpt<'a> {
    // What stands at a place; at one behind the text, its end.
    pub fn at(text: &'a [u8], place: usize) -> Excerpt<'a>
        ensures { Stands (drop place text.now) result }
    {
        match text.get(place..).unwrap_or(&[]) {
            [] => Excerpt::End,
            [b'"', string @ ..] => Excerpt::Quoted(front(string, ByteKind::OfString)),
            rest @ [b, ..] if begins_name(*b) => Excerpt::Word(front(rest, ByteKind::OfName)),
            rest @ [b, ..] if is_digit(*b) => Excerpt::Digits(front_number(rest)),
            [b, ..] => Excerpt::Byte(*b),
        }
    }
}

impl fmt::Display for Excerpt<'_> {
    fn fmt<W: fmt::Write>(&self, f: &mut fmt::Formatter<W>) -> fmt::Result {
        match *self {
            Excerpt::Word(s) | Excerpt::Digits(s) => write!(f, "`{s}`"),
            Excerpt::Quoted(s) => write!(f, "\"{s}\""),
            Excerpt::Byte(b) if b.is_ascii_graphic() => write!(f, "`{}`", char::from(b)),
            Excerpt::Byte(b) => write!(f, "byte {b}"),
            Excerpt::End => write!(f, "the end of the text"),
        }
    }
}
