// Tokens and their places.

use keywords::Keyword;
use text_bytes::Mark;

// A token of the text. A name, a decimal and a string are parts of the text itself, the string without its quotes.
#[derive(Clone, Copy)]
pub enum Token<'a> {
    Name(&'a [u8]),
    Keyword(Keyword),
    Number(u32),
    Decimal(&'a [u8]),
    Quoted(&'a [u8]),
    Mark(Mark),
    End,
}

// A token, the offset of its first byte, and the offset behind its last.
#[derive(Clone, Copy)]
pub struct Placed<'a> {
    pub token: Token<'a>,
    pub place: usize,
    pub end: usize,
}
