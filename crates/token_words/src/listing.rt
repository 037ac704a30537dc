// The tokens of a text, one to a line.

ghost use Rattle.std.specs.Prelude.{IfOk};
ghost use Rattle.token_words.specs.Listing.{EndsAs};

use crate::excerpt::as_text;
use std::{fmt, io};
use tokens::{Placed, Reader, Token, TokenFault};

// A token of the text: its place, its kind, and how the text writes it.
#[derive(Clone, Copy)]
struct Listed<'a> {
    text: &'a [u8],
    placed: Placed<'a>,
}

fn kind_of(token: Token<'_>) -> &'static str {
    match token {
        Token::Name(_) => "name",
        Token::Keyword(_) => "keyword",
        Token::Number(_) => "number",
        Token::Decimal(_) => "decimal",
        Token::Quoted(_) => "string",
        Token::Mark(_) => "mark",
        Token::End => "end",
    }
}

impl fmt::Display for Listed<'_> {
    fn fmt<W: fmt::Write>(&self, f: &mut fmt::Formatter<W>) -> fmt::Result {
        let Placed { token, place, end } = self.placed;
        let kind = kind_of(token);
        let bytes = self.text.get(place..end).unwrap_or(&[]);
        write!(f, "{place} {kind} {}", as_text(bytes))
    }
}

// Prints the tokens up to the end of the text, and then how many they are; or up to the first fault, which is returned.
pub fn print_tokens(rt: &impl Print, path: &str, text: &[u8]) -> io::Result<Result<(), TokenFault>>
    ensures { IfOk result (EndsAs text.now) }
{
    let mut reader = Reader::new(text);
    let mut count: usize = 0;
    loop {
        match reader.next() {
            Ok(placed) if matches!(placed.token, Token::End) => break,
            Ok(placed) => println!(rt; "{}", Listed { text, placed })?,
            Err(fault) => return Ok(Err(fault)),
        }
        count += 1;
    }
    let bytes = text.len();
    println!(rt;
        "{path}: {count} tokens in {bytes} bytes, each well formed; grammar and plan rules are not checked"
    )?;
    Ok(Ok(()))
}
