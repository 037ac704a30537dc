// A reading written down: `place kind value` for each token, then `place end`, or `number at place` for a fault.

use std::alloc::Global;
use std::fmt;
use std::test::Fail;
use tokens::{Reader, Token};

// A token by its kind and value.
#[derive(Clone, Copy)]
struct Entry<'a>(Token<'a>);

fn word(bytes: &[u8]) -> &str {
    std::str::from_utf8(bytes).unwrap_or("")
}

impl fmt::Display for Entry<'_> {
    fn fmt<W: fmt::Write>(&self, f: &mut fmt::Formatter<W>) -> fmt::Result {
        match self.0 {
            Token::Name(bytes) => write!(f, "name {}", word(bytes)),
            Token::Keyword(k) => write!(f, "keyword {}", word(k.spelling())),
            Token::Number(n) => write!(f, "number {n}"),
            Token::Decimal(bytes) => write!(f, "decimal {}", word(bytes)),
            Token::Quoted(bytes) => write!(f, "string {}", word(bytes)),
            // the table writes marks by their numbers
            Token::Mark(m) => write!(f, "mark {}", m as u8),
            Token::End => write!(f, "end"),
        }
    }
}

pub fn listing(heap: Global, text: &[u8]) -> Result<String, Fail> {
    let mut list = String::new(heap);
    let mut reader = Reader::new(text);
    loop {
        match reader.next() {
            Ok(placed) => {
                write!(list, "{} {}", placed.place, Entry(placed.token))?;
                if let Token::End = placed.token {
                    return Ok(list);
                }
                list.push_str(", ")?;
            }
            Err(fault) => {
                write!(list, "{} at {}", fault.number(), fault.place())?;
                return Ok(list);
            }
        }
    }
}
