// The line that a person reads: LINE:COLUMN: refused NUMBER at PLACE by token reader: what to mend.

use std::fmt;
use text_bytes::{Position, position_of};
use token_words::{Excerpt, TokenComplaint};
use tokens::TokenFault;

#[derive(Clone, Copy)]
pub struct Complaint<'a> {
    fault: TokenFault,
    position: Position,
    at: Excerpt<'a>,
}

impl<'a> Complaint<'a> {
    // What is wrong with the text, by the fault at which its tokens end.
    pub fn new(text: &'a [u8], fault: TokenFault) -> Complaint<'a> {
        let place = fault.place();
        Complaint {
            fault,
            position: position_of(text, place),
            at: Excerpt::at(text, place),
        }
    }
}

impl fmt::Display for Complaint<'_> {
    fn fmt<W: fmt::Write>(&self, f: &mut fmt::Formatter<W>) -> fmt::Result {
        let Complaint {
            fault,
            position,
            at,
        } = *self;
        let number = fault.number();
        let place = fault.place();
        write!(
            f,
            "{position}: refused {number} at {place} by token reader: "
        )?;
        match (fault, at) {
            // To the token reader a string may stand anywhere; a plan takes one in few places, so only here is it offered.
            (TokenFault::StrayByte(_), Excerpt::Byte(b)) if b.is_ascii_graphic() => {
                write!(
                    f,
                    "{at} begins no token; remove it, or put it into a string or a comment"
                )
            }
            _ => write!(f, "{}", TokenComplaint { fault, at }),
        }
    }
}
