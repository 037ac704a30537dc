// Faults of the token reader in words.

use crate::excerpt::Excerpt;
use std::fmt;
use tokens::TokenFault;

// A fault, and what stands at its place.
#[derive(Clone, Copy)]
pub struct TokenComplaint<'a> {
    pub fault: TokenFault,
    pub at: Excerpt<'a>,
}

// What to mend in a token that is too long; one that is no word and no digits is a string.
fn too_long(at: Excerpt<'_>) -> &'static str {
    match at {
        Excerpt::Word(_) => "this name has more than 32 bytes; shorten it",
        Excerpt::Digits(_) => {
            "this number is above 2147483647, or has more than 32 bytes; write a smaller or shorter one"
        }
        _ => "this string has more than 64 bytes between its quotes; shorten it",
    }
}

impl fmt::Display for TokenComplaint<'_> {
    fn fmt<W: fmt::Write>(&self, f: &mut fmt::Formatter<W>) -> fmt::Result {
        let at = self.at;
        match self.fault {
            TokenFault::StrayByte(_) => {
                write!(
                    f,
                    "{at} begins no token; remove it, or put it into a comment"
                )
            }
            TokenFault::ByteInString(_) => {
                write!(
                    f,
                    "{at} may not stand in a string, which holds only bytes from 32 to 126; remove it"
                )
            }
            TokenFault::TooLong(_) => f.write_str(too_long(at)),
            TokenFault::OpenString(_) => {
                f.write_str("this string is not closed on its line; write its closing quote")
            }
        }
    }
}
