// Reading token by token.

ghost use Rattle.std.specs.Prelude.{◌≡◌, ℕ, ◌≤◌, length, drop};
ghost use Rattle.tokens.specs.Spelling.{Reading, Within};
ghost use Rattle.tokens.specs.Scanning.{gap_end, token_at, scanned, onward, before};
ghost use Rattle.tokens.specs.Answers.{seen, Forward};
ghost use Rattle.tokens.specs.Reading.{unread, rest};

use crate::fault::TokenFault;
use crate::reader::Reader;
use crate::scan::token_at;
use crate::token::Placed;
use text_bytes::gap_end;

impl<'a> Reader<'a> {
    // A reader that has the text before it from an offset on.
    fn from_offset(text: &'a [u8], at: usize) -> Reader<'a>
        requires { at ≤ length text.now }
        ensures bytes { unread result ≡ drop at text.now }
        ensures reading { Reading (drop at text.now) at (rest result) }
        ensures within { Within (length text.now) (rest result) }
    {
        Reader { text, at }
    }

    // A reader that has the whole text before it.
    pub fn new(text: &'a [u8]) -> Reader<'a>
        ensures whole { unread result ≡ text.now }
        ensures reading { Reading text.now 0 (rest result) }
        ensures within { Within (length text.now) (rest result) }
    {
        Reader::from_offset(text, 0)
    }

    // Past the gap, and past the token behind it; at a fault the reader stays.
    fn advance(&mut self) -> Result<Placed<'a>, TokenFault>
        ensures found { seen result ≡ token_at self.old.text.now (gap_end self.old.text.now self.old.at) }
        ensures moved { self.new.at ≡ onward self.old.at (seen result) }
        ensures text { self.new.text ≡ self.old.text }
        ensures forward { Forward self.old.at (length self.old.text.now) (seen result) }
    {
        let start = gap_end(self.text, self.at);
        let piece = token_at(self.text, start)?;
        self.at = piece.end;
        Ok(piece)
    }

    // The next token, or the end of the text again and again; at a fault the reader stays.
    pub fn next(&mut self) -> Result<Placed<'a>, TokenFault>
        ensures told { seen result ≡ scanned self.old.text.now self.old.at }
        ensures moved { self.new.at ≡ onward self.old.at (seen result) }
        ensures text { self.new.text ≡ self.old.text }
        ensures rest { rest self.old ≡ before (seen result) (rest self.new) }
        ensures reading { Reading (unread self.old) self.old.at (rest self.old) }
        ensures forward { Forward self.old.at (length self.old.text.now) (seen result) }
    {
        self.advance()
    }
}
