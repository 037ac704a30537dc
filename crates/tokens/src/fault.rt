// What the token reader refuses.

ghost use Rattle.std.specs.Prelude.{◌≡◌};
ghost use Rattle.tokens.specs.Faults.{told};

// Each case holds the place that is told.
#[derive(Clone, Copy)]
pub enum TokenFault {
    // a byte that begins no token
    StrayByte(usize),
    // a byte that may not stand in a string
    ByteInString(usize),
    // a token that is too long, or a number that is too large
    TooLong(usize),
    // a string that a line feed or the end of the text cuts off
    OpenString(usize),
}

impl TokenFault {
    // The number by which the fault is known.
    pub fn number(self) -> u8
        ensures { result ≡ (told self).number }
    {
        match self {
            TokenFault::StrayByte(_) | TokenFault::ByteInString(_) => 3,
            TokenFault::TooLong(_) => 4,
            TokenFault::OpenString(_) => 5,
        }
    }

    // The offset of the byte, token or string at fault.
    pub fn place(self) -> usize
        ensures { result ≡ (told self).place }
    {
        match self {
            TokenFault::StrayByte(place)
            | TokenFault::ByteInString(place)
            | TokenFault::TooLong(place)
            | TokenFault::OpenString(place) => place,
        }
    }
}
