// The tokens that the grammar itself spells out: keywords and marks.

ghost use Rattle.std.specs.Prelude.{◌≡◌, cond, Ok, Err};
ghost use Rattle.grammar.specs.declared.fault.GrammarFault.TheVariants.{NotAllowed};
ghost use Rattle.grammar.specs.Symbols.{same_symbol};
ghost use Rattle.grammar.specs.declared.symbols.Symbol.TheVariants as sy;

use crate::fault::GrammarFault;
use keywords::Keyword;
use text_bytes::Mark;

#[derive(Clone, Copy, PartialEq, Eq)]
pub enum Symbol {
    Keyword(Keyword),
    Mark(Mark),
}

// A keyword or mark that was read, and its place.
#[derive(Clone, Copy)]
pub struct Found {
    pub symbol: Symbol,
    pub place: usize,
}

impl Found {
    pub fn is_keyword(self, k: Keyword) -> bool
        ensures { result ≡ same_symbol self.symbol (sy.Keyword k) }
    {
        self.symbol == Symbol::Keyword(k)
    }

    pub fn is_mark(self, m: Mark) -> bool
        ensures { result ≡ same_symbol self.symbol (sy.Mark m) }
    {
        self.symbol == Symbol::Mark(m)
    }

    // Any other symbol may not stand here.
    pub fn must_be(self, wanted: Symbol) -> Result<(), GrammarFault>
        ensures { result ≡ cond (same_symbol self.symbol wanted) (Ok tt) (Err (NotAllowed self.place)) }
    {
        if self.symbol != wanted {
            return Err(GrammarFault::NotAllowed(self.place));
        }
        Ok(())
    }
}
