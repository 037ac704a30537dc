// What the grammar refuses, with what the token reader refuses whole inside it.

ghost use Rattle.std.specs.Prelude.{◌≡◌};
ghost use Rattle.grammar.specs.declared.fault.GrammarFault.TheVariants.{Token};

use tokens::TokenFault;

#[derive(Clone, Copy)]
pub enum GrammarFault {
    Token(TokenFault),
    // a token, or the end of the text, that may not stand at this place
    NotAllowed(usize),
}

// Written and not derived, so that its contract tells the case.
impl From<TokenFault> for GrammarFault {
    ghost from_gives = { λ e r. r ≡ Token e };

    fn from(e: TokenFault) -> GrammarFault {
        GrammarFault::Token(e)
    }
}
