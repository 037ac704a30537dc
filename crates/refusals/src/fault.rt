// The faults of a load. Each case of a plan rule holds the place that is told.

ghost use Rattle.std.specs.Prelude.{◌≡◌};
ghost use Rattle.refusals.specs.declared.fault.LoadFault.TheVariants.{Grammar, Rule};

use grammar::GrammarFault;

#[derive(Clone, Copy)]
pub enum RuleFault {
    // a name that was declared before
    DeclaredBefore(usize),
    // a name that is not declared, or not yet
    NotDeclared(usize),
    // a name that is declared as something else than what is wanted
    WrongKind(usize),
    // a version, number, value or string that is none of those allowed
    OutOfRange(usize),
    // a bin number, value or counter that stands there already
    Repeated(usize),
    // a row for which its table has no room
    TableFull(usize),
    // an item that does not list a value that its flow returns
    ReturnNotListed(usize),
    // a flow that would be nested too deep
    TooDeep(usize),
    // a leaf bin with no bin of the sort group at or above it
    NoSortBin(usize),
}

#[derive(Clone, Copy)]
pub enum LoadFault {
    NoBytes,
    TooManyBytes,
    Grammar(GrammarFault),
    Rule(RuleFault),
}

// Written and not derived, so that their contracts tell the case.
impl From<GrammarFault> for LoadFault {
    ghost from_gives = { λ e r. r ≡ Grammar e };

    fn from(e: GrammarFault) -> LoadFault {
        LoadFault::Grammar(e)
    }
}

impl From<RuleFault> for LoadFault {
    ghost from_gives = { λ e r. r ≡ Rule e };

    fn from(e: RuleFault) -> LoadFault {
        LoadFault::Rule(e)
    }
}
