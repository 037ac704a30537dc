// What is told of a fault: its number, its place, and who found it.

ghost use Rattle.std.specs.Prelude.{◌≡◌};
ghost use Rattle.refusals.specs.Told.{told, rule_told};

use crate::fault::{LoadFault, RuleFault};
use grammar::GrammarFault;

#[derive(Clone, Copy)]
pub enum Finder {
    SizeCheck,
    TokenReader,
    Grammar,
    PlanRules,
}

impl RuleFault {
    pub fn number(self) -> u8
        ensures { result ≡ (rule_told self).number }
    {
        match self {
            RuleFault::DeclaredBefore(_) => 7,
            RuleFault::NotDeclared(_) => 8,
            RuleFault::WrongKind(_) => 9,
            RuleFault::OutOfRange(_) => 10,
            RuleFault::Repeated(_) => 11,
            RuleFault::TableFull(_) => 12,
            RuleFault::ReturnNotListed(_) => 13,
            RuleFault::TooDeep(_) => 14,
            RuleFault::NoSortBin(_) => 15,
        }
    }

    pub fn place(self) -> usize
        ensures { result ≡ (rule_told self).place }
    {
        match self {
            RuleFault::DeclaredBefore(place)
            | RuleFault::NotDeclared(place)
            | RuleFault::WrongKind(place)
            | RuleFault::OutOfRange(place)
            | RuleFault::Repeated(place)
            | RuleFault::TableFull(place)
            | RuleFault::ReturnNotListed(place)
            | RuleFault::TooDeep(place)
            | RuleFault::NoSortBin(place) => place,
        }
    }
}

impl LoadFault {
    // The number by which the fault is known.
    pub fn number(self) -> u8
        ensures { result ≡ (told self).number }
    {
        match self {
            LoadFault::NoBytes => 1,
            LoadFault::TooManyBytes => 2,
            LoadFault::Grammar(GrammarFault::Token(e)) => e.number(),
            LoadFault::Grammar(GrammarFault::NotAllowed(_)) => 6,
            LoadFault::Rule(e) => e.number(),
        }
    }

    // The offset in the text that is told.
    pub fn place(self) -> usize
        ensures { result ≡ (told self).place }
    {
        match self {
            LoadFault::NoBytes | LoadFault::TooManyBytes => 0,
            LoadFault::Grammar(GrammarFault::Token(e)) => e.place(),
            LoadFault::Grammar(GrammarFault::NotAllowed(place)) => place,
            LoadFault::Rule(e) => e.place(),
        }
    }

    pub fn finder(self) -> Finder
        ensures { result ≡ (told self).finder }
    {
        match self {
            LoadFault::NoBytes | LoadFault::TooManyBytes => Finder::SizeCheck,
            LoadFault::Grammar(GrammarFault::Token(_)) => Finder::TokenReader,
            LoadFault::Grammar(GrammarFault::NotAllowed(_)) => Finder::Grammar,
            LoadFault::Rule(_) => Finder::PlanRules,
        }
    }
}
