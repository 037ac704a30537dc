// Finders in words, and what is told of a fault on one line.

use crate::fault::LoadFault;
use crate::telling::Finder;
use std::fmt;

impl fmt::Display for Finder {
    fn fmt<W: fmt::Write>(&self, f: &mut fmt::Formatter<W>) -> fmt::Result {
        f.write_str(match self {
            Finder::SizeCheck => "size check",
            Finder::TokenReader => "token reader",
            Finder::Grammar => "grammar",
            Finder::PlanRules => "plan rules",
        })
    }
}

// refused NUMBER at PLACE by FINDER
impl fmt::Display for LoadFault {
    fn fmt<W: fmt::Write>(&self, f: &mut fmt::Formatter<W>) -> fmt::Result {
        write!(
            f,
            "refused {} at {} by {}",
            self.number(),
            self.place(),
            self.finder()
        )
    }
}
