//! Why a plan text is refused: the fault of each layer whole inside that of the layer above, with number, place and finder.

#![tactic(auto)]

mod fault;
mod sentence;
mod telling;

pub use fault::{LoadFault, RuleFault};
pub use telling::Finder;
