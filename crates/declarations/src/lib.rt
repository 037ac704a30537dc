//! Counters and tests of a plan.

#![tactic(auto)]

mod counter;
mod test_block;

pub use counter::counters;
pub use test_block::test;
