//! Clauses of a plan text: what an item does at the values that the clause lists.

#![tactic(auto)]

mod counter_list;
mod leaf_bins;
mod production;
mod value_list;
mod verdicts;
mod ways;

pub use production::clause;
