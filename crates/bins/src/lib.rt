//! The bins of a plan: groups of bins, each bin below another or below none, and the group that boards are sorted by.

#![tactic(auto)]

mod bin;
mod definitions;
mod group;
mod sorting;

pub use definitions::bins;
