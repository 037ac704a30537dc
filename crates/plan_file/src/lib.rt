//! The whole of a plan text: header, bins, counters, tests, flows, main flow, and the end.

#![tactic(auto)]

mod header;
mod sections;
mod whole;

pub use whole::{file, read_text};
