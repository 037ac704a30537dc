//! The bytes of a plan text: their kinds, the runs and gaps that they form, and the line and column of a place.

#![tactic(auto)]

mod kinds;
mod position;
mod runs;

pub use kinds::{ByteKind, Mark, begins_name, is_digit, mark_of};
pub use position::{Position, position_of};
pub use runs::{gap_end, number_of, run_end};
