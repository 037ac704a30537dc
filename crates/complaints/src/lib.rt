//! What comes of a plan text, in words: where it is wrong, by which number it is refused, and what to mend; or what the
//! plan holds.

#![tactic(auto)]

mod accepted;
mod complaint;
mod rules;

pub use accepted::Accepted;
pub use complaint::Complaint;
