//! Names of rows: parts of the plan text, and the row that a name declares.

#![tactic(auto)]

mod finding;
mod named;

pub use finding::find;
pub use named::Named;
