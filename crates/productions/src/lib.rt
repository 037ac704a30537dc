//! What the productions of a plan text share: the desk that they work at, names, lists, and rows that follow one another.

#![tactic(auto)]

mod desk;
mod following;
mod limits;
mod lists;
mod naming;

pub use desk::Desk;
pub use following::{Row, braced, rows, some_rows};
pub use limits::room;
pub use lists::{Entry, another, list};
pub use naming::{declared, fresh, fresh_runnable, name_of};
