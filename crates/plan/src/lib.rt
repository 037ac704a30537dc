//! A test plan as tables of rows, and the rules that it keeps.

#![tactic(auto)]

mod parts;
mod plan;
mod rows;
mod table;
mod tables;
mod values;

pub use parts::part_of;
pub use plan::{MOST_BYTES, Plan, first_of_group};
pub use rows::{
    Bin, Clause, Counter, Flow, Group, Item, Name, Next, Runs, Sizes, Span, Test, Value, Verdict,
};
pub use table::Table;
pub use tables::{
    MOST_BINS, MOST_CLAUSES, MOST_COUNTERS, MOST_FLOWS, MOST_GROUPS, MOST_ITEMS, MOST_MENTIONS,
    MOST_TESTS, MOST_VALUES, Tables,
};
pub use values::{OutOfRange, lists, rows_from};
