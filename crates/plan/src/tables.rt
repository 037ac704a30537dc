// The tables of a plan, each with room for as many rows as a plan may have.

use crate::rows::{Bin, Clause, Counter, Flow, Group, Item, Test, Value};
use crate::table::Table;

mod making;

// The most rows of each table.
pub const MOST_GROUPS: usize = 16;

pub const MOST_BINS: usize = 128;

pub const MOST_COUNTERS: usize = 32;

pub const MOST_TESTS: usize = 128;

pub const MOST_FLOWS: usize = 64;

pub const MOST_ITEMS: usize = 512;

pub const MOST_CLAUSES: usize = 1024;

pub const MOST_VALUES: usize = 2048;

pub const MOST_MENTIONS: usize = 2048;

#[derive(Drop)]
pub struct Tables {
    pub groups: Table<Group, MOST_GROUPS>,
    pub bins: Table<Bin, MOST_BINS>,
    pub counters: Table<Counter, MOST_COUNTERS>,
    pub tests: Table<Test, MOST_TESTS>,
    pub flows: Table<Flow, MOST_FLOWS>,
    pub items: Table<Item, MOST_ITEMS>,
    pub clauses: Table<Clause, MOST_CLAUSES>,
    // the values that clauses list
    pub values: Table<Value, MOST_VALUES>,
    // the counters that clauses name
    pub mentions: Table<usize, MOST_MENTIONS>,
    pub sort_group: usize,
    pub main_flow: usize,
}
