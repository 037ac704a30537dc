//! The productions of a flow: its items, and what is checked when an item or a flow is closed.

#![tactic(auto)]

mod checks;
mod flow_block;
mod items;

pub use flow_block::flow;
