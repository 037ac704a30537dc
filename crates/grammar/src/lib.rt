//! The grammar's smallest parts: one token of a wanted kind at a time, or the refusal that it is not allowed there.

#![tactic(auto)]

mod fault;
mod readers;
mod symbols;

pub use fault::GrammarFault;
pub use readers::{
    Numeral, ValueStart, Word, any_symbol, decimal, expect, finish, name, name_or_close, number,
    setter_value, string, value_start,
};
pub use symbols::{Found, Symbol};
