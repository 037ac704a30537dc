//! The token reader: a plan text as tokens with their places, up to its end or its first fault.

#![tactic(auto)]

mod fault;
mod reader;
mod scan;
mod token;

pub use fault::TokenFault;
pub use reader::Reader;
pub use token::{Placed, Token};
