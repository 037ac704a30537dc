//! Loading: a plan text becomes a plan, or is refused at its first fault.

#![tactic(auto)]

mod loader;

pub use loader::Loader;
