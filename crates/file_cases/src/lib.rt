//! Plan texts and what the production of a whole file must make of them, one table.

#![tactic(auto)]

#[cfg(test)]
mod cases;
#[cfg(test)]
mod tests;
