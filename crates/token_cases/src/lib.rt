//! Texts and what the token reader must make of them, one table. Each text is read to its end or its first fault.

#![tactic(auto)]

#[cfg(test)]
mod listing;
#[cfg(test)]
mod tests;
