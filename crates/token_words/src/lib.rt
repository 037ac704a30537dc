//! Tokens in words: a text's tokens listed, one to a line, and what to mend where the token reader refuses it.

#![tactic(auto)]

mod complaint;
mod excerpt;
mod listing;

pub use complaint::TokenComplaint;
pub use excerpt::Excerpt;
pub use listing::print_tokens;
