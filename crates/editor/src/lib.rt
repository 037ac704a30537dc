//! The check of a plan text for programs in C. `include/suhilbon.h` declares it.

#![tactic(auto)]

mod answer;

pub use answer::suhilbon_check;
