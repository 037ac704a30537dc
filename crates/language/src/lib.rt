//! The plan language as a law: syntax trees, the tokens that write them, the plan that a tree stands for, and the rules.

#![tactic(auto)]
