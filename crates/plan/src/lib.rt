//! Code with its blocks, which is between a statement and its instructions. This crate has only definitions and lemmas.
#![tactic(auto)]
