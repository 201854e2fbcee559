//! The generated code does what the source does. It has lemmas alone.
#![tactic(auto)]
