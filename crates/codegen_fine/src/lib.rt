//! Why the code that is generated for a file keeps the verifier's rules. It has lemmas alone.
#![tactic(auto)]
