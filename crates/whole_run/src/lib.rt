//! What a run writes and how it ends: the words in which contracts speak of the one-thread run, be it of code or of a source. It has
//! definitions alone.
#![tactic(auto)]
