//! Small indexes (slots) for the few numbers that are in use, out of many.
#![tactic(auto)]

mod index;
mod numbered_keys;

pub use index::SlotIndex;
pub use numbered_keys::NumberedKeys;
