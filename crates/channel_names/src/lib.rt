//! What a program calls the channels that it makes and uses, and how Go writes their items.
#![tactic(auto)]

mod form;
mod item;
mod mention;

pub use form::form_of;
pub use item::push_item;
pub use mention::{form_at, mention_at};
