//! Rows of offers, from each of which an offer can be taken anywhere, and nothing is searched.
#![tactic(auto)]

mod heads;
mod items;
mod offer;
mod owners;
mod queues;
mod rings;

pub use offer::OfferView;
pub use queues::SleepQueues;
pub use word::offer::Offer;
