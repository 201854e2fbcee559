//! From the steps of a search to the delays by which a run takes these steps in the same order.
#![tactic(auto)]

mod delay;
mod late;
mod timing;

pub use delay::{Delay, plan_of};
pub use late::{Lateness, late_delays};
pub use timing::{Schedule, Standing, schedule_of};
