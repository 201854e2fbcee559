//! A goroutine that is awake or asleep.

use crate::slot::Slot;
use goroutine_vm::Sleeping;

/// A goroutine that has not ended.
#[derive(Drop)]
pub(crate) enum Goroutine {
    Awake(Slot),
    Asleep(Sleeping),
}
