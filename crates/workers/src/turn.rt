//! What a worker does next, and what it comes back with.

/// What a worker comes back with.
#[derive(Drop)]
pub enum Back<T: Drop> {
    /// With nothing, since it begins.
    Begun,
    /// With an item whose goroutine makes a request, after a few steps.
    Talking(T),
    /// With an item whose goroutine makes a request, after many steps.
    Asking(T),
    /// With an item whose goroutine can go on at once.
    Running(T),
    /// With no item, since memory was refused to it.
    NoMemory,
}

/// What a worker does next.
#[derive(Drop)]
pub enum Turn<T: Drop> {
    /// It works this item.
    Work(T),
    /// It naps, and looks again: no other worker does.
    Watch,
    /// It waits until it is woken: another worker watches.
    Wait,
    /// It leaves: the run is over.
    Leave,
}
