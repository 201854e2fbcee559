//! Why goroutines that send and receive words stop.

/// What talk came to: moves without events to show.
#[derive(Clone, Copy)]
pub enum Talked {
    /// As many moves were made as were asked for.
    Enough,
    /// No goroutine has the turn, and none can be lent.
    Nobody,
    /// A goroutine made its local steps, and is at no request yet.
    Running,
    /// The request of the goroutine that has the turn is to be performed otherwise.
    Left,
}
