//! What came of one instruction.

/// What one instruction did.
#[derive(Clone, Copy, PartialEq, Eq)]
pub enum Stepped {
    /// A step that costs nothing.
    Slid,
    /// A step that costs one, which is only made below the limit.
    Ticked,
    /// None: the goroutine makes a request.
    Asking,
    /// None: a test failed, which verified code doesn't meet.
    Stuck,
}
