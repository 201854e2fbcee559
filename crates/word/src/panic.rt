//! Why a program panics.

/// Why a program panics. A panic ends the program; it is reported by its number, 1 to 9.
#[derive(Clone, Copy, Debug, PartialEq, Eq)]
pub enum Panic {
    /// P1: a division by zero (Go: Arithmetic operators).
    DivideByZero,
    /// P2: a send on a closed channel (Go: Send statements).
    SendOnClosed,
    /// P3: a close of a closed channel (Go: Close).
    CloseOfClosed,
    /// P4: a close of `nil` (Go: Close).
    CloseOfNil,
    /// P5: a negative shift count (Go: Arithmetic operators).
    NegativeShift,
    /// P6: a channel's size that is negative or over 65,536.
    ChannelSize,
    /// P7: over 1,000 functions deep.
    CallDepth,
    /// P8: over 16,384 goroutines alive.
    TooManyGoroutines,
    /// P9: over 65,536 channels made.
    TooManyChannels,
}
