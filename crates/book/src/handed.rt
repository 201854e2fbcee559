//! What the workers hand to the thread that writes.

ghost use Rattle.std.specs.Prelude.{◌≡◌, ◌+◌, IfSome, length};
ghost use Rattle.book.specs.Handing.{Handing, IsHanding};

use crate::run_name::RunName;
use output::Piece;
use std::marker::{Model, PhantomData};
use word::end::End;

/// Bytes of the run's output and of its trace and, if they are the last ones, how the run ended.
#[derive(Drop)]
pub struct Handed<B: RunName> {
    output: Piece,
    trace: Piece,
    end: Option<End>,
    of: PhantomData<B>,
}

impl<B: RunName> Model for Handed<B> {
    ghost use Rattle.book.specs.Handing.{Handing, IsHanding};

    ghost Value = { Handing };

    ghost view = { λ h. record { output = h.output; trace = h.trace; end = h.end } };

    ghost invariant = { λ h. IsHanding B.code B.limit B.traces (record { output = h.output; trace = h.trace; end = h.end }) };
}

impl<B: RunName> Handed<B> {
    /// A piece of each, and the run's end if the pieces reach to it.
    pub fn new(output: Piece, trace: Piece, end: Option<End>) -> Handed<B>
        requires { IsHanding B.code B.limit B.traces (record { output = output; trace = trace; end = end }) }
        ensures { result ≡ record { output = output; trace = trace; end = end } }
    {
        Handed {
            output,
            trace,
            end,
            of: PhantomData,
        }
    }

    /// The pieces, and the end.
    pub fn into_parts(self) -> (Piece, Piece, Option<End>)
        ensures parts { (result.0 ≡ self.output) × (result.1 ≡ self.trace) × (result.2 ≡ self.end) }
        ensures handing { IsHanding B.code B.limit B.traces self }
    {
        let Handed {
            output,
            trace,
            end,
            ..
        } = self;
        (output, trace, end)
    }
}
