//! The program of a book.

ghost use Rattle.std.specs.Prelude.{◌≡◌};
ghost use Rattle.std.specs.Arc.{arc_value};

use crate::name::BookName;
use std::marker::PhantomData;
use std::sync::Arc;
use verifier::Verified;

/// The program of the book of this name.
#[derive(Drop)]
pub(crate) struct Program<B: BookName> {
    shared: Arc<Verified>,
    of: PhantomData<B>,
    ghost own: { arc_value shared ≡ B.code },
}

impl<B: BookName> Program<B> {
    /// This program, which is the book's.
    pub fn new(shared: Arc<Verified>) -> Program<B>
        requires { arc_value shared ≡ B.code }
    {
        Program {
            shared,
            of: PhantomData,
        }
    }

    /// The program.
    pub fn into_shared(self) -> Arc<Verified>
        ensures { arc_value result ≡ B.code }
    {
        let Program { shared, .. } = self;
        shared
    }
}
