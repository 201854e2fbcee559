//! The name that declares nothing ("Blank identifier" of the Go specification).

ghost use Rattle.std.specs.Prelude.{◌≡◌};
ghost use Rattle.syntax.specs.View.{name_of};
ghost use Rattle.meaning.specs.Variables.{blank};

use std::alloc::{AllocError, Global};
use syntax::Name;

/// The name `_`, under which a range keeps its channel.
#[derive(Drop)]
pub struct Blank {
    name: Name,
    ghost blank: { name_of name ≡ blank },
}

impl Blank {
    /// The name.
    ///
    /// Errors: out of memory.
    pub fn new(alloc: Global) -> Result<Blank, AllocError> {
        let bytes = Vec::from_slice(alloc, b"_".as_slice())?;
        Ok(Blank {
            name: Name { bytes },
        })
    }

    /// The name as it would be in a program.
    pub fn name(&self) -> &Name
        ensures { name_of result.now ≡ blank }
    {
        &self.name
    }
}
