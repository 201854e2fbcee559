//! Room for the lists of requests.

ghost use Rattle.std.specs.Prelude.{◌≡◌, [], IfOk};

use std::alloc::{AllocError, Global};
use std::mem;
use word::request::{Case, Request};
use word::value::Word;

/// The lists of requests that were performed, whose buffers later requests reuse. Contracts don't see them.
pub struct RequestLists {
    pub(crate) alloc: Global,
    pub(crate) cases: Vec<Case>,
    pub(crate) arguments: Vec<Word>,
}

impl Drop for RequestLists {
    fn drop(self) {
        let RequestLists {
            alloc: _,
            cases,
            arguments,
        } = self;
        drop(cases);
        drop(arguments);
    }
}

impl RequestLists {
    /// No buffers. It takes no memory.
    pub fn new(alloc: Global) -> RequestLists {
        RequestLists {
            alloc,
            cases: Vec::new(alloc),
            arguments: Vec::new(alloc),
        }
    }

    /// Keeps the list of a request that was performed. What `performed` holds afterwards is ignored.
    pub fn keep(&mut self, performed: &mut Request) {
        match performed {
            Request::Select(cases, _) => {
                self.cases = mem::replace(cases, Vec::new(self.alloc));
            }
            Request::Go(_, arguments) => {
                self.arguments = mem::replace(arguments, Vec::new(self.alloc));
            }
            _ => {}
        }
    }

    /// An empty list of cases, with the buffer of an earlier one.
    pub(crate) fn cases(&mut self) -> Vec<Case>
        ensures { result.items ≡ [] }
    {
        let mut cases = mem::replace(&mut self.cases, Vec::new(self.alloc));
        cases.clear();
        cases
    }

    /// A list of these arguments, with the buffer of an earlier one.
    pub(crate) fn arguments(&mut self, words: &[Word]) -> Result<Vec<Word>, AllocError>
        ensures { IfOk result (λ arguments. arguments.items ≡ words.now) }
    {
        let mut arguments = mem::replace(&mut self.arguments, Vec::new(self.alloc));
        arguments.clear();
        arguments.extend_from_slice(words)?;
        Ok(arguments)
    }
}
