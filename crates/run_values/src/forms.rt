//! The types of a run's channels.

use channel_names::form_at;
use go_text::Memory;
use std::alloc::Global;
use syntax::{FileNode, NodeId};
use timeline::ItemForm;
use word::request::{Event, EventOutcome, Reply, Request};
use word::value::Word;

/// A place in the program that makes channels, and how Go writes their items.
#[derive(Drop)]
struct Maker {
    node: NodeId,
    form: Option<ItemForm>,
}

/// How Go writes the items of the channels of a run, up to some event.
#[derive(Drop)]
pub(crate) struct Forms<'t> {
    alloc: Global,
    file: &'t FileNode,
    makers: Vec<Maker>,
    /// For each channel, at its number less 1, the index of its maker.
    channels: Vec<usize>,
}

impl<'t> Forms<'t> {
    /// There is no channel yet in a run of the program of this file.
    pub(crate) fn new(alloc: Global, file: &'t FileNode) -> Forms<'t> {
        Forms {
            alloc,
            file,
            makers: Vec::new(alloc),
            channels: Vec::new(alloc),
        }
    }

    /// Takes the next event of the run, whose goroutine is at this node.
    ///
    /// Errors: out of memory.
    pub(crate) fn take(&mut self, event: &Event, node: NodeId) -> Result<(), Memory> {
        if let (Request::Make(_, _), EventOutcome::Done(Reply::Word(Word::Chan(Some(_))))) = (
            &event.request,
            &event.outcome,
        ) {
            let maker = self.maker(node)?;
            self.channels.push(maker)?;
        }
        Ok(())
    }

    /// The index of the maker at a node.
    fn maker(&mut self, node: NodeId) -> Result<usize, Memory> {
        if let Some(index) = self.makers.iter().position(|maker| maker.node == node) {
            return Ok(index);
        }
        let index = self.makers.len();
        let form = form_at(self.alloc, self.file, node)?;
        self.makers.push(Maker { node, form })?;
        Ok(index)
    }

    /// How Go writes the items of a channel, if that is known.
    pub(crate) fn form(&self, channel: Option<u32>) -> Option<&ItemForm> {
        let index = (channel? as usize).checked_sub(1)?;
        let maker = self.channels.get(index)?;
        self.makers.get(*maker)?.form.as_ref()
    }
}
