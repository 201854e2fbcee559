//! Where control goes from what was emitted.

ghost use Rattle.std.specs.Prelude.{◌≡◌, ◌||◌, IfOk, OnOk};
ghost use Rattle.codegen_flow.specs.Controls.{control, either, joined, jumping, leading, may_end, never, through};

use crate::waits::Wait;
use std::alloc::{AllocError, Global};

/// Where control goes from what was emitted: the jumps that wait, oldest first, and what can be reached.
#[derive(Drop)]
pub struct Flow {
    pub waits: Vec<Wait>,
    pub reaches_end: bool,
    pub has_break: bool,
    pub has_continue: bool,
}

impl Flow {
    /// Control goes only to where a break, or a continue, leads.
    ///
    /// Errors: out of memory.
    pub fn from_jump(alloc: Global, leaves: bool, place: usize) -> Result<Flow, AllocError>
        ensures { IfOk result (λ flow. control flow ≡ jumping place leaves) }
    {
        let mut waits = Vec::new(alloc);
        waits.push(Wait { place, leaves })?;
        Ok(Flow {
            waits,
            reaches_end: false,
            has_break: leaves,
            has_continue: !leaves,
        })
    }

    /// Only to what follows a loop, if a break leads there.
    pub fn after_loop(alloc: Global, reaches_end: bool) -> Flow
        ensures { control result ≡ leading reaches_end }
    {
        Flow {
            waits: Vec::new(alloc),
            reaches_end,
            has_break: false,
            has_continue: false,
        }
    }

    /// Nowhere.
    pub fn never(alloc: Global) -> Flow
        ensures { control result ≡ never }
    {
        Flow {
            waits: Vec::new(alloc),
            reaches_end: false,
            has_break: false,
            has_continue: false,
        }
    }

    /// Only to what follows.
    pub fn through(alloc: Global) -> Flow
        ensures { control result ≡ through }
    {
        Flow {
            waits: Vec::new(alloc),
            reaches_end: true,
            has_break: false,
            has_continue: false,
        }
    }

    /// Whether the body of a loop comes round again, which goes there.
    pub fn comes_round(&self) -> bool
        ensures { result ≡ (self.now.reaches_end || self.now.has_continue) }
    {
        self.reaches_end || self.has_continue
    }
}

/// Adds the flow of the code that follows.
///
/// Errors: out of memory.
pub fn join(flow: &mut Flow, mut following: Flow) -> Result<(), AllocError>
    ensures { OnOk result (control flow.new ≡ joined (control flow.old) (control following)) }
{
    flow.waits.append(&mut following.waits)?;
    flow.reaches_end = following.reaches_end;
    flow.has_break |= following.has_break;
    flow.has_continue |= following.has_continue;
    Ok(())
}

/// Adds the flow of another way.
///
/// Errors: out of memory.
pub fn join_way(flow: &mut Flow, mut other: Flow) -> Result<(), AllocError>
    ensures { OnOk result (control flow.new ≡ either (control flow.old) (control other)) }
{
    flow.waits.append(&mut other.waits)?;
    flow.reaches_end |= other.reaches_end;
    flow.has_break |= other.has_break;
    flow.has_continue |= other.has_continue;
    Ok(())
}

/// It may be left out.
pub fn may_end(flow: &mut Flow)
    ensures { control flow.new ≡ may_end (control flow.old) }
{
    flow.reaches_end = true;
}
