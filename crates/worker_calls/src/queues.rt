//! Queues of leases, from which several passes take.

ghost use Rattle.std.specs.Prelude.{◌≡◌, IfOk, Ok, Some};

use go_text::{Fault, Memory};
use machine_calls::Checks;
use run_queue::RunQueue;
use std::alloc::Global;
use std::sync::Wait;

/// The results of two puts and two takes in turn.
#[derive(Drop)]
struct Answers {
    put: Result<(), u32>,
    again: Result<(), u32>,
    taken: Option<u32>,
    none: Option<u32>,
}

/// Whether queues hand on what was put, and hand back what does not fit.
pub(crate) fn check<R: Wait>(rt: &R, alloc: Global, checks: &mut Checks) -> Result<(), Memory> {
    checks.see("a full queue hands an item back", hands_back(rt, alloc))?;
    checks.see(
        "what one pass took no other takes",
        takes_in_turn(rt, alloc),
    )
}

/// Whether of two puts into a queue of capacity 1 the second comes back, and of two takes the first gets the item.
fn hands_back<R: Wait>(rt: &R, alloc: Global) -> Result<bool, Fault> {
    let answers = in_turn(rt, alloc, 7, 9)?;
    let puts = answers.put == Ok(()) && answers.again == Err(9);
    Ok(puts && answers.taken == Some(7) && answers.none == None)
}

/// Two puts into a queue of capacity 1, and two takes. The contracts alone say that the first item fits, and that it is
/// what is taken.
fn in_turn<R: Wait>(rt: &R, alloc: Global, first: u32, second: u32) -> Result<Answers, Memory>
    ensures put { IfOk result (λ answers. answers.put ≡ Ok tt) }
    ensures taken { IfOk result (λ answers. answers.taken ≡ Some first) }
{
    let (queue, mut puts, mut takes) = RunQueue::new(alloc, 1)?;
    let put = queue.put(rt, &mut puts, first);
    queue.tell(&mut puts, &mut takes);
    let again = queue.put(rt, &mut puts, second);
    let taken = queue.take(rt, &mut takes);
    let none = queue.take(rt, &mut takes);
    Ok(Answers {
        put,
        again,
        taken,
        none,
    })
}

/// Whether two passes over a queue of capacity 2, filled three times, take each item once, in order.
fn takes_in_turn<R: Wait>(rt: &R, alloc: Global) -> Result<bool, Fault> {
    let (queue, mut puts, mut one) = RunQueue::new(alloc, 2)?;
    let mut other = queue.pass(&mut one);
    let mut holds = true;
    for round in 0..3u32 {
        let first = queue.put(rt, &mut puts, 2 * round);
        let second = queue.put(rt, &mut puts, 2 * round + 1);
        let third = queue.put(rt, &mut puts, 9);
        holds = holds && first == Ok(()) && second == Ok(()) && third == Err(9);
        holds = holds && queue.take(rt, &mut other) == Some(2 * round);
        holds = holds && queue.take(rt, &mut one) == Some(2 * round + 1);
        holds = holds && queue.take(rt, &mut other) == None;
    }
    Ok(holds)
}
