//! What the threads of a run share.

ghost use Rattle.std.specs.Prelude.{◌≡◌, ◌+◌, IfOk, length};

use crate::locked::Locked;
use book::handed::Handed;
use book::run_book::RunBook;
use book::run_name::{Printed, RunLease, RunName, Traced};
use go_text::Memory;
use std::sync::atomic::{AtomicU64, Ordering};
use std::sync::ledger::{Book, Share};
use std::sync::{Condvar, Mutex, MutexGuard, Wait};
use std::time::Duration;
use workers::{Back, Gate, Pace, Turn, WorkQueues};

/// How long the thread that writes sleeps, if nothing wakes it, in milliseconds.
const WRITING_NAP: u64 = 5;

/// The lock, and the threads that are woken.
#[derive(Drop)]
pub(crate) struct Shared<B: RunName> {
    locked: Mutex<Locked<B>>,
    /// How many threads come to the lock.
    coming: AtomicU64,
    /// The workers that wait: one of them is to watch.
    waiting: Condvar,
    /// The worker that watches: it is to look at once.
    watching: Condvar,
    /// The thread that writes: the run is over, or much is to be written.
    writing: Condvar,
    /// The workers that wait since much is to be written.
    held: Condvar,
}

impl<B: RunName> Shared<B> {
    /// The book of this run, of which nothing was handed out.
    pub fn new(run: RunBook<B>, printed: Book<Printed<B>>, traced: Book<Traced<B>>) -> Shared<B>
        requires printed { run.book.taken ≡ printed.total }
        requires traced { run.book.traced ≡ traced.total }
    {
        Shared {
            locked: Mutex::new(Locked::new(run, printed, traced)),
            coming: AtomicU64::new(0),
            waiting: Condvar::new(),
            watching: Condvar::new(),
            writing: Condvar::new(),
            held: Condvar::new(),
        }
    }

    /// Takes the lock; the thread that has it sees that another one comes.
    fn lock<R: Wait>(&self, rt: &R) -> MutexGuard<'_, Locked<B>> {
        self.coming.fetch_add(1, Ordering::SeqCst);
        let locked = self.locked.lock(rt);
        self.coming.fetch_sub(1, Ordering::SeqCst);
        locked
    }

    /// Takes what a worker comes back with, and gives it its next lease, as soon as there is one and not too much is to be written;
    /// none once the run is over.
    pub fn next_lease<R: Wait>(
        &self,
        rt: &R,
        back: Back<RunLease<B>>,
        pace: &mut Pace,
        queues: &mut WorkQueues<RunLease<B>>,
    ) -> Option<RunLease<B>> {
        let mut locked = self.lock(rt);
        let long = matches!(&back, Back::Running(_));
        pace.come(&mut locked.signals, &back);
        locked.take_back(back);
        if pace.talks() {
            locked.talk(&self.coming);
        }
        for _ in rt.forever() {
            locked = self.held_back(rt, locked);
            match locked.turn(rt, pace.yields(), queues) {
                Turn::Work(lease) => {
                    pace.go(&mut locked.signals);
                    let filled = queues.is_filled();
                    if (long || filled) && locked.wants_call(filled) {
                        self.watching.notify_one();
                    }
                    if locked.signals.wants_watch() {
                        self.waiting.notify_one();
                    }
                    return Some(lease);
                }
                Turn::Watch => {
                    locked = watch(rt, &self.watching, locked, pace);
                    locked.signals.end_watch();
                }
                Turn::Wait => {
                    locked.signals.begin_wait();
                    locked = self.waiting.wait(rt, locked);
                    locked.signals.end_wait();
                    pace.rest(true);
                }
                Turn::Leave => return None,
            }
        }
        unreachable!()
    }

    /// Waits while too much is to be written, so that a slow reader slows the run down. The thread that writes waits for no worker,
    /// and wakes those that wait here each time it has taken what there is, and when the run is over.
    #[inline(always)]
    fn held_back<'a, R: Wait>(
        &self,
        rt: &R,
        locked: MutexGuard<'a, Locked<B>>,
    ) -> MutexGuard<'a, Locked<B>> {
        if locked.is_full() {
            return self.hold(rt, locked);
        }
        locked
    }

    /// Waits until not too much is to be written. It is a call, so that other workers skip what they don't need.
    #[inline(never)]
    fn hold<'a, R: Wait>(
        &self,
        rt: &R,
        locked: MutexGuard<'a, Locked<B>>,
    ) -> MutexGuard<'a, Locked<B>> {
        let mut locked = locked;
        for _ in rt.forever() {
            if !locked.is_full() {
                return locked;
            }
            self.writing.notify_one();
            locked = self.held.wait(rt, locked);
        }
        unreachable!()
    }

    /// What there is to write, after a nap that the end of the run cuts short.
    pub fn next<R: Wait, G: Gate>(
        &self,
        rt: &R,
        gate: &G,
        printed: &mut Share<Printed<B>>,
        traced: &mut Share<Traced<B>>,
    ) -> Result<Handed<B>, Memory>
        requires { (printed.old.parts ≡ 1) × (traced.old.parts ≡ 1) }
        ensures parts { (printed.new.parts ≡ 1) × (traced.new.parts ≡ 1) }
        ensures output { IfOk result (λ h. (h.output.from ≡ printed.old.amount) × (printed.new.amount ≡ printed.old.amount + length h.output.bytes.items)) }
        ensures trace { IfOk result (λ h. (h.trace.from ≡ traced.old.amount) × (traced.new.amount ≡ traced.old.amount + length h.trace.bytes.items)) }
    {
        let mut locked = self.lock(rt);
        if !locked.signals.is_over() && !locked.is_full() {
            locked = sleep(
                rt,
                &self.writing,
                locked,
                Duration::from_millis(WRITING_NAP),
            );
        }
        let handed = locked.next(printed, traced);
        let clock = locked.clock();
        drop(locked);
        self.held.notify_all();
        gate.at_progress(clock);
        handed
    }

    /// The run stops because it is out of memory, unless it has ended.
    pub fn stop<R: Wait>(&self, rt: &R) {
        self.lock(rt).signals.stop();
        self.wake_all();
    }

    /// No worker gets another lease.
    pub fn close<R: Wait>(&self, rt: &R) {
        self.lock(rt).signals.close();
        self.wake_all();
    }

    /// Wakes all that sleep.
    pub fn wake_all(&self) {
        self.waiting.notify_all();
        self.watching.notify_all();
        self.writing.notify_all();
        self.held.notify_all();
    }
}

/// Naps without the lock, until a call cuts a nap short, or the lock is free when one ends: a thread that has it sees to the rest.
fn watch<'a, B: RunName, R: Wait>(
    rt: &R,
    call: &Condvar,
    locked: MutexGuard<'a, Locked<B>>,
    pace: &mut Pace,
) -> MutexGuard<'a, Locked<B>> {
    let lent = locked.signals.lent();
    let seen = call.notifications();
    let lock = MutexGuard::unlock(locked);
    for _ in rt.forever() {
        call.sleep(rt, seen, pace.nap());
        if call.notifications() != seen {
            pace.call();
            return lock.lock(rt);
        }
        if let Some(locked) = lock.try_lock() {
            pace.rest(locked.signals.lent() != lent);
            return locked;
        }
    }
    unreachable!()
}

/// Sleeps without the lock for `length`; a call cuts that short.
fn sleep<'a, B: RunName, R: Wait>(
    rt: &R,
    call: &Condvar,
    locked: MutexGuard<'a, Locked<B>>,
    length: Duration,
) -> MutexGuard<'a, Locked<B>> {
    let seen = call.notifications();
    let lock = MutexGuard::unlock(locked);
    call.sleep(rt, seen, length);
    lock.lock(rt)
}
