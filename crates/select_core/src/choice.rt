//! Which clause a select does.

ghost use Rattle.std.specs.Prelude.{◌≡◌, ℕ, ◌<◌, IfSome, length, option_map, suc};
ghost use Rattle.std.specs.List.{slice_get};
ghost use Rattle.word.specs.Requests.{choose, ready_clauses};
ghost use Rattle.word.specs.Values.{Request as AnyRequest};
ghost use Rattle.channel_core.specs.Channels.{Others, clause_at, shared_with};
ghost use Rattle.select_core.specs.Choices.{Chooses, IsOpenAt, IsThere};

use channel_core::Channels;
use logical_clock::Clock;
use word::request::Case;

/// What a select does.
#[derive(Clone, Copy, Debug, PartialEq, Eq)]
pub enum Choice {
    /// The clause at this index, counted from 0, is done.
    Case(usize),
    /// No clause is ready, and the default clause is done.
    Default,
    /// No clause is ready, and the goroutine sleeps with all its clauses.
    Sleep,
}

/// What a select with these clauses does at this clock of its goroutine; `default` is whether there is a default clause (Go: Select
/// statements). Of k ready clauses, in source order, the one of index clock mod k is done.
pub fn choose(channels: &Channels, cases: &[Case], default: bool, clock: Clock) -> Choice
    ensures there { IsThere result cases.now }
    ensures chooses { (o : Others) (n : ℕ) (q : AnyRequest) → Chooses result cases.now default (choose (shared_with o channels.now) n clock q cases.now) }
{
    match chosen(channels, cases, clock) {
        Some(index) => Choice::Case(index),
        None if default => Choice::Default,
        None => Choice::Sleep,
    }
}

/// The index of the clause that is done, counted from 0; none if no clause is ready.
fn chosen(channels: &Channels, cases: &[Case], clock: Clock) -> Option<usize>
    ensures there { IfSome result (λ i. IsOpenAt i cases.now) }
    ensures chosen { (o : Others) (n : ℕ) (q : AnyRequest) → choose (shared_with o channels.now) n clock q cases.now ≡ option_map (λ i. (suc i, clause_at cases.now i)) result }
{
    let count = ready_count(channels, cases);
    if count == 0 {
        return None;
    }
    let turn = clock.time() % count as u64;
    nth_ready(channels, cases, turn as usize)
}

/// How many clauses are ready.
fn ready_count(channels: &Channels, cases: &[Case]) -> usize
    ensures { (o : Others) (n c : ℕ) (q : AnyRequest) → length (ready_clauses (shared_with o channels.now) n c q 1 cases.now) ≡ result }
{
    let mut count = 0;
    for case in cases {
        if channels.ready(case) {
            count += 1;
        }
    }
    count
}

/// The index among all clauses of the ready clause that `turn` ready ones precede.
fn nth_ready(channels: &Channels, cases: &[Case], turn: usize) -> Option<usize>
    ensures there { IfSome result (λ i. IsOpenAt i cases.now) }
    ensures nth { (o : Others) (n c : ℕ) (q : AnyRequest) → slice_get (ready_clauses (shared_with o channels.now) n c q 1 cases.now) turn ≡ option_map (λ i. (suc i, clause_at cases.now i)) result }
{
    let mut left = turn;
    for i in 0..cases.len() {
        if channels.ready(&cases[i]) {
            if left == 0 {
                return Some(i);
            }
            left -= 1;
        }
    }
    None
}
