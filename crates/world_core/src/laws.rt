//! Laws of the words in which channels and moments are spoken of.

ghost use Rattle.std.specs.Prelude.{◌≡◌, ℕ, List, length, map};
ghost use Rattle.turn_rule.specs.Settled.{After, Settles};
ghost use Rattle.turn_rule.specs.Turns.{World};
ghost use Rattle.word.specs.Flow.{accepted};
ghost use Rattle.word.specs.Kinds.{Clocked};
ghost use Rattle.word.specs.Related.{Parts, kind_of};
ghost use Rattle.word.specs.Rising.{Entry, entries};
ghost use Rattle.word.specs.Values.{Event};
ghost use Rattle.word.specs.Worlds.{Rest, moment, opening, rules};

/// A law. The entries of a channel, each with its sender and the event in which that offered it, are the items that the channel
/// accepted, in order.
pub fn entries_are_accepted()
    ensures { (c : ℕ) (events : List Event) → map (λ (entry : Entry). entry.item) (entries c events) ≡ accepted c events }
{}

/// A law. The world after k events, in which each awake goroutine has come to its request, is one to which the one-thread run comes, but
/// for local steps: at some moment it has had k events and shares the same, and local steps alone lead from where each awake goroutine
/// is to its request there. Moments with as many events share the same.
pub fn moments_settle<S>()
    ensures after { (K : Parts S) (limit k : ℕ) (v : World (Clocked S) (Rest S)) → After (rules (kind_of K) limit) k (opening (kind_of K)) v → (n : ℕ) × (length (moment (kind_of K) limit n).shared.shared.events ≡ k) × Settles (rules (kind_of K) limit) (moment (kind_of K) limit n) v }
    ensures same { (K : Parts S) (limit n m : ℕ) → length (moment (kind_of K) limit n).shared.shared.events ≡ length (moment (kind_of K) limit m).shared.shared.events → (moment (kind_of K) limit n).shared ≡ (moment (kind_of K) limit m).shared }
{}
