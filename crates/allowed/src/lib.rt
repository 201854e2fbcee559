//! The runs that Go allows.
#![tactic(auto)]

ghost use Rattle.std.specs.Prelude.{◌∷◌, [], Bool, IsTrue, List, None, Some, false, negsuc, true, ℕ};
ghost use Rattle.allowed.specs.Naming.{IsHonest};
ghost use Rattle.allowed.specs.Orders.{Allowed, RunsAsAllowed};
ghost use Rattle.allowed.specs.Rows.{HasExactly, Requests, Shows, Works, close, go, make, print, program, receive, select_receive, select_send, send};
ghost use Rattle.pauses.specs.Paused.{paused};
ghost use Rattle.pauses.specs.Plans.{Pause};
ghost use Rattle.word.specs.Related.{IsKept, Parts, kind_of};
ghost use Rattle.word.specs.Values.{Cap, Close, Exit, Len, Make, Panic, Receive, Send};
ghost use Rattle.word.specs.declared.end.End.{End as Ending};
ghost use Rattle.word.specs.declared.end.End.TheVariants.{Deadlock, Finished, Panicked};
ghost use Rattle.word.specs.declared.panic.Panic.TheVariants.{ChannelSize, CloseOfClosed, CloseOfNil, DivideByZero, SendOnClosed};

/// Go allows what kendo does: the ordinary run of goroutines that use only channels that they were given is one of the runs that Go
/// allows, with its output and its end, unless it ends at one of kendo's own limits.
pub fn ordinary_run_is_allowed<S>()
    ensures { (K : Parts S) (holds : S → ℕ → Bool) → IsHonest (kind_of K) (λ s k. IsTrue (holds s k)) → (limit : ℕ) → RunsAsAllowed (kind_of K) (kind_of K) limit }
{}

/// Like `ordinary_run_is_allowed`, for the run by a plan of pauses: Go allows it of the goroutines without the plan.
pub fn paused_runs_are_allowed<S>()
    ensures ends { (K : Parts S) (ps : List Pause) (output : List ℕ) (ending : Ending) → Allowed (paused (kind_of K) ps) output ending → Allowed (kind_of K) output ending }
    ensures runs { (K : Parts S) (holds : S → ℕ → Bool) → IsHonest (kind_of K) (λ s k. IsTrue (holds s k)) → (ps : List Pause) (limit : ℕ) → RunsAsAllowed (paused (kind_of K) ps) (kind_of K) limit }
{}

/// If two kinds of goroutines are related step by step, Go allows the same runs of both.
pub fn related_kinds_are_allowed_alike<S, T, P>()
    ensures there { (K : Parts S) (M : Parts T) (left : P → S) (right : P → T) → IsKept K M left right → (output : List ℕ) (ending : Ending) → Allowed (kind_of K) output ending → Allowed (kind_of M) output ending }
    ensures back { (K : Parts S) (M : Parts T) (left : P → S) (right : P → T) → IsKept K M left right → (output : List ℕ) (ending : Ending) → Allowed (kind_of M) output ending → Allowed (kind_of K) output ending }
{}

/// If goroutines are related step by step to others that use only channels that they were given, Go allows their ordinary run, and each
/// run of them by a plan of pauses, unless it ends at one of kendo's own limits.
pub fn runs_of_related_kinds_are_allowed<S, T, P>()
    ensures ordinary { (K : Parts S) (M : Parts T) (left : P → S) (right : P → T) → IsKept K M left right → (holds : T → ℕ → Bool) → IsHonest (kind_of M) (λ s k. IsTrue (holds s k)) → (limit : ℕ) → RunsAsAllowed (kind_of K) (kind_of K) limit }
    ensures paused { (K : Parts S) (M : Parts T) (left : P → S) (right : P → T) → IsKept K M left right → (holds : T → ℕ → Bool) → IsHonest (kind_of M) (λ s k. IsTrue (holds s k)) → (ps : List Pause) (limit : ℕ) → RunsAsAllowed (paused (kind_of K) ps) (kind_of K) limit }
{}

/// All ends that Go allows of small programs, worked out by hand from the Go specification. They fail if `Goes` or `Ends` forgets a rule.
pub fn small_programs_have_these_ends()
    ensures two_senders { HasExactly (program ((make 0 ∷ go 1 ∷ go 2 ∷ receive ∷ receive ∷ []) ∷ (send 1 ∷ []) ∷ (send 2 ∷ []) ∷ [])) ((1 ∷ 2 ∷ [], Finished) ∷ (2 ∷ 1 ∷ [], Finished) ∷ []) }
    ensures default_or_sender { HasExactly (program ((make 0 ∷ go 1 ∷ select_receive true ∷ []) ∷ (send 7 ∷ []) ∷ [])) ((1 ∷ [], Finished) ∷ (0 ∷ [], Finished) ∷ []) }
    ensures close_and_receive { HasExactly (program ((make 1 ∷ go 1 ∷ receive ∷ receive ∷ []) ∷ (send 5 ∷ close ∷ []) ∷ [])) ((5 ∷ 0 ∷ [], Finished) ∷ []) }
    ensures close_and_send { HasExactly (program ((make 1 ∷ go 1 ∷ close ∷ []) ∷ (send 5 ∷ []) ∷ [])) (([], Finished) ∷ ([], Panicked SendOnClosed) ∷ []) }
    ensures two_closes { HasExactly (program ((make 0 ∷ close ∷ close ∷ []) ∷ [])) (([], Panicked CloseOfClosed) ∷ []) }
    ensures still_running { HasExactly (program ((go 1 ∷ []) ∷ (Works ∷ print 9 ∷ []) ∷ [])) (([], Finished) ∷ (9 ∷ [], Finished) ∷ []) }
    ensures deadlock { HasExactly (program ((make 0 ∷ go 1 ∷ receive ∷ []) ∷ (receive ∷ []) ∷ [])) (([], Deadlock) ∷ []) }
    ensures first_in_first_out { HasExactly (program ((make 2 ∷ go 1 ∷ receive ∷ receive ∷ []) ∷ (send 1 ∷ send 2 ∷ []) ∷ [])) ((1 ∷ 2 ∷ [], Finished) ∷ []) }
    ensures polls { HasExactly (program ((make 0 ∷ go 1 ∷ select_receive true ∷ []) ∷ (select_send 7 true ∷ []) ∷ [])) ((0 ∷ [], Finished) ∷ (0 ∷ 0 ∷ [], Finished) ∷ []) }
    ensures poll_and_select { HasExactly (program ((make 0 ∷ go 1 ∷ select_receive false ∷ []) ∷ (select_send 7 true ∷ []) ∷ [])) ((1 ∷ [], Finished) ∷ (1 ∷ 1 ∷ [], Finished) ∷ (0 ∷ [], Deadlock) ∷ []) }
    ensures lengths { HasExactly (program ((make 2 ∷ send 5 ∷ Shows (Len (Some 1)) ∷ Shows (Cap (Some 1)) ∷ Shows (Len None) ∷ Shows (Cap None) ∷ []) ∷ [])) ((1 ∷ 2 ∷ 0 ∷ 0 ∷ [], Finished) ∷ []) }
    ensures nil_waits { HasExactly (program ((go 1 ∷ Shows (Receive None) ∷ []) ∷ (Requests (Send None []) ∷ []) ∷ [])) (([], Deadlock) ∷ []) }
    ensures exit { HasExactly (program ((go 1 ∷ Shows (Receive None) ∷ []) ∷ (Requests Exit ∷ []) ∷ [])) (([], Finished) ∷ []) }
    ensures panic { HasExactly (program ((Requests (Panic DivideByZero) ∷ []) ∷ [])) (([], Panicked DivideByZero) ∷ []) }
    ensures close_of_nil { HasExactly (program ((Requests (Close None) ∷ []) ∷ [])) (([], Panicked CloseOfNil) ∷ []) }
    ensures negative_size { HasExactly (program ((Requests (Make (negsuc 0) []) ∷ []) ∷ [])) (([], Panicked ChannelSize) ∷ []) }
{}
