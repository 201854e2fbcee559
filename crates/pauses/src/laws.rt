//! What a plan leaves as it is.

ghost use Rattle.std.specs.Prelude.{◌≡◌, List, Some};
ghost use Rattle.word.specs.Related.{Parts};
ghost use Rattle.word.specs.Values.{Reply, Request};
ghost use Rattle.pauses.specs.Files.{IsPlan, Reads, plan_text, read_bytes};
ghost use Rattle.pauses.specs.Headers.{Header, IsHeader, headed_text, header_in};
ghost use Rattle.pauses.specs.Laws.{Retold, Story};
ghost use Rattle.pauses.specs.Paused.{PausedState, paused_parts};
ghost use Rattle.pauses.specs.Plans.{Pause};

/// Given the same replies, a goroutine that keeps to a plan makes the same requests in the same order as one that doesn't, except that it
/// may first try a clause of a select in vain.
pub fn paused_goroutines_keep_requests<S>()
    ensures { (K : Parts S) (ps : List Pause) (s t : PausedState S) (story : List (Request × Reply)) → Story (paused_parts K ps) s story t → Retold K s.state story t.state }
{}

/// What is written of a plan is read as that plan, if its numbers are from 1 on and have at most 18 digits, none of its ways is empty, and
/// no two pauses change the same thing of one request.
pub fn plans_are_read_again()
    ensures { (ps : List Pause) → IsPlan ps → read_bytes (plan_text ps) ≡ Reads ps }
{}

/// Like `plans_are_read_again`, but of a plan's file with a header.
pub fn headed_plans_are_read_again()
    ensures { (h : Header) (ps : List Pause) → IsPlan ps → read_bytes (headed_text h ps) ≡ Reads ps }
{}

/// The header that a plan's file was written with is read again.
pub fn headers_are_read_again()
    ensures { (h : Header) (ps : List Pause) → IsHeader h → header_in (headed_text h ps) ≡ Some h }
{}
