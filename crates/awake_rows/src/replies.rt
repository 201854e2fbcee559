//! Replies to sends and receives of single words.

ghost use Rattle.std.specs.Prelude.{◌≡◌};
ghost use Rattle.bytecode.specs.Machine.{code_kind};
ghost use Rattle.bytecode.specs.Rules.{IsFrameOf};
ghost use Rattle.word.specs.Kinds.{told};
ghost use Rattle.awake_rows.specs.Slots.{word_reply};

use goroutine_vm::GoState;
use logical_clock::Clock;
use verifier::Verified;
use word::value::Word;

/// The reply to a send or a receive of one word, outside of a select.
#[derive(Clone, Copy)]
pub enum WordReply {
    /// The send is done.
    Sent,
    /// This word was received.
    Received(Word),
}

impl WordReply {
    /// The request of a goroutine is done: it goes on with this reply, at this clock.
    #[inline(always)]
    pub(crate) fn tell(self, state: &mut GoState, code: &Verified, clock: Clock)
        requires { IsFrameOf code.now state.old.state }
        ensures { state.new ≡ told (code_kind code.now) state.old clock (word_reply self) }
    {
        match self {
            WordReply::Sent => state.sent(code, clock),
            WordReply::Received(word) => state.received(code, word, clock),
        }
    }
}
