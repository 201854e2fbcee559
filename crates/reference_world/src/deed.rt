//! What a request does to goroutines.

use std::marker::Model;
use word::end::End;
use word::panic::Panic;
use word::request::Reply;
use word::value::Word;

/// A goroutine that was asleep, and its reply.
#[derive(Drop)]
pub struct Woken {
    pub number: u64,
    pub reply: Reply,
}

impl Model for Woken {
    ghost use Rattle.std.specs.Prelude.{ℕ};
    ghost use Rattle.word.specs.Values.{Reply as AnyReply};
    ghost use Rattle.word.specs.Views.{reply_of};

    ghost Value = { ℕ × AnyReply };

    ghost view = { λ w. (w.number, reply_of w.reply) };
}

/// The outcome of a request, for the goroutine that made it and for others.
#[derive(Drop)]
pub enum Deed {
    /// It goes on with this reply. These are woken, in this order.
    Done(Reply, Vec<Woken>),
    /// It goes on, and these bytes are appended to the output.
    Prints(Vec<u8>),
    /// It goes on, and a new goroutine runs the function of this number with these arguments.
    Starts(u32, Vec<Word>),
    /// It falls asleep.
    Sleeps,
    /// It has ended.
    Leaves,
    /// It panics, in the clause of this number, 0 outside a select; and so the run ends.
    Panics(Panic, usize),
    /// The run ends so.
    Ends(End),
}
