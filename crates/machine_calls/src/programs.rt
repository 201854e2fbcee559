//! Programs of several goroutines.

use crate::made::{BOOLS, Body, INTS};
use bytecode::Instr::*;
use bytecode::{Instr, WordKind};

/// `c <- 7`, on its parameter.
const SENDS: Body = Body {
    name: "f",
    params: 1,
    locals: &[INTS],
    results: &[],
    instrs: &[Load(0, 1), Int(7), Send(0), Return],
};

/// `c := make(chan int); go f(c); x := <-c; println(x)`, where `f` is `c <- 7`.
pub const HANDS_OVER: [Body; 2] = [
    Body {
        name: "main",
        params: 0,
        locals: &[INTS, WordKind::Int],
        results: &[],
        instrs: &[
            Int(0),
            Make(0),
            Store(0, 1),
            Tick,
            Load(0, 1),
            Go(1),
            Load(0, 1),
            Receive(0),
            Discard(1),
            Store(1, 1),
            Tick,
            Load(1, 1),
            Print(0),
            Return,
        ],
    },
    SENDS,
];

/// `d := make(chan bool); go a(d); go b(d); <-d; <-d`, where `a` is `x := 1; println(1); d <- true` and `b` the same
/// without x and with 2.
pub const MEETS_TWICE: [Body; 3] = [
    Body {
        name: "main",
        params: 0,
        locals: &[BOOLS],
        results: &[],
        instrs: &[
            Int(0),
            Make(1),
            Store(0, 1),
            Tick,
            Load(0, 1),
            Go(1),
            Load(0, 1),
            Go(2),
            Load(0, 1),
            Receive(1),
            Discard(2),
            Load(0, 1),
            Receive(1),
            Discard(2),
            Return,
        ],
    },
    Body {
        name: "a",
        params: 1,
        locals: &[BOOLS, WordKind::Int],
        results: &[],
        instrs: &[
            Int(1),
            Store(1, 1),
            Tick,
            Int(1),
            Print(0),
            Load(0, 1),
            Bool(true),
            Send(1),
            Return,
        ],
    },
    Body {
        name: "b",
        params: 1,
        locals: &[BOOLS],
        results: &[],
        instrs: &[Int(2), Print(0), Load(0, 1), Bool(true), Send(1), Return],
    },
];

/// `c := make(chan int); c <- 1`.
pub const WAITS_FOR_GOOD: [Body; 1] = [Body {
    name: "main",
    params: 0,
    locals: &[INTS],
    results: &[],
    instrs: &[
        Int(0),
        Make(0),
        Store(0, 1),
        Tick,
        Load(0, 1),
        Int(1),
        Send(0),
        Return,
    ],
}];

/// `c := make(chan int); go f(c); x := 0; close(c); <-nil`, where `f` is `c <- 7`.
pub const CLOSES_ON_A_SENDER: [Body; 2] = [
    Body {
        name: "main",
        params: 0,
        locals: &[INTS],
        results: &[],
        instrs: &[
            Int(0),
            Make(0),
            Store(0, 1),
            Tick,
            Load(0, 1),
            Go(1),
            Tick,
            Load(0, 1),
            Close,
            Nil(0),
            Receive(0),
            Discard(2),
            Return,
        ],
    },
    SENDS,
];

const STARTS_ANOTHER: [Instr; 9] = [
    Go(1),
    Int(0),
    Make(0),
    Store(0, 1),
    Tick,
    Load(0, 1),
    Receive(0),
    Discard(2),
    Return,
];

/// `main` and `f` are both `go f(); c := make(chan int); <-c`.
pub const STARTS_MORE: [Body; 2] = [
    Body {
        name: "main",
        params: 0,
        locals: &[INTS],
        results: &[],
        instrs: &STARTS_ANOTHER,
    },
    Body {
        name: "f",
        params: 0,
        locals: &[INTS],
        results: &[],
        instrs: &STARTS_ANOTHER,
    },
];
