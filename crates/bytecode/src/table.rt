//! Tables that instructions name: shapes of items, what a print writes, and the clauses of a select.

ghost use Rattle.std.specs.Prelude.{◌≡◌, ◌↔◌, IsTrue, length, slice_get};
ghost use Rattle.bytecode.specs.Effects.{clause_shape, clause_target, targets as targets_of};

use crate::instr::WordKind;
use std::marker::Model;

/// The most parts of a print table in verified code.
pub const MAX_PARTS: usize = 64;

/// The most clauses of a select table in verified code, a default counted too.
pub const MAX_CLAUSES: usize = 64;

/// The kinds of an item's words: 1 to 16 in verified code.
pub struct Shape {
    kinds: Vec<WordKind>,
}

impl Drop for Shape {
    fn drop(self) {
        let Shape { kinds } = self;
        drop(kinds);
    }
}

impl Model for Shape {
    ghost use Rattle.std.specs.Prelude.{List};
    ghost use Rattle.bytecode.specs.declared.instr.WordKind.{WordKind};

    ghost Value = { List WordKind };

    ghost view = { λ s. s.kinds.items };
}

impl Shape {
    /// The shape with these kinds.
    pub fn new(kinds: Vec<WordKind>) -> Shape
        ensures { result ≡ kinds.items }
    {
        Shape { kinds }
    }

    /// The kinds.
    pub fn kinds(&self) -> &[WordKind]
        ensures { result.now ≡ self.now }
    {
        self.kinds.as_slice()
    }

    /// Whether the two have the same kinds.
    pub fn is_same(&self, other: &Shape) -> bool
        ensures { IsTrue result ↔ (self.now ≡ other.now) }
    {
        same_kinds(self.kinds.as_slice(), other.kinds.as_slice())
    }
}

/// Whether the two lists have the same kinds, one by one.
pub fn same_kinds(left: &[WordKind], right: &[WordKind]) -> bool
    ensures { IsTrue result ↔ (left.now ≡ right.now) }
{
    if left.len() != right.len() {
        return false;
    }
    for i in 0..left.len() {
        if left[i] != right[i] {
            return false;
        }
    }
    true
}

/// The bytes of a string in the source.
pub struct Text {
    bytes: Vec<u8>,
}

impl Drop for Text {
    fn drop(self) {
        let Text { bytes } = self;
        drop(bytes);
    }
}

impl Model for Text {
    ghost use Rattle.std.specs.Prelude.{List, ℕ};

    ghost Value = { List ℕ };

    ghost view = { λ t. t.bytes.items };
}

impl Text {
    /// These bytes.
    pub fn new(bytes: Vec<u8>) -> Text
        ensures { result ≡ bytes.items }
    {
        Text { bytes }
    }

    /// The bytes.
    pub fn bytes(&self) -> &[u8]
        ensures { result.now ≡ self.now }
    {
        self.bytes.as_slice()
    }
}

/// A part of what is printed.
pub enum Part {
    /// An `int`, taken from the stack.
    Int,
    /// A `bool`, taken from the stack.
    Bool,
    /// A string.
    Text(Text),
}

impl Drop for Part {
    fn drop(self) {
        match self {
            Part::Text(text) => drop(text),
            Part::Int | Part::Bool => {}
        }
    }
}

/// What a `print` or `println` writes.
pub struct PrintTable {
    parts: Vec<Part>,
    line: bool,
}

impl Drop for PrintTable {
    fn drop(self) {
        let PrintTable { parts, line: _ } = self;
        drop(parts);
    }
}

impl Model for PrintTable {
    ghost use Rattle.bytecode.specs.Code.{PrintTable as PrintTableValue};

    ghost Value = { PrintTableValue };

    ghost view = { λ t. record { parts = t.parts.items; line = t.line } };
}

impl PrintTable {
    /// The table of these parts; of a `println` if `line` is true.
    pub fn new(parts: Vec<Part>, line: bool) -> PrintTable
        ensures { result ≡ record { parts = parts.items; line = line } }
    {
        PrintTable { parts, line }
    }

    /// The parts, in order: at most 64 in verified code.
    pub fn parts(&self) -> &[Part]
        ensures { result.now ≡ self.now.parts }
    {
        self.parts.as_slice()
    }

    /// Whether it is a `println`, which puts spaces between the parts and a newline after them.
    pub fn line(&self) -> bool
        ensures { result ≡ self.now.line }
    {
        self.line
    }

    /// Whether the two have the same parts and are both lines or both not.
    pub fn is_same(&self, other: &PrintTable) -> bool
        ensures { IsTrue result ↔ (self.now ≡ other.now) }
    {
        self.line == other.line && same_parts(self.parts.as_slice(), other.parts.as_slice())
    }
}

fn same_bytes(left: &[u8], right: &[u8]) -> bool
    ensures { IsTrue result ↔ (left.now ≡ right.now) }
{
    left == right
}

fn is_same_part(left: &Part, right: &Part) -> bool
    ensures { IsTrue result ↔ (left.now ≡ right.now) }
{
    match left {
        Part::Int => matches!(right, Part::Int),
        Part::Bool => matches!(right, Part::Bool),
        Part::Text(text) => match right {
            Part::Text(other) => same_bytes(text.bytes(), other.bytes()),
            Part::Int => false,
            Part::Bool => false,
        },
    }
}

fn same_parts(left: &[Part], right: &[Part]) -> bool
    ensures { IsTrue result ↔ (left.now ≡ right.now) }
{
    if left.len() != right.len() {
        return false;
    }
    for i in 0..left.len() {
        if !is_same_part(&left[i], &right[i]) {
            return false;
        }
    }
    true
}

/// A clause of a select.
#[derive(Clone, Copy, PartialEq, Eq)]
pub enum Clause {
    /// Sends an item of the first number's shape, and goes on at the pc that is the second number.
    Send(u32, u32),
    /// Receives an item of the first number's shape, and goes on at the pc that is the second number, with the item and a
    /// truth value.
    Receive(u32, u32),
}

impl Clause {
    /// The number of the shape of what is sent or received.
    pub fn shape(self) -> u32
        ensures { result ≡ clause_shape self }
    {
        match self {
            Clause::Send(shape, _) => shape,
            Clause::Receive(shape, _) => shape,
        }
    }

    /// The index at which it goes on.
    pub fn target(self) -> u32
        ensures { result ≡ clause_target self }
    {
        match self {
            Clause::Send(_, target) => target,
            Clause::Receive(_, target) => target,
        }
    }
}

/// The clauses of a select, in source order, and the pc of its default, if it has one.
pub struct SelectTable {
    clauses: Vec<Clause>,
    default: Option<u32>,
}

impl Drop for SelectTable {
    fn drop(self) {
        let SelectTable {
            clauses,
            default: _,
        } = self;
        drop(clauses);
    }
}

impl Model for SelectTable {
    ghost use Rattle.bytecode.specs.Code.{SelectTable as SelectTableValue};

    ghost Value = { SelectTableValue };

    ghost view = { λ t. record { clauses = t.clauses.items; default = t.default } };
}

impl SelectTable {
    /// The table of these clauses, with a default, if there is one, that goes on at this index.
    pub fn new(clauses: Vec<Clause>, default: Option<u32>) -> SelectTable
        ensures { result ≡ record { clauses = clauses.items; default = default } }
    {
        SelectTable { clauses, default }
    }

    /// The clauses: at most 64 in verified code, the default counted too.
    pub fn clauses(&self) -> &[Clause]
        ensures { result.now ≡ self.now.clauses }
    {
        self.clauses.as_slice()
    }

    /// The pc at which the default goes on; `None` if there is no default.
    pub fn default(&self) -> Option<u32>
        ensures { result ≡ self.now.default }
    {
        self.default
    }

    /// The instruction at which it goes on, by the way's number: first the clauses in order, then the default.
    pub fn target(&self, number: usize) -> Option<u32>
        ensures { result ≡ slice_get (targets_of self.now) number }
    {
        if number == self.clauses.len() {
            return self.default;
        }
        self.clauses.get(number).map(|clause| clause.target())
    }

    /// How many there are.
    pub fn target_count(&self) -> usize
        ensures { result ≡ length (targets_of self.now) }
    {
        match self.default {
            None => self.clauses.len(),
            Some(_) => self.clauses.len() + 1,
        }
    }

    /// Whether the two have the same clauses and the same default.
    pub fn is_same(&self, other: &SelectTable) -> bool
        ensures { IsTrue result ↔ (self.now ≡ other.now) }
    {
        same_default(self.default, other.default)
            && same_clauses(self.clauses.as_slice(), other.clauses.as_slice())
    }
}

fn same_default(left: Option<u32>, right: Option<u32>) -> bool
    ensures { IsTrue result ↔ (left ≡ right) }
{
    left == right
}

fn same_clauses(left: &[Clause], right: &[Clause]) -> bool
    ensures { IsTrue result ↔ (left.now ≡ right.now) }
{
    if left.len() != right.len() {
        return false;
    }
    for i in 0..left.len() {
        if left[i] != right[i] {
            return false;
        }
    }
    true
}
