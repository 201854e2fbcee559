//! The widths of struct types.

ghost use Rattle.std.specs.Prelude.{◌≡◌, ℕ, suc, ◌+◌, ◌<◌, ◌≤◌, min, Some, Option, slice_get, slice_set, length, List, IfOk, IfErr, OnOk};
ghost use Rattle.type_table.specs.Types.{StructType};
ghost use Rattle.type_table.specs.Containment.{Holds, kind_width, width_within, fields_of};
ghost use Rattle.type_table.specs.Views.{names_of, kind_of, structs_of};
ghost use Rattle.type_table.specs.declared.width.Mark.{Mark as OneMark};
ghost use Rattle.type_table.specs.Marks.{wides, news, IsWide, AreWide, Stands, Goes};
ghost use Rattle.type_table.specs.Trouble.{IsEndless};

use crate::entry::StructEntry;
use crate::value_type::ValueType;
use std::alloc::{AllocError, AllocFailed, Global};

/// How much is known of a struct.
#[derive(Clone, Copy)]
pub enum Mark {
    New,
    /// Its fields are being looked at.
    Open,
    /// The words of its values; 17 if they are more.
    Wide(usize),
}

/// The words of both together; 17 if they are more.
fn together(one: usize, other: usize) -> usize
    requires one { one ≤ 17 }
    requires other { other ≤ 17 }
    ensures { result ≡ min (one + other) 17 }
{
    if one + other < 17 { one + other } else { 17 }
}

/// What is known of a struct, if there is one with this number.
fn mark_at(marks: &[Mark], s: usize) -> Option<Mark>
    ensures { result ≡ slice_get marks.now s }
{
    match marks.get(s) {
        Some(mark) => Some(*mark),
        None => None,
    }
}

/// Marks a struct.
fn put(marks: &mut [Mark], s: usize, mark: Mark)
    requires { s < length marks.old }
    ensures { marks.new ≡ slice_set marks.old s mark }
{
    marks[s] = mark;
}

/// The words of a struct that is new.
///
/// Errors: a struct that contains itself.
#[cycle(visit)]
fn visit(structs: &[StructEntry<'_>], marks: &mut [Mark], s: usize) -> Result<usize, usize>
    requires new { slice_get marks.old s ≡ Some Mark.New }
    requires all { length marks.old ≡ length structs.now }
    requires open { (o : ℕ) → slice_get marks.old o ≡ Some Mark.Open → Holds (structs_of (names_of structs.now) structs.now) o s }
    requires stands { Stands (structs_of (names_of structs.now) structs.now) marks.old }
    ensures goes { OnOk result (Goes (structs_of (names_of structs.now) structs.now) marks.old marks.new) }
    ensures wide { IfOk result (λ w. IsWide (structs_of (names_of structs.now) structs.now) (suc (wides marks.new)) s w) }
    ensures small { IfOk result (λ w. w ≤ 17) }
    ensures cycle { IfErr result (λ t. Holds (structs_of (names_of structs.now) structs.now) t t) }
{
    put(marks, s, Mark::Open);
    let mut words = 0;
    for field in structs[s].fields.as_slice() {
        let own = field_words(structs, marks, field.kind)?;
        words = together(words, own);
    }
    put(marks, s, Mark::Wide(words));
    Ok(words)
}

/// The words of a field of this type, of a struct that is open.
///
/// Errors: a struct that contains itself.
#[cycle(visit)]
fn field_words(
    structs: &[StructEntry<'_>],
    marks: &mut [Mark],
    kind: ValueType<'_>,
) -> Result<usize, usize>
    requires open { (o : ℕ) → slice_get marks.old o ≡ Some Mark.Open → (t : ℕ) → kind_of (names_of structs.now) kind ≡ StructType t → Holds (structs_of (names_of structs.now) structs.now) o t }
    requires all { length marks.old ≡ length structs.now }
    requires stands { Stands (structs_of (names_of structs.now) structs.now) marks.old }
    ensures goes { OnOk result (Goes (structs_of (names_of structs.now) structs.now) marks.old marks.new) }
    ensures wide { IfOk result (λ w. (v : ℕ) × (kind_width (width_within (structs_of (names_of structs.now) structs.now) (suc (wides marks.new))) (Some (kind_of (names_of structs.now) kind.entry)) ≡ Some v) × (w ≡ min v 17)) }
    ensures small { IfOk result (λ w. w ≤ 17) }
    ensures cycle { IfErr result (λ t. Holds (structs_of (names_of structs.now) structs.now) t t) }
{
    match kind {
        ValueType::Struct(t) => match mark_at(marks, t) {
            None => Ok(0),
            Some(Mark::New) => visit(structs, marks, t),
            Some(Mark::Open) => Err(t),
            Some(Mark::Wide(words)) => Ok(words),
        },
        _ => Ok(1),
    }
}

/// Why the widths of structs are not known.
#[derive(Drop)]
pub enum Endless {
    /// A request for memory was refused.
    Memory,
    /// This struct contains itself.
    Holds(usize),
}

impl From<AllocError> for Endless {
    ghost use Rattle.type_table.specs.declared.width.Endless.TheVariants as endless;
    ghost use Rattle.std.specs.Prelude.{◌≡◌};

    ghost from_gives = { λ _ e. e ≡ endless.Memory };

    fn from(_error: AllocError) -> Endless {
        Endless::Memory
    }
}

impl<T: Drop> From<AllocFailed<T>> for Endless {
    ghost use Rattle.type_table.specs.declared.width.Endless.TheVariants as endless;
    ghost use Rattle.std.specs.Prelude.{◌≡◌};

    ghost from_gives = { λ _ e. e ≡ endless.Memory };

    fn from(_error: AllocFailed<T>) -> Endless {
        Endless::Memory
    }
}

/// Marks for `count` structs of which nothing is known.
fn new_marks(alloc: Global, count: usize) -> Result<Vec<Mark>, AllocError>
    ensures count { IfOk result (λ marks. length marks.items ≡ count) }
    ensures new { IfOk result (λ marks. (o : ℕ) → (m : OneMark) → slice_get marks.items o ≡ Some m → m ≡ Mark.New) }
{
    let mut marks = Vec::new(alloc);
    for number in 0..count {
        let _number = number;
        marks.push(Mark::New)?;
    }
    Ok(marks)
}

/// The widths of all structs, of which nothing is known yet.
fn all_widths(
    alloc: Global,
    structs: &[StructEntry<'_>],
    marks: &mut [Mark],
) -> Result<Vec<usize>, Endless>
    requires all { length marks.old ≡ length structs.now }
    requires new { (o : ℕ) → (m : OneMark) → slice_get marks.old o ≡ Some m → m ≡ Mark.New }
    ensures count { IfOk result (λ all. length all.items ≡ length structs.now) }
    ensures wide { IfOk result (λ all. (s w : ℕ) → slice_get all.items s ≡ Some w → IsWide (structs_of (names_of structs.now) structs.now) (suc (length structs.now)) s w) }
    ensures finite { IfOk result (λ _. (s : ℕ) → ¬ (Holds (structs_of (names_of structs.now) structs.now) s s)) }
    ensures endless { IfErr result (IsEndless (structs_of (names_of structs.now) structs.now)) }
{
    let mut all = Vec::new(alloc);
    for number in 0..structs.len() {
        let words = one_width(structs, marks, number)?;
        all.push(words)?;
    }
    Ok(all)
}

/// The widths of all structs, in words; 17 if they are more.
///
/// Errors: a struct that contains itself; `Memory`.
pub fn widths(alloc: Global, structs: &[StructEntry<'_>]) -> Result<Vec<usize>, Endless>
    ensures count { IfOk result (λ all. length all.items ≡ length structs.now) }
    ensures wide { IfOk result (λ all. (s w : ℕ) → slice_get all.items s ≡ Some w → IsWide (structs_of (names_of structs.now) structs.now) (suc (length structs.now)) s w) }
    ensures finite { IfOk result (λ _. (s : ℕ) → ¬ (Holds (structs_of (names_of structs.now) structs.now) s s)) }
    ensures endless { IfErr result (IsEndless (structs_of (names_of structs.now) structs.now)) }
{
    let mut marks = new_marks(alloc, structs.len())?;
    all_widths(alloc, structs, marks.as_mut_slice())
}

/// The words of one struct.
fn one_width(
    structs: &[StructEntry<'_>],
    marks: &mut [Mark],
    number: usize,
) -> Result<usize, Endless>
    requires closed { (o : ℕ) → slice_get marks.old o ≡ Some Mark.Open → ⊥ }
    requires all { length marks.old ≡ length structs.now }
    requires stands { Stands (structs_of (names_of structs.now) structs.now) marks.old }
    ensures goes { OnOk result (Goes (structs_of (names_of structs.now) structs.now) marks.old marks.new) }
    ensures wide { IfOk result (λ w. IsWide (structs_of (names_of structs.now) structs.now) (suc (wides marks.new)) number w) }
    ensures endless { IfErr result (IsEndless (structs_of (names_of structs.now) structs.now)) }
{
    match field_words(structs, marks, ValueType::Struct(number)) {
        Ok(words) => Ok(words),
        Err(s) => Err(Endless::Holds(s)),
    }
}
