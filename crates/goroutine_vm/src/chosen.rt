//! Where a select continues, and the words that it receives.

ghost use Rattle.std.specs.Prelude.{◌≡◌, ◌++◌, ◌∷◌, [], MatchOption, None, Some, slice_get};
ghost use Rattle.bytecode.specs.Effects.{clause_gives, clauses_in, shape_kinds, targets_in};
ghost use Rattle.bytecode.specs.Machine.{fitted, way_of};
ghost use Rattle.bytecode.specs.Rules.{IsVerified};

use crate::told::{Told, tell, tell_with_truth};
use bytecode::{Clause, Code, WordKind};
use operands::width::clauses_of;
use word::value::Word;

/// Sets `told` to the words of an item of shape `shape`, followed by whether it was sent.
#[inline(always)]
pub(crate) fn tell_item(told: &mut Told, code: &Code, shape: u32, words: &[Word])
    requires { IsVerified code.now }
    ensures { told.new ≡ fitted (shape_kinds code.now shape ++ WordKind.Bool ∷ []) words.now }
{
    match code.shapes().get(shape as usize) {
        Some(shape) => tell_with_truth(told, shape.kinds(), words),
        None => tell(told, &[WordKind::Bool], words),
    }
}

/// Sets `told` to the words that `clause` receives, if any.
fn tell_clause(told: &mut Told, code: &Code, clause: Option<Clause>, words: &[Word])
    requires { IsVerified code.now }
    ensures { told.new ≡ fitted (clause_gives code.now clause) words.now }
{
    match clause {
        Some(Clause::Receive(shape, _)) => tell_item(told, code, shape, words),
        Some(Clause::Send(_, _)) => told.clear(),
        None => told.clear(),
    }
}

/// The number of the way on which a select goes on: that of the clause that it did, counted from 1, or of its default.
fn way_taken(code: &Code, table: u32, chosen: Option<usize>) -> usize
    ensures { result ≡ way_of (slice_get code.now.selects table) chosen }
{
    match chosen {
        Some(clause) => clause.saturating_sub(1),
        None => clauses_of(code, table).len(),
    }
}

/// The instruction to which a way of a select leads.
fn target(code: &Code, table: u32, way: usize) -> Option<usize>
    ensures { result ≡ slice_get (targets_in (slice_get code.now.selects table)) way }
{
    match code.selects().get(table as usize) {
        Some(table) => table.target(way).map(|to| to as usize),
        None => None,
    }
}

/// The instruction at which a select continues, with `told` set to the words that it receives; `None` if it has no such clause or
/// default.
pub(crate) fn selected(
    told: &mut Told,
    code: &Code,
    table: u32,
    chosen: Option<usize>,
    words: &[Word],
) -> Option<usize>
    requires { IsVerified code.now }
    ensures { let k = way_of (slice_get code.now.selects table) chosen in MatchOption result (slice_get (targets_in (slice_get code.now.selects table)) k ≡ None) (λ to. (slice_get (targets_in (slice_get code.now.selects table)) k ≡ Some to) × (told.new ≡ fitted (clause_gives code.now (slice_get (clauses_in (slice_get code.now.selects table)) k)) words.now)) }
{
    let way = way_taken(code, table, chosen);
    let Some(to) = target(code, table, way) else {
        return None;
    };
    let clause = clauses_of(code, table).get(way).copied();
    tell_clause(told, code, clause, words);
    Some(to)
}
