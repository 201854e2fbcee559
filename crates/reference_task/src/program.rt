//! A program that runs.

ghost use Rattle.std.specs.Prelude.{◌≡◌, ◌^◌, ◌<◌, Some, IfSome, length};
ghost use Rattle.syntax.specs.View.{file_of};
ghost use Rattle.type_table.specs.Scopes.{function_number};
ghost use Rattle.type_table.specs.Visible.{globals_in};
ghost use Rattle.typing_rules.specs.Kinds.{globals_of};
ghost use Rattle.meaning.specs.Expressions.{number_of};
ghost use Rattle.reference_task.specs.Codes.{one_globals};

use syntax::FileNode;
use type_table::layout::function_number;
use type_table::table::TypeTable;

/// A file, and what it declares: fewer than 2^32 functions.
pub struct Program<'t> {
    pub file: &'t FileNode,
    pub table: TypeTable<'t>,
    pub ghost declares: { globals_in table ≡ globals_of (file_of file.now).tops } by { one_globals _ _ },
    pub ghost few: { length table.functions.items < 2 ^ 32 },
}

impl Drop for Program<'_> {
    fn drop(self) {
        let Program { file: _, table } = self;
        drop(table);
    }
}

/// The number of the function of this name.
#[tactic(auto, using(crate::proofs::Programs::number_below))]
fn number_in(table: &TypeTable<'_>, name: &[u8]) -> Option<usize>
    ensures number { result ≡ function_number (globals_in table.now).functions name.now }
    ensures below { IfSome result (λ n. n < length table.now.functions.items) }
{
    function_number(table, name)
}

impl<'t> Program<'t> {
    /// The number of the function of this name.
    pub fn number_of(&self, name: &[u8]) -> u32
        ensures { result ≡ number_of (globals_in self.now.table) name.now }
    {
        match number_in(&self.table, name) {
            Some(number) => number as u32,
            None => 0,
        }
    }
}
