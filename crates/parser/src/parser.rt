//! The syntax tree of the tokens of a source file.

ghost use Rattle.std.specs.Prelude.{◌≡◌, ◌<◌, ◌≤◌, ◌^◌, ◌⊎◌, List, Some, IsSome, IfOk, IfErr, length};
ghost use Rattle.go_text.specs.Source.{bytes_of};
ghost use Rattle.go_text.specs.declared.fault.Fault.TheVariants as faults;
ghost use Rattle.syntax.specs.Tree.{File};
ghost use Rattle.syntax.specs.Measures.{Entries, SelectClauses, height, most_entries, most_clauses};
ghost use Rattle.syntax.specs.Spans.{tree_of, spans_of};
ghost use Rattle.spans.specs.Places.{file_spans};
ghost use Rattle.parser_base.specs.Lexemes.{Lexeme, lexemes};
ghost use Rattle.parser.specs.Spelling.{Spells};
ghost use Rattle.parser_base.specs.Reading.{Syntax, TooDeep, TooMany, refusal_of};

use crate::file::file;
use go_text::{Fault, Source};
use parser_base::cursor::Cursor;
use scanner::Token;
use spans::file_spans;
use std::alloc::Global;
use syntax::Tree;
use syntax::limits::{MAX_CLAUSES, MAX_ENTRIES, MAX_HEIGHT};

/// The syntax tree of the tokens of a source file.
///
/// A fault lies at the first token up to which no tree's tokens begin so, or at the text's end: `Syntax` if no tree
/// at all has such tokens, `TooDeep` if none of at most `MAX_HEIGHT` levels has, and `Limit` of kind `ListEntries` or
/// `SelectClauses` if none has whose lists have at most `MAX_ENTRIES` entries, or whose selects have at most
/// `MAX_CLAUSES` clauses. At one token `Syntax` comes before `TooDeep`, and that before `Limit`.
pub fn parse(alloc: Global, source: &Source, tokens: &[Token]) -> Result<Tree, Fault>
    requires { length tokens.now < 2 ^ 32 }
    // The tree that is found has these tokens.
    ensures spelt { IfOk result (λ tree. Spells (lexemes (bytes_of source.now) tokens.now) (tree_of tree)) }
    ensures low { IfOk result (λ tree. height (tree_of tree) ≤ MAX_HEIGHT) }
    ensures few { IfOk result (λ tree. most_entries (tree_of tree) ≤ MAX_ENTRIES) }
    ensures clauses { IfOk result (λ tree. most_clauses (tree_of tree) ≤ MAX_CLAUSES) }
    // Each node has the span of its own tokens.
    ensures spans { IfOk result (λ tree. spans_of tree ≡ file_spans tokens.now (tree_of tree)) }
    // No tree at all has them.
    ensures syntax { IfErr result (λ fault. refusal_of fault ≡ Some Syntax → (file : File) → Spells (lexemes (bytes_of source.now) tokens.now) file → ⊥) }
    // No tree of at most `MAX_HEIGHT` levels has them.
    ensures deep { IfErr result (λ fault. refusal_of fault ≡ Some TooDeep → (file : File) → Spells (lexemes (bytes_of source.now) tokens.now) file → height file ≤ MAX_HEIGHT → ⊥) }
    // No tree whose lists have at most `MAX_ENTRIES` entries has them.
    ensures many { IfErr result (λ fault. refusal_of fault ≡ Some (TooMany Entries) → (file : File) → Spells (lexemes (bytes_of source.now) tokens.now) file → most_entries file ≤ MAX_ENTRIES → ⊥) }
    // No tree whose selects have at most `MAX_CLAUSES` clauses has them.
    ensures wide { IfErr result (λ fault. refusal_of fault ≡ Some (TooMany SelectClauses) → (file : File) → Spells (lexemes (bytes_of source.now) tokens.now) file → most_clauses file ≤ MAX_CLAUSES → ⊥) }
    ensures only { IfErr result (λ fault. (fault ≡ faults.Memory) ⊎ IsSome (refusal_of fault)) }
{
    let file = file(alloc, Cursor::new(source, tokens))?;
    let spans = file_spans(alloc, &file, tokens)?;
    Ok(Tree::new(file, spans))
}

/// A list of lexemes is spelt by at most one tree.
pub fn one_tree()
    ensures { (lexemes : List Lexeme) (first second : File) → Spells lexemes first → Spells lexemes second → first ≡ second }
{}
