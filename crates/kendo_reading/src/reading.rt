//! From bytes to a checked program.

ghost use Rattle.std.specs.Prelude.{◌≡◌, ◌+◌, ◌<◌, ◌≤◌, ◌^◌, ◌⊎◌, Ok, Err, IfErr, IfOk, IsUtf8, length};
ghost use Rattle.checker.specs.Faults.{Tells};
ghost use Rattle.typing_rules.specs.Files.{IsTyped};
ghost use Rattle.checker.specs.Trees.{tree_in};
ghost use Rattle.go_text.specs.Source.{bytes_of};
ghost use Rattle.go_text.specs.declared.fault.Fault.{Fault as OneFault};
ghost use Rattle.parser_base.specs.Lexemes.{lexemes};
ghost use Rattle.parser.specs.Spelling.{Spells};
ghost use Rattle.scanner.specs.Tokens.{tokens_of as spec_tokens_of};
ghost use Rattle.syntax.specs.declared.tree.Tree.{Tree as OneTree};
ghost use Rattle.spans.specs.Places.{file_spans};
ghost use Rattle.syntax.specs.Spans.{tree_of, spans_of};
ghost use Rattle.syntax.specs.Measures.{height, most_entries, most_clauses};
ghost use Rattle.kendo_reading.specs.Reading.{HasNoReading, HasNoTokens, HasNoTree, IsOfText, IsRefusal, IsUnspelt, IsWhy, Reads, located_in};

use checker::{Typed, check};
use go_text::source::MAX_LENGTH;
use go_text::{Fault, Place, Source};
use parser::parse;
use scanner::{Token, scan};
use std::alloc::Global;
use syntax::Tree;

/// The source, and its checked program.
///
/// Errors: by the numbers 1 to 10 why it is none, with line and column; `Memory`.
pub fn read(alloc: Global, bytes: Vec<u8>) -> Result<(Source, Typed), Fault>
    ensures text { IfOk result (λ read. bytes_of read.0 ≡ bytes.items) }
    ensures reads { IfOk result (λ read. Reads bytes.items (tree_of (tree_in read.1))) }
    ensures refused { IfErr result (λ fault. IsRefusal fault → HasNoReading bytes.items) }
    ensures why { IfErr result (λ fault. (fault ≡ Fault.Memory) ⊎ IsWhy bytes.items fault) }
    ensures only { IfErr result IsOfText }
{
    let source = Source::new(bytes)?;
    let text = source.as_str();
    prove!(text.len() <= MAX_LENGTH);
    let tokens = tokens(alloc, &source)?;
    let tree = tree(alloc, &source, tokens.as_slice())?;
    let typed = checked(alloc, &source, tree)?;
    Ok((source, typed))
}

/// The tokens of a source.
fn tokens(alloc: Global, source: &Source) -> Result<Vec<Token>, Fault>
    ensures tokens { IfOk result (λ v. spec_tokens_of (bytes_of source.now) ≡ Ok v.items) }
    ensures few { IfOk result (λ v. length v.items ≤ length (bytes_of source.now) + 1) }
    ensures refused { IfErr result (λ fault. IsRefusal fault → HasNoTokens (bytes_of source.now)) }
    ensures why { IfErr result (λ told. (told ≡ Fault.Memory) ⊎ ((fault : OneFault) × (spec_tokens_of (bytes_of source.now) ≡ Err fault) × (told ≡ located_in (bytes_of source.now) fault))) }
    ensures only { IfErr result IsOfText }
{
    match scan(alloc, source) {
        Ok(tokens) => Ok(tokens),
        Err(fault) => Err(located(source, fault)),
    }
}

/// The syntax tree of the tokens.
fn tree(alloc: Global, source: &Source, tokens: &[Token]) -> Result<Tree, Fault>
    requires { length tokens.now < 2 ^ 32 }
    ensures spelt { IfOk result (λ tree. Spells (lexemes (bytes_of source.now) tokens.now) (tree_of tree)) }
    ensures low { IfOk result (λ tree. height (tree_of tree) ≤ 200) }
    ensures few { IfOk result (λ tree. most_entries (tree_of tree) ≤ 64) }
    ensures clauses { IfOk result (λ tree. most_clauses (tree_of tree) ≤ 64) }
    ensures placed { IfOk result (λ tree. spans_of tree ≡ file_spans tokens.now (tree_of tree)) }
    ensures refused { IfErr result (λ fault. IsRefusal fault → HasNoTree (lexemes (bytes_of source.now) tokens.now)) }
    ensures why { IfErr result (λ told. (told ≡ Fault.Memory) ⊎ ((fault : OneFault) × IsUnspelt (lexemes (bytes_of source.now) tokens.now) fault × (told ≡ located_in (bytes_of source.now) fault))) }
    ensures only { IfErr result IsOfText }
{
    match parse(alloc, source, tokens) {
        Ok(tree) => Ok(tree),
        Err(fault) => Err(located(source, fault)),
    }
}

/// The tree, if it is a program.
fn checked(alloc: Global, source: &Source, tree: Tree) -> Result<Typed, Fault>
    ensures tree { IfOk result (λ typed. tree_in typed ≡ tree) }
    ensures typed { IfOk result (λ _. IsTyped (tree_of tree)) }
    ensures refused { IfErr result (λ fault. IsRefusal fault → IsTyped (tree_of tree) → ⊥) }
    ensures why { IfErr result (λ told. (told ≡ Fault.Memory) ⊎ ((fault : OneFault) × Tells tree fault × (told ≡ located_in (bytes_of source.now) fault))) }
    ensures only { IfErr result IsOfText }
{
    match check(alloc, tree) {
        Ok(typed) => Ok(typed),
        Err(fault) => Err(located(source, fault)),
    }
}

/// `fault`, with the line and the column of its first byte.
fn located(source: &Source, fault: Fault) -> Fault
    ensures { result ≡ located_in (bytes_of source.now) fault }
{
    let at = |place: Place| Place {
        span: place.span,
        position: Some(source.line_column(place.span.from)),
    };
    match fault {
        Fault::BadCharacter(place) => Fault::BadCharacter(at(place)),
        Fault::BadNumber(place) => Fault::BadNumber(at(place)),
        Fault::OpenString(place) => Fault::OpenString(at(place)),
        Fault::OpenComment(place) => Fault::OpenComment(at(place)),
        Fault::Syntax(place) => Fault::Syntax(at(place)),
        Fault::TooDeep(place) => Fault::TooDeep(at(place)),
        Fault::Typing { rule, node, place } => Fault::Typing {
            rule,
            node,
            place: at(place),
        },
        Fault::Limit { kind, node, place } => Fault::Limit {
            kind,
            node,
            place: at(place),
        },
        other => other,
    }
}
