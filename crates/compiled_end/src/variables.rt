//! The variables that a function of compiled code sees, read from its locals.

use crate::compiled::Compiled;
use codegen::{Mark, Part};
use diagnostic_scope::ends::{
    clause_end, clause_first, else_first, function_first, if_end, loop_first, simple_statement_end,
    statement_end, then_first, top_end,
};
use end_explanation::Call;
use go_text::Memory;
use reference_scope::scope::{Scope, Variable};
use reference_value::callee::written_kind;
use reference_value::kind::{element_kind, given_kinds, kind_in};
use std::alloc::Global;
use syntax::{
    ClauseNode, CommNode, DeclaredNode, ElseNode, ExpressionNode, ForHeader, FunctionNode,
    IfHeader, IfNode, Name, NodeId, RangeTarget, SimpleNode, StatementNode, TopNode, TypeNode,
};
use type_table::layout::words_of;
use type_table::table::TypeTable;
use type_table::value_type::ValueType;
use word::value::Word;

/// A function, and the first of its nodes.
#[derive(Clone, Copy)]
struct Found<'t> {
    first: NodeId,
    function: &'t FunctionNode,
}

/// A walk over a function in the order in which its code was emitted, up to the node at which the function is. Each variable that it passes
/// takes the next locals, also one of a block that has ended.
#[derive(Drop)]
struct Walk<'w, 't> {
    alloc: Global,
    table: &'w TypeTable<'t>,
    /// The marks that were not passed.
    marks: &'w [Mark],
    node: NodeId,
    /// The locals of the variables that were not passed.
    locals: &'w [Word],
    /// The variables that were passed and are visible.
    scope: Scope<'t>,
    /// Whether the node was reached.
    is_there: bool,
}

/// The variables that a function of a compiled program sees, which is at `call` and has these locals.
///
/// Errors: out of memory.
pub(crate) fn scope_of<'t>(
    alloc: Global,
    compiled: &Compiled<'t>,
    call: Call,
    locals: &[Word],
) -> Result<Scope<'t>, Memory> {
    let mut walk = Walk {
        alloc,
        table: &compiled.table,
        marks: marks_of(compiled.marks.as_slice(), call.function),
        node: call.node,
        locals,
        scope: Scope {
            blocks: Vec::new(alloc),
        },
        is_there: false,
    };
    if let Some(found) = function_of(alloc, compiled.file().tops.as_slice(), call.function) {
        walk.function(found)?;
    }
    let Walk {
        alloc: _,
        table: _,
        marks: _,
        node: _,
        locals: _,
        scope,
        is_there: _,
    } = walk;
    Ok(scope)
}

/// The marks of the parts of the function of a number, and those that follow.
fn marks_of(marks: &[Mark], number: usize) -> &[Mark] {
    let mut functions: usize = 0;
    for (index, mark) in marks.iter().enumerate() {
        if let Mark::Function = mark {
            if functions == number {
                return marks.get(index.saturating_add(1)..).unwrap_or(&[]);
            }
            functions = functions.saturating_add(1);
        }
    }
    &[]
}

/// The function of a number among these declarations, which are all of a file.
fn function_of<'t>(alloc: Global, tops: &'t [TopNode], number: usize) -> Option<Found<'t>> {
    let mut first = 0;
    let mut functions: usize = 0;
    for top in tops {
        if let TopNode::Function(function) = top {
            if functions == number {
                return Some(Found { first, function });
            }
            functions = functions.saturating_add(1);
        }
        first = top_end(alloc, first, top);
    }
    None
}

impl<'w, 't> Walk<'w, 't> {
    /// Passes a function.
    fn function(&mut self, found: Found<'t>) -> Result<(), Memory> {
        let function = found.function;
        self.scope.enter(self.alloc)?;
        self.parameters(function.parameters.as_slice())?;
        self.scope.enter(self.alloc)?;
        let first = function_first(found.first, function);
        self.list(first, function.body.as_slice())
    }

    /// Passes parameters.
    fn parameters(&mut self, parameters: &'t [DeclaredNode]) -> Result<(), Memory> {
        for group in parameters {
            let kind = written_kind(self.table, &group.type_node);
            for name in group.names.iter() {
                self.declare(name.bytes.as_slice(), kind)?;
            }
        }
        Ok(())
    }

    /// Passes a variable, which takes the next locals.
    fn declare(&mut self, name: &'t [u8], kind: ValueType<'t>) -> Result<(), Memory> {
        let count = words_of(self.table, kind).min(self.locals.len());
        let (own, rest) = self.locals.split_at(count);
        self.locals = rest;
        let words = Vec::from_slice(self.alloc, own)?;
        self.scope
            .declare(self.alloc, Variable { name, kind, words })?;
        Ok(())
    }

    /// Passes a name that is declared unless it is `_` or its block has it.
    fn declare_new(&mut self, name: &'t Name, kind: ValueType<'t>) -> Result<(), Memory> {
        let name = name.bytes.as_slice();
        if name == b"_".as_slice() || self.scope.own(name).is_some() {
            return Ok(());
        }
        self.declare(name, kind)
    }

    /// Passes the names of a definition with this right side.
    fn define(&mut self, names: &'t [Name], right: &'t [ExpressionNode]) -> Result<(), Memory> {
        let kinds = given_kinds(self.alloc, self.table, &self.scope, names.len(), right)?;
        for (name, kind) in names.iter().zip(kinds.iter()) {
            self.declare_new(name, *kind)?;
        }
        Ok(())
    }

    /// Passes the names of a declaration with a type.
    fn define_typed(&mut self, names: &'t [Name], written: &'t TypeNode) -> Result<(), Memory> {
        let kind = written_kind(self.table, written);
        for name in names {
            self.declare_new(name, kind)?;
        }
        Ok(())
    }

    /// Passes the mark at which a part begins, if that comes next, and returns whether it does.
    fn begin(&mut self, wanted: Part) -> bool {
        match self.marks.split_first() {
            Some((Mark::Begin { part, .. }, rest)) if *part == wanted => {
                self.marks = rest;
                true
            }
            _ => false,
        }
    }

    /// Passes the mark at which a part ends.
    fn end(&mut self) {
        if let Some((Mark::End { .. }, rest)) = self.marks.split_first() {
            self.marks = rest;
        }
    }

    /// Notes that the node was reached if it is one from `first` to before `end`.
    fn reach(&mut self, first: NodeId, end: NodeId) {
        self.is_there |= first <= self.node && self.node < end;
    }

    /// Passes statements. Those that cannot be reached have no marks, and no locals.
    #[cycle(statement)]
    fn list(&mut self, first: NodeId, body: &'t [StatementNode]) -> Result<(), Memory> {
        let mut start = first;
        for statement in body {
            let end = statement_end(self.alloc, start, statement);
            if self.is_there || !self.begin(Part::Statement) {
                return Ok(());
            }
            self.statement(start, end, statement)?;
            self.end();
            start = end;
        }
        Ok(())
    }

    /// Passes the statements of a block, which are visible up to its end.
    #[cycle(statement)]
    fn block(&mut self, first: NodeId, body: &'t [StatementNode]) -> Result<(), Memory> {
        self.scope.enter(self.alloc)?;
        self.list(first, body)?;
        self.leave();
        Ok(())
    }

    /// Leaves the innermost block, unless the node was reached in it.
    fn leave(&mut self) {
        if !self.is_there {
            self.scope.leave();
        }
    }

    /// Passes a statement, whose nodes have the numbers from `first` to before `end`.
    #[cycle(statement)]
    fn statement(
        &mut self,
        first: NodeId,
        end: NodeId,
        statement: &'t StatementNode,
    ) -> Result<(), Memory> {
        let own = end.saturating_sub(1);
        match statement {
            StatementNode::Block(body) => self.block(first, body.as_slice()),
            StatementNode::If(branch) => self.branch(first, own, branch),
            StatementNode::For(header, body) => self.turns(first, own, header, body.as_slice()),
            StatementNode::Select(clauses) => {
                self.reach(own, end);
                self.clauses(first, clauses.as_slice(), false)?;
                // The code of a default comes last.
                self.clauses(first, clauses.as_slice(), true)
            }
            _ => {
                self.reach(first, end);
                self.leaf(statement)
            }
        }
    }

    /// Passes a statement that holds no other, unless it is the one that was sought.
    fn leaf(&mut self, statement: &'t StatementNode) -> Result<(), Memory> {
        if self.is_there {
            return Ok(());
        }
        match statement {
            StatementNode::Simple(SimpleNode::Define(names, right))
            | StatementNode::Untyped(names, right) => {
                self.define(names.as_slice(), right.as_slice())
            }
            StatementNode::Typed(names, written, _) => self.define_typed(names.as_slice(), written),
            _ => Ok(()),
        }
    }

    /// Passes the simple statement at the beginning of a header.
    fn head(&mut self, first: NodeId, simple: &'t SimpleNode) -> Result<(), Memory> {
        let _has_marks = self.begin(Part::Head);
        self.reach(first, simple_statement_end(first, simple));
        if let (false, SimpleNode::Define(names, right)) = (self.is_there, simple) {
            self.define(names.as_slice(), right.as_slice())?;
        }
        self.end();
        Ok(())
    }

    /// Passes an `if`, whose own node is `own`.
    #[cycle(statement)]
    fn branch(&mut self, first: NodeId, own: NodeId, branch: &'t IfNode) -> Result<(), Memory> {
        self.scope.enter(self.alloc)?;
        if let IfHeader::Simple(simple) = &branch.header {
            self.head(first, simple)?;
        }
        let body = then_first(first, branch);
        self.reach(first, body);
        self.reach(own, own.saturating_add(1));
        if !self.is_there {
            self.block(body, branch.body.as_slice())?;
        }
        if !self.is_there {
            let other = else_first(self.alloc, first, branch);
            self.other(other, &branch.otherwise)?;
        }
        self.leave();
        Ok(())
    }

    /// Passes what follows the block of an `if`.
    #[cycle(statement)]
    fn other(&mut self, first: NodeId, otherwise: &'t ElseNode) -> Result<(), Memory> {
        if !self.begin(Part::Else) {
            return Ok(());
        }
        match otherwise {
            ElseNode::Nothing => {}
            ElseNode::Block(body) => self.block(first, body.as_slice())?,
            ElseNode::If(inner) => {
                let end = if_end(self.alloc, first, inner);
                self.branch(first, end.saturating_sub(1), inner)?;
            }
        }
        self.end();
        Ok(())
    }

    /// Passes a `for`, whose own node is `own`.
    #[cycle(statement)]
    fn turns(
        &mut self,
        first: NodeId,
        own: NodeId,
        header: &'t ForHeader,
        body: &'t [StatementNode],
    ) -> Result<(), Memory> {
        self.scope.enter(self.alloc)?;
        if let ForHeader::Clauses(Some(simple), _, _) = header {
            self.head(first, simple)?;
        }
        let start = loop_first(self.alloc, first, header);
        self.reach(first, start);
        self.reach(own, own.saturating_add(1));
        if !self.is_there {
            self.range(header)?;
            self.block(start, body)?;
        }
        if !self.is_there && self.begin(Part::Post) {
            self.end();
        }
        self.leave();
        Ok(())
    }

    /// Passes the local that keeps the channel of a range, and the name that takes its items.
    fn range(&mut self, header: &'t ForHeader) -> Result<(), Memory> {
        let ForHeader::Range(target, channel) = header else {
            return Ok(());
        };
        let kind = kind_in(self.table, &self.scope, channel);
        let item = element_kind(self.table, &self.scope, channel);
        self.declare(b"_".as_slice(), kind)?;
        if let RangeTarget::Define(name) = target {
            self.declare_new(name, item)?;
        }
        Ok(())
    }

    /// Passes the clauses of a `select` that are a default, or those that are none.
    #[cycle(statement)]
    fn clauses(
        &mut self,
        first: NodeId,
        clauses: &'t [ClauseNode],
        defaults: bool,
    ) -> Result<(), Memory> {
        let mut start = first;
        for clause in clauses {
            if clause.comm.is_none() == defaults && !self.is_there {
                self.clause(start, clause)?;
            }
            start = clause_end(self.alloc, start, clause);
        }
        Ok(())
    }

    /// Passes a clause of a `select`.
    #[cycle(statement)]
    fn clause(&mut self, first: NodeId, clause: &'t ClauseNode) -> Result<(), Memory> {
        let Some(comm) = &clause.comm else {
            return self.block(first, clause.body.as_slice());
        };
        let start = clause_first(self.alloc, first, std::slice::from_ref(clause), 1);
        self.reach(first, start);
        if self.is_there {
            return Ok(());
        }
        let _has_marks = self.begin(Part::Clause);
        self.scope.enter(self.alloc)?;
        self.receive(comm)?;
        self.list(start, clause.body.as_slice())?;
        self.leave();
        self.end();
        Ok(())
    }

    /// Passes the names that take what a clause of a `select` receives.
    fn receive(&mut self, comm: &'t CommNode) -> Result<(), Memory> {
        let CommNode::Define(item, sent, channel) = comm else {
            return Ok(());
        };
        let kind = element_kind(self.table, &self.scope, channel);
        self.declare_new(item, kind)?;
        match sent {
            Some(sent) => self.declare_new(sent, ValueType::Bool),
            None => Ok(()),
        }
    }
}
