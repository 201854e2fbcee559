//! The nodes of the parts that have marks.

use codegen::{Mark, Part};
use diagnostic_scope::ends::{
    clause_end, clause_first, function_first, loop_first, post_first, simple_statement_end,
    statement_end, then_first, top_end,
};
use diagnostic_scope::operations::Operations;
use diagnostic_scope::unit::{Found, Unit};
use go_text::Memory;
use std::alloc::Global;
use syntax::{
    ClauseNode, ElseNode, FileNode, ForHeader, FunctionNode, IfHeader, IfNode, NodeId, SimpleNode,
    StatementNode, TopNode,
};

/// The nodes that the own instructions of a function or a part come from.
#[derive(Drop)]
pub(crate) struct PartNodes {
    /// Its own node.
    pub own: NodeId,
    /// The nodes of the operations in its expressions, in the order in which they are done.
    pub operations: Vec<NodeId>,
}

/// A walk over a tree in the order in which its code is emitted, past the marks of that code.
#[derive(Drop)]
pub(crate) struct Walk<'m> {
    alloc: Global,
    marks: &'m [Mark],
    /// The index of the next mark.
    next: usize,
    /// The functions and parts that have begun, in order.
    parts: Vec<PartNodes>,
}

/// The number after a node.
fn after(node: NodeId) -> NodeId {
    node.saturating_add(1)
}

/// The last node before the number `end`.
fn before(end: NodeId) -> NodeId {
    end.saturating_sub(1)
}

impl<'m> Walk<'m> {
    /// The functions and parts of a file, in the order of the marks at which they begin.
    ///
    /// Errors: out of memory.
    pub(crate) fn parts_of(
        alloc: Global,
        file: &FileNode,
        marks: &'m [Mark],
    ) -> Result<Vec<PartNodes>, Memory> {
        let mut walk = Walk {
            alloc,
            marks,
            next: 0,
            parts: Vec::new(alloc),
        };
        let mut end = 0;
        for top in file.tops.as_slice() {
            let first = end;
            end = top_end(alloc, first, top);
            if let TopNode::Function(function) = top {
                walk.function(first, end, function)?;
            }
        }
        Ok(walk.parts)
    }

    /// Passes a function, whose nodes have the numbers from `first` to before `end`.
    fn function(
        &mut self,
        first: NodeId,
        end: NodeId,
        function: &FunctionNode,
    ) -> Result<(), Memory> {
        let _function = self.push(before(end))?;
        self.skip();
        self.list(function_first(first, function), function.body.as_slice())?;
        Ok(())
    }

    /// Adds a function or a part with this own node, and returns its index.
    fn push(&mut self, own: NodeId) -> Result<usize, Memory> {
        let index = self.parts.len();
        let operations = Vec::new(self.alloc);
        self.parts.push(PartNodes { own, operations })?;
        Ok(index)
    }

    /// Passes the next mark.
    fn skip(&mut self) {
        self.next = self.next.saturating_add(1);
    }

    /// Passes the mark at which a part begins, if that comes next, and returns the part's index.
    fn begin(&mut self, wanted: Part) -> Result<Option<usize>, Memory> {
        let begins = match self.marks.get(self.next) {
            Some(Mark::Begin { part, .. }) => *part == wanted,
            _ => false,
        };
        if !begins {
            return Ok(None);
        }
        self.skip();
        Ok(Some(self.push(0)?))
    }

    /// Notes the operations of the unit that a part does itself. The first of its nodes is `first`.
    fn note(&mut self, part: Option<usize>, first: NodeId, unit: Unit<'_>) -> Result<(), Memory> {
        let Some(index) = part else {
            return Ok(());
        };
        let Some(noted) = self.parts.get_mut(index) else {
            return Ok(());
        };
        let found = Operations::of(self.alloc, Found { first, unit });
        if found.is_cut {
            return Err(Memory);
        }
        for operation in found.list.as_slice() {
            noted.operations.push(operation.node)?;
        }
        Ok(())
    }

    /// Passes the mark at which a part ends that has begun, and notes its own node.
    fn end(&mut self, part: Option<usize>, node: NodeId) {
        let Some(index) = part else {
            return;
        };
        self.skip();
        if let Some(part) = self.parts.get_mut(index) {
            part.own = node;
        }
    }

    /// Passes the statements of a block, and returns the number after their nodes. Those that cannot be reached have no marks.
    #[cycle(statement)]
    fn list(&mut self, first: NodeId, body: &[StatementNode]) -> Result<NodeId, Memory> {
        let mut end = first;
        for statement in body {
            end = self.listed(end, statement)?;
        }
        Ok(end)
    }

    /// Passes a statement of a block, if it has marks.
    #[cycle(statement)]
    fn listed(&mut self, first: NodeId, statement: &StatementNode) -> Result<NodeId, Memory> {
        let part = self.begin(Part::Statement)?;
        if part.is_none() {
            return Ok(statement_end(self.alloc, first, statement));
        }
        let end = self.statement(part, first, statement)?;
        self.end(part, before(end));
        Ok(end)
    }

    /// Passes a statement that is a part.
    #[cycle(statement)]
    fn statement(
        &mut self,
        part: Option<usize>,
        first: NodeId,
        statement: &StatementNode,
    ) -> Result<NodeId, Memory> {
        match statement {
            StatementNode::Block(body) => Ok(after(self.block(first, body.as_slice())?)),
            StatementNode::If(branch) => self.branch(part, first, branch),
            StatementNode::For(header, body) => self.turns(part, first, header, body.as_slice()),
            StatementNode::Select(clauses) => {
                self.note(part, first, Unit::Select(clauses.as_slice()))?;
                self.clauses(first, clauses.as_slice())
            }
            _ => {
                self.note(part, first, Unit::Leaf(statement))?;
                Ok(statement_end(self.alloc, first, statement))
            }
        }
    }

    /// Passes statements, and the node of their block.
    #[cycle(statement)]
    fn block(&mut self, first: NodeId, body: &[StatementNode]) -> Result<NodeId, Memory> {
        let end = self.list(first, body)?;
        Ok(after(end))
    }

    /// Passes the simple statement at the beginning of a header, and returns the number after its nodes.
    fn head(&mut self, first: NodeId, simple: &SimpleNode) -> Result<NodeId, Memory> {
        let part = self.begin(Part::Head)?;
        let end = simple_statement_end(first, simple);
        self.note(part, first, Unit::Simple(simple))?;
        self.end(part, before(end));
        Ok(end)
    }

    /// Passes an `if`, whose condition is the part's own.
    #[cycle(statement)]
    fn branch(
        &mut self,
        part: Option<usize>,
        first: NodeId,
        branch: &IfNode,
    ) -> Result<NodeId, Memory> {
        let start = match &branch.header {
            IfHeader::Bare | IfHeader::Semicolon => first,
            IfHeader::Simple(simple) => self.head(first, simple)?,
        };
        self.note(part, start, Unit::Condition(false, &branch.condition))?;
        let end = self.block(then_first(first, branch), branch.body.as_slice())?;
        let end = self.other(end, &branch.otherwise)?;
        Ok(after(end))
    }

    /// Passes what follows the block of an `if`.
    #[cycle(statement)]
    fn other(&mut self, first: NodeId, otherwise: &ElseNode) -> Result<NodeId, Memory> {
        let part = self.begin(Part::Else)?;
        let end = match otherwise {
            ElseNode::Nothing => first,
            ElseNode::Block(body) => self.block(first, body.as_slice())?,
            ElseNode::If(branch) => self.branch(part, first, branch)?,
        };
        self.end(part, before(end));
        Ok(end)
    }

    /// Passes what is between a `for` and its block, except the statement after each turn.
    fn header(
        &mut self,
        part: Option<usize>,
        first: NodeId,
        header: &ForHeader,
    ) -> Result<(), Memory> {
        match header {
            ForHeader::Forever => Ok(()),
            ForHeader::While(condition) => self.note(part, first, Unit::Condition(true, condition)),
            ForHeader::Clauses(start, condition, _) => {
                let end = match start {
                    None => first,
                    Some(simple) => self.head(first, simple)?,
                };
                match condition {
                    None => Ok(()),
                    Some(condition) => self.note(part, end, Unit::Condition(true, condition)),
                }
            }
            ForHeader::Range(target, source) => {
                self.note(part, first, Unit::Range(target, source))
            }
        }
    }

    /// Passes the simple statement after each turn of a `for`. The number after its nodes is `end`.
    fn post(&mut self, first: NodeId, end: NodeId, simple: &SimpleNode) -> Result<(), Memory> {
        let part = self.begin(Part::Post)?;
        self.note(part, first, Unit::Simple(simple))?;
        self.end(part, before(end));
        Ok(())
    }

    /// Passes a `for`, whose condition or range is the part's own.
    #[cycle(statement)]
    fn turns(
        &mut self,
        part: Option<usize>,
        first: NodeId,
        header: &ForHeader,
        body: &[StatementNode],
    ) -> Result<NodeId, Memory> {
        self.header(part, first, header)?;
        let start = loop_first(self.alloc, first, header);
        let end = self.block(start, body)?;
        if let ForHeader::Clauses(_, _, Some(simple)) = header {
            self.post(post_first(self.alloc, first, header), start, simple)?;
        }
        Ok(after(end))
    }

    /// Passes the clauses of a `select`. The code of a default comes last.
    #[cycle(statement)]
    fn clauses(&mut self, first: NodeId, clauses: &[ClauseNode]) -> Result<NodeId, Memory> {
        let mut end = first;
        for clause in clauses {
            if clause.comm.is_some() {
                self.clause(end, clause)?;
            }
            end = clause_end(self.alloc, end, clause);
        }
        let mut start = first;
        for clause in clauses {
            if clause.comm.is_none() {
                self.list(start, clause.body.as_slice())?;
            }
            start = clause_end(self.alloc, start, clause);
        }
        Ok(after(end))
    }

    /// Passes a clause of a `select`, except a default.
    #[cycle(statement)]
    fn clause(&mut self, first: NodeId, clause: &ClauseNode) -> Result<(), Memory> {
        let part = self.begin(Part::Clause)?;
        let start = clause_first(self.alloc, first, std::slice::from_ref(clause), 1);
        self.list(start, clause.body.as_slice())?;
        self.end(part, before(start));
        Ok(())
    }
}
