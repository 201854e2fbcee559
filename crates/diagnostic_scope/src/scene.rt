//! What is visible at the node where the check of a file stops.

ghost use Rattle.std.specs.Prelude.{◌^◌, ◌+◌, ◌<◌, map, sum_by};
ghost use Rattle.syntax.specs.Measures.{function_size, statements_size, top_size};
ghost use Rattle.syntax.specs.View.{body_of, function_of, top_of};

use crate::ends::top_end;
use checker_base::refusal::Refusal;
use checker_declaration::header::{Head, function_head};
use checker_statement::statement::{Inside, statements};
use std::alloc::Global;
use syntax::{FunctionNode, NodeId, StatementNode, TopNode};
use type_table::entry::FieldEntry;
use type_table::scope::{Visible, declare};
use type_table::table::TypeTable;
use type_table::value_type::ValueType;

/// What is visible at the node of a function that is wrong, and what the function returns.
#[derive(Drop)]
pub struct Scene<'a> {
    pub visible: Visible<'a>,
    pub result: Option<ValueType<'a>>,
    /// Whether something is missing, since a request for memory was refused.
    pub is_cut: bool,
}

impl<'a> Scene<'a> {
    /// The scene in a function, at the first thing that is wrong with it.
    fn new(alloc: Global, table: &TypeTable<'a>, function: &'a FunctionNode) -> Scene<'a>
        requires small { function_size (function_of function.now) < 2 ^ 32 }
    {
        let mut scene = Scene {
            visible: Visible::new(alloc),
            result: None,
            is_cut: false,
        };
        scene.pass(alloc, table, function);
        scene
    }

    /// Checks a function, up to the first thing that is wrong with it. What was declared before stays visible.
    fn pass(&mut self, alloc: Global, table: &TypeTable<'a>, function: &'a FunctionNode)
        requires small { function_size (function_of function.now) < 2 ^ 32 }
    {
        match function_head(alloc, table.types(), 0, function) {
            Ok(head) => self.pass_body(alloc, table, &head, function.body.as_slice()),
            Err(Refusal::Memory) => self.is_cut = true,
            Err(Refusal::Violated(_)) => {}
        }
    }

    /// Checks the statements after the head of a function.
    fn pass_body(
        &mut self,
        alloc: Global,
        table: &TypeTable<'a>,
        head: &Head<'a>,
        body: &'a [StatementNode],
    )
        requires small { head.now.end + statements_size (body_of body.now) < 2 ^ 32 }
    {
        self.result = head.result;
        self.declare_all(table, head.parameters.as_slice());
        let inside = Inside {
            result: head.result,
            breaks: false,
            continues: false,
        };
        let visible = &mut self.visible;
        if let Err(Refusal::Memory) = statements(alloc, table, inside, visible, head.end, body) {
            self.is_cut = true;
        }
    }

    /// Declares parameters.
    fn declare_all(&mut self, table: &TypeTable<'a>, parameters: &[FieldEntry<'a>]) {
        for parameter in parameters {
            let visible = &mut self.visible;
            let declared = declare(table, visible, parameter.kind, parameter.name);
            self.is_cut |= declared.is_err();
        }
    }
}

/// The scene at this node, at which the check of these declarations stops, if it is in a function. The first of their nodes
/// is `first`.
pub fn scene_at<'a>(
    alloc: Global,
    table: &TypeTable<'a>,
    tops: &'a [TopNode],
    first: NodeId,
    node: NodeId,
) -> Option<Scene<'a>>
    requires small { sum_by top_size (map top_of tops.now) < 2 ^ 32 }
{
    let Some((top, rest)) = tops.split_first() else {
        return None;
    };
    let end = top_end(alloc, first, top);
    if end <= node {
        return scene_at(alloc, table, rest, end, node);
    }
    match top {
        TopNode::Function(function) => Some(Scene::new(alloc, table, function)),
        TopNode::Struct(_) => None,
    }
}
