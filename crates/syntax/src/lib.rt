//! Trees of programs, with the span of each node.
#![tactic(auto)]

pub mod limits;
pub mod node;
pub mod size;
pub mod tree;

pub use node::{
    ArgumentsNode, BinaryOperator, ClauseNode, CommNode, DeclaredNode, Direction, ElseNode,
    ExpressionNode, FileNode, ForHeader, FunctionNode, IfHeader, IfNode, Name, PartNode, PlaceNode,
    RangeTarget, ReturnNode, SimpleNode, StatementNode, StructNode, TopNode, TypeNode,
    UnaryOperator,
};
pub use tree::{NodeId, Tree};
