//! What a function's code is emitted with.

use crate::blank::Blank;
use codegen_expression::context::Context;
use type_table::value_type::ValueType;

/// What all statements of a function are emitted with.
#[derive(Drop)]
pub struct FunctionContext<'t, 'a> {
    pub program: &'t Context<'t, 'a>,
    /// The name under which a range keeps its channel.
    pub blank: &'a Blank,
    /// The type of the function's result, if it has one.
    pub result_type: Option<ValueType<'a>>,
}
