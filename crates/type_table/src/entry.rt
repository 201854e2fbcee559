//! What is known of each declaration of a file.

use crate::value_type::ValueType;
use syntax::Name;

/// A field of a struct.
#[derive(Drop)]
pub struct FieldEntry<'a> {
    pub name: &'a Name,
    pub kind: ValueType<'a>,
}

/// A declared struct type: its name, and its fields in order.
pub struct StructEntry<'a> {
    pub name: &'a Name,
    pub fields: Vec<FieldEntry<'a>>,
}

impl Drop for StructEntry<'_> {
    fn drop(self) {
        let StructEntry { name: _, fields } = self;
        drop(fields);
    }
}

/// A declared function: its name, the types of its parameters in order, and that of its result if it has one.
pub struct FunctionEntry<'a> {
    pub name: &'a Name,
    pub parameters: Vec<ValueType<'a>>,
    pub result: Option<ValueType<'a>>,
}

impl Drop for FunctionEntry<'_> {
    fn drop(self) {
        let FunctionEntry {
            name: _,
            parameters,
            result: _,
        } = self;
        drop(parameters);
    }
}
