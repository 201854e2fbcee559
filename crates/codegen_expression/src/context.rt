//! What a program's code is emitted with.

use crate::element_list::ElementList;
use std::alloc::Global;
use type_table::table::TypeTable;

/// What all code of a program is emitted with.
#[derive(Drop)]
pub struct Context<'t, 'k> {
    /// What the program declares.
    pub table: &'t TypeTable<'k>,
    /// What the program's channels carry.
    pub elements: &'t ElementList,
    pub alloc: Global,
}
