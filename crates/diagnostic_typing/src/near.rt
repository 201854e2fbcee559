//! Names that could be meant by one that is not there.

use crate::naming::last_name;
use checker_base::worth::Worth;
use diagnostic_scope::unit::{Found, Unit, declared_at};
use diagnostic_value::place::Setting;
use diagnostic_words::spelling::is_near;
use diagnostic_words::words::Words;
use go_text::Rule;
use syntax::{ExpressionNode, Name, NodeId, PlaceNode, TopNode};
use type_table::layout::field_of;
use type_table::value_type::ValueType;

/// A name that is not there, and the first name that it could mean.
#[derive(Clone, Copy)]
struct Search<'s> {
    wanted: &'s [u8],
    found: Option<&'s [u8]>,
}

impl<'s> Search<'s> {
    /// A search for what a name could mean.
    fn of(wanted: &'s Name) -> Search<'s> {
        Search {
            wanted: wanted.bytes.as_slice(),
            found: None,
        }
    }

    /// Takes a name that is there.
    fn take(&mut self, name: &'s [u8]) {
        if self.found.is_none() && is_near(self.wanted, name) {
            self.found = Some(name);
        }
    }

    /// Appends the name that was found, if there is one.
    fn push(&self, said: &mut Words) {
        if let Some(name) = self.found {
            said.bytes(name);
        }
    }
}

/// Takes the variables that are visible, the last declared first.
fn take_variables<'s>(search: &mut Search<'s>, at: &Setting<'s, 's>) {
    for entry in at.scene.visible.entries.as_slice().iter().rev() {
        search.take(entry.name.bytes.as_slice());
    }
}

/// Takes the functions of the file and those that are built in.
fn take_functions<'s>(search: &mut Search<'s>, at: &Setting<'s, 's>) {
    for entry in at.table.functions.as_slice() {
        search.take(entry.name.bytes.as_slice());
    }
    for name in ["println", "print", "close", "make", "len", "cap"] {
        search.take(name.as_bytes());
    }
}

/// Takes the struct types of the file, and the types that are built in.
fn take_types<'s>(search: &mut Search<'s>, tops: &'s [TopNode]) {
    for top in tops {
        if let TopNode::Struct(one) = top {
            search.take(one.name.bytes.as_slice());
        }
    }
    search.take(b"int".as_slice());
    search.take(b"bool".as_slice());
}

/// Takes the fields of a struct type.
fn take_fields<'s>(search: &mut Search<'s>, at: &Setting<'s, 's>, whole: ValueType<'_>) {
    let ValueType::Struct(number) = whole else {
        return;
    };
    let Some(entry) = at.table.structs.get(number) else {
        return;
    };
    for field in entry.fields.as_slice() {
        search.take(field.name.bytes.as_slice());
    }
}

/// Appends what the name of a value could mean.
fn push_near_value<'s>(said: &mut Words, at: &Setting<'s, 's>, name: &'s Name) {
    let mut search = Search::of(name);
    take_variables(&mut search, at);
    search.take(b"true".as_slice());
    search.take(b"false".as_slice());
    search.take(b"nil".as_slice());
    take_functions(&mut search, at);
    search.push(said);
}

/// Appends what the name of a function could mean.
fn push_near_function<'s>(said: &mut Words, at: &Setting<'s, 's>, name: &'s Name) {
    let mut search = Search::of(name);
    take_functions(&mut search, at);
    search.push(said);
}

/// Appends what the name of a type could mean.
fn push_near_type(said: &mut Words, tops: &[TopNode], name: &Name) {
    let mut search = Search::of(name);
    take_types(&mut search, tops);
    search.push(said);
}

/// Appends what a field could mean.
fn push_near_field<'s>(
    said: &mut Words,
    at: &Setting<'s, 's>,
    whole: ValueType<'_>,
    field: &'s Name,
) {
    let mut search = Search::of(field);
    take_fields(&mut search, at, whole);
    search.push(said);
}

/// Appends what the first field of an lvalue that is not there could mean.
fn push_near_path<'s>(said: &mut Words, at: &Setting<'s, 's>, place: &'s PlaceNode) {
    let Some(entry) = at.variable(place.name.bytes.as_slice()) else {
        return;
    };
    let mut whole = entry.kind;
    for field in place.fields.as_slice() {
        match field_of(at.table, whole, field.bytes.as_slice()) {
            Some(selected) => whole = selected.kind,
            None => return push_near_field(said, at, whole, field),
        }
    }
}

/// Appends what a part of an expression could mean. Returns whether it is such a part.
fn push_near_part<'s>(said: &mut Words, at: &Setting<'s, 's>, tops: &'s [TopNode]) -> bool {
    match at.part() {
        Some(ExpressionNode::Named(name)) => push_near_value(said, at, name),
        Some(ExpressionNode::Composite(name, _, _)) => push_near_type(said, tops, name),
        Some(ExpressionNode::Selection(whole, field)) => {
            if let Some(Worth::Typed(kind)) = at.worth(whole) {
                push_near_field(said, at, kind, field);
            }
        }
        _ => return false,
    }
    true
}

/// Appends what a name that is not visible could mean.
pub(crate) fn push_near_in<'s>(
    said: &mut Words,
    at: &Setting<'s, 's>,
    tops: &'s [TopNode],
    rule: Rule,
) {
    if let Rule::Assigned = rule {
        if let Some(place) = at.place() {
            push_near_path(said, at, place);
        }
        return;
    }
    if !matches!(rule, Rule::Visible) || push_near_part(said, at, tops) {
        return;
    }
    if let Some(place) = at.place() {
        return push_near_value(said, at, &place.name);
    }
    if let Some(called) = at.called() {
        return push_near_function(said, at, called.function);
    }
    if let Some(written) = at.written() {
        push_near_type(said, tops, last_name(written));
    }
}

/// Appends what the name of a type in a declaration could mean.
pub(crate) fn push_near_declared(
    said: &mut Words,
    tops: &[TopNode],
    found: &Found<'_>,
    node: NodeId,
) {
    let (declared, last) = match found.unit {
        Unit::Struct(one) => (one.fields.as_slice(), None),
        Unit::Head(function) => (function.parameters.as_slice(), function.result.as_ref()),
        _ => return,
    };
    if let Some(group) = declared_at(node, found.first, declared) {
        return push_near_type(said, tops, last_name(&group.type_node));
    }
    if let Some(written) = last {
        push_near_type(said, tops, last_name(written));
    }
}
