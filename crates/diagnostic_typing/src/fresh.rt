//! Names on the left of a `:=` that are not new.

use diagnostic_value::place::Setting;
use diagnostic_words::words::Words;
use syntax::Name;
use type_table::scope::is_blank;

/// Whether a name is among these.
fn is_among(names: &[&Name], name: &[u8]) -> bool {
    for &one in names {
        if one.bytes.as_slice() == name {
            return true;
        }
    }
    false
}

/// The first of these names, other than `_`, that is also among those after it.
pub(crate) fn first_repeated<'a>(names: &[&'a Name]) -> Option<&'a Name> {
    let (&name, rest) = names.split_first()?;
    let bytes = name.bytes.as_slice();
    if !is_blank(bytes) && is_among(rest, bytes) {
        return Some(name);
    }
    first_repeated(rest)
}

/// Whether these names are all `_`.
fn are_blank(names: &[&Name]) -> bool {
    for &name in names {
        if !is_blank(name.bytes.as_slice()) {
            return false;
        }
    }
    true
}

/// Appends these names but for `_`.
fn push_old(said: &mut Words, names: &[&Name]) {
    let mut before = "declared before in this block: ";
    for &name in names {
        if !is_blank(name.bytes.as_slice()) {
            said.around(before, name, "");
            before = ", ";
        }
    }
}

/// Reports a `:=` that has one name twice, or none that is new.
pub(crate) fn push_no_new(said: &mut Words, at: &Setting<'_, '_>) {
    let names = at.parts.names.as_slice();
    if let Some(name) = first_repeated(names) {
        return said.around("", name, " repeated on left side of :=");
    }
    said.text("no new variables on left side of := (");
    if are_blank(names) {
        said.text("_ declares none");
    } else {
        push_old(said, names);
    }
    said.text(")");
}
