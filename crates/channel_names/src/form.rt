//! How Go writes values of a type.

use go_text::Memory;
use std::alloc::{AllocError, Global};
use std::str;
use syntax::{DeclaredNode, Name, TopNode, TypeNode};
use timeline::ItemForm;

/// The most parts that are laid out: a type with more has no form.
const MOST_PARTS: usize = 1_000;

/// A part of a value's text.
#[derive(Clone, Copy)]
enum Part<'a> {
    Text(&'static str),
    /// The name of a struct type.
    Named(&'a Name),
    /// A value of a type.
    Value(&'a TypeNode),
}

/// The texts of a form, up to some part.
#[derive(Drop)]
struct Layout<'a> {
    alloc: Global,
    tops: &'a [TopNode],
    /// The parts that come next, the first one last.
    left: Vec<Part<'a>>,
    /// The texts that end before a word.
    texts: Vec<String>,
    /// The text after the last word.
    text: String,
}

/// How Go writes items of this type in a file with these declarations; `None` if the type is nested too deep.
///
/// Errors: out of memory.
pub fn form_of(
    alloc: Global,
    tops: &[TopNode],
    element: &TypeNode,
) -> Result<Option<ItemForm>, Memory> {
    let mut layout = Layout {
        alloc,
        tops,
        left: Vec::new(alloc),
        texts: Vec::new(alloc),
        text: String::new(alloc),
    };
    layout.left.push(Part::Value(element))?;
    for _ in 0..MOST_PARTS {
        let Some(part) = layout.left.pop() else {
            return Ok(Some(layout.form()?));
        };
        layout.lay(part)?;
    }
    Ok(None)
}

impl<'a> Layout<'a> {
    /// Lays the next part out.
    fn lay(&mut self, part: Part<'a>) -> Result<(), AllocError> {
        match part {
            Part::Text(text) => self.text.push_str(text),
            Part::Named(name) => self
                .text
                .push_str(str::from_utf8(name.bytes.as_slice()).unwrap_or("")),
            Part::Value(TypeNode::Parenthesized(inner)) => {
                self.left.push(Part::Value(inner)).map_err(AllocError::from)
            }
            Part::Value(TypeNode::Named(name)) => match struct_of(self.tops, name) {
                Some(fields) => self.lay_struct(name, fields),
                None => self.lay_word(),
            },
            Part::Value(TypeNode::Channel(..)) => self.lay_word(),
        }
    }

    /// A word comes next.
    fn lay_word(&mut self) -> Result<(), AllocError> {
        let next = String::new(self.alloc);
        let text = std::mem::replace(&mut self.text, next);
        self.texts.push(text).map_err(AllocError::from)
    }

    /// A struct comes next.
    fn lay_struct(&mut self, name: &'a Name, fields: &'a [DeclaredNode]) -> Result<(), AllocError> {
        self.push(Part::Text("}"))?;
        let mut is_last = true;
        for declared in fields.iter().rev() {
            for _ in declared.names.iter() {
                if !is_last {
                    self.push(Part::Text(", "))?;
                }
                is_last = false;
                self.push(Part::Value(&declared.type_node))?;
            }
        }
        self.push(Part::Text("{"))?;
        self.push(Part::Named(name))
    }

    /// A part that comes before those that are left.
    fn push(&mut self, part: Part<'a>) -> Result<(), AllocError> {
        self.left.push(part).map_err(AllocError::from)
    }

    /// The form of the texts.
    fn form(self) -> Result<ItemForm, Memory> {
        let Layout {
            alloc: _,
            tops: _,
            left,
            mut texts,
            text,
        } = self;
        drop(left);
        texts.push(text)?;
        Ok(ItemForm { texts })
    }
}

/// The fields of the struct type of this name.
fn struct_of<'a>(tops: &'a [TopNode], name: &Name) -> Option<&'a [DeclaredNode]> {
    for top in tops {
        if let TopNode::Struct(one) = top {
            if one.name.bytes.as_slice() == name.bytes.as_slice() {
                return Some(one.fields.as_slice());
            }
        }
    }
    None
}
