//! The arrows of a drawing.

use crate::drawing::Drawing;
use crate::lanes::{Arrow, Passes};
use crate::writing::push_escaped;
use std::alloc::AllocError;

/// All arrows whose goroutines have lanes.
pub(crate) fn push_arrows(text: &mut String, drawing: &Drawing) -> Result<(), AllocError> {
    let lanes = drawing.lanes;
    for arrow in lanes.arrows.iter() {
        if let (Some(from), Some(to)) = (lanes.row(arrow.from), lanes.row(arrow.to)) {
            push_arrow(
                text,
                drawing,
                *arrow,
                (drawing.height(from), drawing.height(to)),
            )?;
        }
    }
    Ok(())
}

/// An arrow from one height to another.
fn push_arrow(
    text: &mut String,
    drawing: &Drawing,
    arrow: Arrow,
    (start, goal): (u64, u64),
) -> Result<(), AllocError> {
    let scale = drawing.scale;
    let (from, to) = (scale.place(arrow.leaves), scale.place(arrow.reaches));
    text.push_str("<line class=\"arrow ")?;
    push_class(text, drawing, arrow.passes)?;
    write!(
        text,
        "\" x1=\"{from}\" y1=\"{start}\" x2=\"{to}\" y2=\"{goal}\" marker-end=\"url(#"
    )?;
    push_class(text, drawing, arrow.passes)?;
    match arrow.passes {
        Passes::Item(channel) => {
            text.push_str(")\"><title>")?;
            let label = drawing.labels.item_on(arrow.event, channel)?;
            push_escaped(text, label.as_str())?;
            text.push_str("</title></line>\n")
        }
        _ => text.push_str(")\"/>\n"),
    }
}

/// The class of an arrow, which is also the name of its head: an item has the color of its channel.
fn push_class(text: &mut String, drawing: &Drawing, passes: Passes) -> Result<(), AllocError> {
    match passes {
        Passes::Item(channel) => {
            let color = drawing.key.color(channel).unwrap_or(0);
            write!(text, "c{color}")
        }
        _ => text.push_str(passes.name()),
    }
}
