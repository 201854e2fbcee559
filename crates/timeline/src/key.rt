//! The key of a drawing: which color the items of a channel have.

use crate::label::Labels;
use crate::lanes::{Lanes, Passes};
use crate::marks::CHANNEL_COLORS;
use crate::writing::push_escaped;
use go_text::Memory;
use std::alloc::{AllocError, Global};

/// How many channels the key names at most.
const MOST_NAMED: usize = 10;

/// Where its first row lies, and how far apart the rows are, in pixels.
const FIRST: u64 = 80;

pub(crate) const ROW: u64 = 20;

/// How wide an entry is without its letters, how wide a letter is reckoned, and where a row begins, in pixels.
const ENTRY: u64 = 48;

const LETTER: u64 = 7;

const INDENT: u64 = 12;

/// An entry of the key: its words, the index of its color if it has one, and where it is.
#[derive(Drop)]
struct Entry {
    words: String,
    color: Option<usize>,
    x: u64,
    y: u64,
}

/// The colors of the channels whose items are drawn, and the key that names them.
#[derive(Drop)]
pub(crate) struct Key {
    /// For each channel, at its number less 1, the index of its color; none if no item of it is drawn.
    colors: Vec<Option<usize>>,
    entries: Vec<Entry>,
    /// How many rows the key has.
    pub rows: u64,
}

impl Key {
    /// The key of the items in these lanes, at most so many pixels wide if an entry leaves a choice.
    ///
    /// Errors: out of memory.
    pub(crate) fn of(labels: Labels<'_>, lanes: &Lanes, width: u64) -> Result<Key, Memory> {
        let mut key = Key {
            colors: Vec::new(labels.alloc),
            entries: Vec::new(labels.alloc),
            rows: 0,
        };
        for _ in lanes.channel_sites() {
            key.colors.push(None)?;
        }
        let channels = key.take_colors(labels.alloc, lanes)?;
        key.lay(labels, channels.as_slice(), width)?;
        Ok(key)
    }

    /// Gives the channels their colors, in the order in which an item of each is drawn first, and returns them in that order.
    fn take_colors(&mut self, alloc: Global, lanes: &Lanes) -> Result<Vec<u32>, Memory> {
        let mut channels = Vec::new(alloc);
        for arrow in lanes.arrows.iter() {
            if let Passes::Item(channel) = arrow.passes {
                let index = (channel as usize).saturating_sub(1);
                if let Some(color) = self.colors.get_mut(index) {
                    if color.is_none() {
                        *color = Some(channels.len() % CHANNEL_COLORS);
                        channels.push(channel)?;
                    }
                }
            }
        }
        Ok(channels)
    }

    /// Lays the entries of these channels out in rows.
    fn lay(&mut self, labels: Labels<'_>, channels: &[u32], width: u64) -> Result<(), AllocError> {
        for channel in channels.iter().take(MOST_NAMED) {
            let mut words = String::new(labels.alloc);
            labels.names.push_channel(&mut words, Some(*channel))?;
            self.put(words, self.color(*channel), width)?;
        }
        let more = channels.len().saturating_sub(MOST_NAMED);
        if more > 0 {
            let words = format!(in labels.alloc; "and {more} more, in the same colors")?;
            self.put(words, None, width)?;
        }
        Ok(())
    }

    /// Puts an entry after the others: in their row if there is space.
    fn put(&mut self, words: String, color: Option<usize>, width: u64) -> Result<(), AllocError> {
        let (mut x, mut y) = match self.entries.last() {
            Some(last) => (last.x.saturating_add(wide(last)), last.y),
            None => (INDENT, FIRST),
        };
        let entry = Entry { words, color, x, y };
        if x > INDENT && x.saturating_add(wide(&entry)) > width {
            x = INDENT;
            y = y.saturating_add(ROW);
        }
        self.rows = y.saturating_sub(FIRST) / ROW + 1;
        self.entries
            .push(Entry { x, y, ..entry })
            .map_err(AllocError::from)
    }

    /// The index of the color of a channel, if an item of it is drawn.
    pub(crate) fn color(&self, channel: u32) -> Option<usize> {
        let index = (channel as usize).checked_sub(1)?;
        self.colors.get(index).copied().flatten()
    }

    /// Appends the key.
    pub(crate) fn push(&self, text: &mut String) -> Result<(), AllocError> {
        for entry in self.entries.iter() {
            let (x, y) = (entry.x, entry.y);
            write!(text, "<g transform=\"translate({x},{y})\">")?;
            if let Some(color) = entry.color {
                write!(
                    text,
                    "<line class=\"arrow c{color}\" x1=\"0\" y1=\"-4\" x2=\"24\" y2=\"-4\" marker-end=\"url(#c{color})\"/>"
                )?;
            }
            text.push_str("<text x=\"30\">")?;
            push_escaped(text, entry.words.as_str())?;
            text.push_str("</text></g>\n")?;
        }
        Ok(())
    }
}

/// How wide an entry is, in pixels.
fn wide(entry: &Entry) -> u64 {
    let letters = entry.words.chars().count() as u64;
    letters.saturating_mul(LETTER).saturating_add(ENTRY)
}
