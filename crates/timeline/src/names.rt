//! What a picture calls the channels of a run, and how it writes their items.

use crate::lanes::Lanes;
use crate::recording::{Recording, Site};
use go_text::Memory;
use std::alloc::{AllocError, Global};
use word::value::{Item, Word};

/// What a program says where it makes or uses channels.
pub struct Mention {
    /// The instruction that makes or uses them.
    pub site: Site,
    /// What the program calls them there, if it names them.
    pub name: Option<String>,
    /// How Go writes their items, if the instruction makes them.
    pub form: Option<ItemForm>,
}

impl Drop for Mention {
    fn drop(self) {
        let Mention {
            site: _,
            name,
            form,
        } = self;
        drop(name);
        drop(form);
    }
}

/// How Go writes the items of a type: of two words as `order{1, 10}`.
pub struct ItemForm {
    /// What comes before, between and after the words: one text more than an item has words.
    pub texts: Vec<String>,
}

impl Drop for ItemForm {
    fn drop(self) {
        let ItemForm { texts } = self;
        drop(texts);
    }
}

impl ItemForm {
    /// The texts, if items of so many words have this form.
    pub fn texts_for(&self, words: usize) -> Option<&[String]> {
        if self.texts.len() == words.saturating_add(1) {
            return Some(self.texts.as_slice());
        }
        None
    }
}

/// What is known of a channel: the index of the mention that names it, and of the one with the form of its items.
#[derive(Clone, Copy)]
struct Known {
    name: Option<usize>,
    form: Option<usize>,
}

/// The names of the channels of a recording.
#[derive(Drop)]
pub(crate) struct Names<'a> {
    mentions: &'a [Mention],
    /// Channel n, at index n - 1.
    channels: Vec<Known>,
    /// For each mention, how many channels it names.
    counts: Vec<usize>,
    /// For each mention, whether more than one channel has its name.
    shared: Vec<bool>,
}

impl<'a> Names<'a> {
    /// The names of the channels of a recording, which has these lanes.
    ///
    /// Errors: out of memory.
    pub(crate) fn of(
        alloc: Global,
        recording: &'a Recording,
        lanes: &Lanes,
    ) -> Result<Names<'a>, Memory> {
        let mentions = recording.notes.mentions.as_slice();
        let mut names = Names {
            mentions,
            channels: Vec::new(alloc),
            counts: Vec::new(alloc),
            shared: Vec::new(alloc),
        };
        for _ in mentions {
            names.counts.push(0)?;
        }
        for sites in lanes.channel_sites() {
            let known = names.known(sites.made, sites.used);
            names.count(known.name);
            names.channels.push(known)?;
        }
        for mention in mentions {
            let is_shared = names.has_many(mention);
            names.shared.push(is_shared)?;
        }
        Ok(names)
    }

    /// What is known of a channel that was made and first used by these instructions.
    fn known(&self, made: Option<Site>, used: Option<Site>) -> Known {
        let made = self.mention_at(made);
        let name = match made {
            Some(index) if self.name_of(index).is_some() => made,
            _ => self
                .mention_at(used)
                .filter(|index| self.name_of(*index).is_some()),
        };
        Known { name, form: made }
    }

    /// One more channel has the name of the mention at this index.
    fn count(&mut self, mention: Option<usize>) {
        if let Some(index) = mention {
            if let Some(count) = self.counts.get_mut(index) {
                *count = count.saturating_add(1);
            }
        }
    }

    /// The index of the mention of an instruction.
    fn mention_at(&self, site: Option<Site>) -> Option<usize> {
        let key = site?.key();
        self.mentions
            .binary_search_by_key(&key, |mention| mention.site.key())
            .ok()
    }

    /// The name in the mention at this index.
    fn name_of(&self, mention: usize) -> Option<&'a str> {
        match &self.mentions.get(mention)?.name {
            Some(name) => Some(name.as_str()),
            None => None,
        }
    }

    /// What is known of a channel.
    fn channel(&self, number: u32) -> Option<Known> {
        let index = (number as usize).checked_sub(1)?;
        self.channels.get(index).copied()
    }

    /// What the program calls a channel, if that is known.
    pub(crate) fn name(&self, number: u32) -> Option<&'a str> {
        self.name_of(self.channel(number)?.name?)
    }

    /// Whether more than one channel has the name in a mention.
    fn has_many(&self, mention: &Mention) -> bool {
        let Some(name) = &mention.name else {
            return false;
        };
        let mut count: usize = 0;
        for (index, more) in self.counts.iter().enumerate() {
            if self.name_of(index) == Some(name.as_str()) {
                count = count.saturating_add(*more);
            }
        }
        count > 1
    }

    /// Appends what a channel is called: `orders`, or `orders (channel 3)` if others have this name too, or `channel 3` if it has none.
    pub(crate) fn push_channel(
        &self,
        text: &mut String,
        channel: Option<u32>,
    ) -> Result<(), AllocError> {
        let Some(number) = channel else {
            return text.push_str("a nil channel");
        };
        let mention = self.channel(number).and_then(|known| known.name);
        let Some(mention) = mention else {
            return write!(text, "channel {number}");
        };
        let name = self.name_of(mention).unwrap_or("");
        if self.shared.get(mention).copied().unwrap_or(false) {
            return write!(text, "{name} (channel {number})");
        }
        text.push_str(name)
    }

    /// Appends an item of a channel as Go writes it, as `order{1, 10}`; without the name of its type, if that is not known.
    pub(crate) fn push_item(
        &self,
        text: &mut String,
        channel: Option<u32>,
        item: &Item,
    ) -> Result<(), AllocError> {
        let words = item.words();
        match self.texts(channel, words.len()) {
            Some([first, rest @ ..]) => {
                text.push_str(first.as_str())?;
                for (word, after) in words.iter().zip(rest.iter()) {
                    self.push_word(text, *word)?;
                    text.push_str(after.as_str())?;
                }
                Ok(())
            }
            _ => self.push_plain(text, words),
        }
    }

    /// What comes before, between and after the words of an item of a channel, if that is known.
    fn texts(&self, channel: Option<u32>, words: usize) -> Option<&'a [String]> {
        let mention = self.mentions.get(self.channel(channel?)?.form?)?;
        match &mention.form {
            Some(form) => form.texts_for(words),
            None => None,
        }
    }

    /// Appends an item of an unknown type: its word, or its words in braces.
    fn push_plain(&self, text: &mut String, words: &[Word]) -> Result<(), AllocError> {
        if let [word] = words {
            return self.push_word(text, *word);
        }
        text.push_str("{")?;
        for (index, word) in words.iter().enumerate() {
            if index > 0 {
                text.push_str(", ")?;
            }
            self.push_word(text, *word)?;
        }
        text.push_str("}")
    }

    /// Appends a word.
    fn push_word(&self, text: &mut String, word: Word) -> Result<(), AllocError> {
        match word {
            Word::Int(number) => write!(text, "{number}"),
            Word::Bool(true) => text.push_str("true"),
            Word::Bool(false) => text.push_str("false"),
            Word::Chan(None) => text.push_str("nil"),
            Word::Chan(channel) => self.push_channel(text, channel),
        }
    }
}
