//! Items in words.

use diagnostic_words::words::Words;
use timeline::ItemForm;
use word::value::Word;

/// Appends an item as Go writes it, as `order{1, 10}`: in this form, if it is known, else its word, or its words in braces. A channel
/// is `channel N`.
pub fn push_item(said: &mut Words, form: Option<&ItemForm>, words: &[Word]) {
    match (form.and_then(|form| form.texts_for(words.len())), words) {
        (Some([first, rest @ ..]), _) => {
            said.text(first.as_str());
            for (word, after) in words.iter().zip(rest.iter()) {
                push_word(said, *word);
                said.text(after.as_str());
            }
        }
        (_, [word]) => push_word(said, *word),
        _ => push_all(said, words),
    }
}

/// Appends words in braces.
fn push_all(said: &mut Words, words: &[Word]) {
    said.text("{");
    for (index, word) in words.iter().enumerate() {
        said.text(if index > 0 { ", " } else { "" });
        push_word(said, *word);
    }
    said.text("}");
}

/// Appends a word.
fn push_word(said: &mut Words, word: Word) {
    match word {
        Word::Int(number) => said.number(i128::from(number)),
        Word::Bool(true) => said.text("true"),
        Word::Bool(false) => said.text("false"),
        Word::Chan(None) => said.text("nil"),
        Word::Chan(Some(number)) => {
            said.text("channel ");
            said.number(i128::from(number));
        }
    }
}
