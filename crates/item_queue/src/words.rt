//! Words in a ring.

ghost use Rattle.std.specs.Prelude.{◌≡◌, ◌+◌, ◌≤◌, ◌++◌, drop, take, length, OnOk};
ghost use Rattle.std.specs.VecDeque.{deque_len, deque_capacity};

use std::alloc::AllocError;
use std::collections::VecDeque;
use word::value::Word;

/// Reserves capacity for more words: at most twice as much as was there.
pub(crate) fn make_room(words: &mut VecDeque<Word>, more: usize) -> Result<(), AllocError>
    ensures room { OnOk result (deque_len words.new + more ≤ deque_capacity words.new) }
    ensures items { words.new.items ≡ words.old.items }
    ensures len { deque_len words.new ≡ deque_len words.old }
{
    if more <= words.capacity() - words.len() {
        return Ok(());
    }
    words.reserve_exact(words.len().max(more))
}

/// Puts words at the back.
pub(crate) fn append(words: &mut VecDeque<Word>, more: &[Word])
    requires { deque_len words.old + length more.now ≤ deque_capacity words.old }
    ensures items { words.new.items ≡ words.old.items ++ more.now }
    ensures len { deque_len words.new ≡ deque_len words.old + length more.now }
{
    for i in 0..more.len() {
        words.push_back_reserved(more[i]);
    }
}

/// Copies the words from index `from` on.
pub(crate) fn copy(words: &VecDeque<Word>, from: usize, room: &mut [Word])
    requires { from + length room.old ≤ deque_len words.now }
    ensures { room.new ≡ take (length room.old) (drop from words.now.items) }
{
    for i in 0..room.len() {
        if let Some(word) = words.get(from + i) {
            room[i] = *word;
        }
    }
}

/// Takes words off the front.
pub(crate) fn cut(words: &mut VecDeque<Word>, count: usize)
    ensures items { words.new.items ≡ drop count words.old.items }
    ensures len { count ≤ deque_len words.old → deque_len words.new + count ≡ deque_len words.old }
{
    for _done in 0..count {
        let _ = words.pop_front();
    }
}
