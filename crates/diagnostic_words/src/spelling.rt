//! Words that are one slip of a finger apart.

/// How many bytes two words begin with alike.
fn common_length(one: &[u8], other: &[u8]) -> usize {
    for (index, byte) in one.iter().enumerate() {
        if other.get(index) != Some(byte) {
            return index;
        }
    }
    one.len()
}

/// What a word ends with after its first `count` bytes.
fn after(word: &[u8], count: usize) -> &[u8] {
    word.get(count..).unwrap_or(b"".as_slice())
}

/// Whether the first two bytes of a word are those of the other, swapped.
fn is_swapped(one: &[u8], other: &[u8]) -> bool {
    one.len() > 1
        && other.len() > 1
        && one.first() == other.get(1)
        && one.get(1) == other.first()
        && after(one, 2) == after(other, 2)
}

/// Whether a word becomes the other one if one byte is put in, left out or replaced, or two neighbours are swapped. Words of less
/// than three bytes, of which the longer one counts, and equal ones are not near.
pub fn is_near(one: &[u8], other: &[u8]) -> bool {
    if one.len().max(other.len()) < 3 || one.len().min(other.len()) < 2 {
        return false;
    }
    let length = common_length(one, other);
    let first = after(one, length);
    let second = after(other, length);
    if first.is_empty() && second.is_empty() {
        return false;
    }
    after(first, 1) == second
        || first == after(second, 1)
        || after(first, 1) == after(second, 1)
        || is_swapped(first, second)
}
