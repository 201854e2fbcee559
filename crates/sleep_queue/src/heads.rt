//! The first offer of each group, at the group's index in a list.

ghost use Rattle.std.specs.Prelude.{◌≡◌, ◌≢◌, ◌<◌, ℕ, IfSome, length};
ghost use Rattle.sleep_queue.specs.Queue.{head_at, head_with, head_without};

/// The first offer of a row.
pub(crate) fn head_of(heads: &[Option<usize>], row: usize) -> Option<usize>
    ensures { result ≡ head_at heads.now row }
{
    if row < heads.len() { heads[row] } else { None }
}

/// The row's first offer is this.
pub(crate) fn set_head(heads: &mut Vec<Option<usize>>, row: usize, head: Option<usize>)
    requires { IfSome head (λ h. row < length heads.old.items) }
    ensures row { head_at heads.new.items row ≡ head }
    ensures others { (q : ℕ) → q ≢ row → head_at heads.new.items q ≡ head_at heads.old.items q }
    ensures rows { length heads.new.items ≡ length heads.old.items }
{
    if row < heads.len() {
        heads[row] = head;
    }
}

/// The head of a row that offer `key` enters.
pub(crate) fn head_with(head: Option<usize>, key: usize) -> Option<usize>
    ensures { result ≡ head_with head key }
{
    match head {
        Some(first) => Some(first),
        None => Some(key),
    }
}

/// The head of a row that offer `key` leaves, which `after` followed.
pub(crate) fn head_without(head: Option<usize>, key: usize, after: usize) -> Option<usize>
    ensures { result ≡ head_without head key after }
{
    match head {
        Some(first) if first == key => { if after == key { None } else { Some(after) } }
        other => other,
    }
}
