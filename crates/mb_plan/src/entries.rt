//! What is asked of each entry of a shown log by itself.

ghost use Rattle.std.specs.Prelude.{◌≡◌, ◌+◌, ℕ, drop, nat_lt};
ghost use Rattle.std.specs.List.{list_any};
ghost use Rattle.mb_model.specs.UsableLogs.{is_whole, is_opening_entry, shows_body, has_body, is_normal_kind, height};

use mb_base::Pos;
use mb_msg::{Body, Shown};

/// Whether a body stands there whole.
fn is_whole<T>(body: &Body<T>) -> bool
    ensures { result ≡ is_whole body.now }
{
    match body {
        Body::Whole(_) => true,
        Body::Bare(_) => false,
    }
}

/// Whether an entry is an OPEN or a JOIN.
pub(crate) fn is_opening(entry: &Shown) -> bool
    ensures { result ≡ is_opening_entry entry.now }
{
    match entry {
        Shown::Open(_) | Shown::Join(_) => true,
        _ => false,
    }
}

/// Whether an entry shows its body.
pub(crate) fn shows_body(entry: &Shown) -> bool
    ensures { result ≡ shows_body entry.now }
{
    match entry {
        Shown::Prepare(m) => is_whole(&m.body),
        Shown::Commit(m) => is_whole(&m.body),
        Shown::Open(m) => is_whole(&m.body),
        _ => false,
    }
}

/// Whether an entry is of a kind that has a body here: a vote or an OPEN.
pub(crate) fn has_body(entry: &Shown) -> bool
    ensures { result ≡ has_body entry.now }
{
    match entry {
        Shown::Prepare(_) | Shown::Commit(_) | Shown::Open(_) => true,
        _ => false,
    }
}

/// Whether an entry is a PREPARE, COMMIT or CHECKPOINT.
pub(crate) fn is_normal(entry: &Shown) -> bool
    ensures { result ≡ is_normal_kind entry.now }
{
    match entry {
        Shown::Prepare(_) | Shown::Commit(_) | Shown::Checkpoint(_) => true,
        _ => false,
    }
}

/// The greatest position that an entry votes for.
pub(crate) fn height(entry: &Shown) -> Pos
    ensures { result ≡ height entry.now }
{
    match entry {
        Shown::Prepare(m) => m.pos,
        Shown::Commit(m) => m.pos,
        Shown::Open(m) => m.evidence.end,
        _ => 0,
    }
}

/// The index of the last opening, or 0 where none is shown: no opening is behind the entries from there on.
pub(crate) fn opened_from(entries: &[Shown]) -> usize
    ensures { (i : ℕ) → list_any is_opening_entry (drop (i + 1) entries.now) ≡ nat_lt i result }
{
    for back in 0..entries.len() {
        let index = entries.len() - 1 - back;
        if is_opening(&entries[index]) {
            return index;
        }
    }
    0
}
