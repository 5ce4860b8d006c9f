//! What a request's number says.

use mb_base::{Pos, Seq};

/// What a request's number says, against that of its client's last executed request, which is 0 before the first.
#[derive(Clone, Copy, PartialEq, Eq)]
pub enum Accept {
    /// It is above it.
    Fresh,
    /// It is below it.
    Old { last: Seq },
    /// It is that one, executed at this position.
    Again { pos: Pos },
}
