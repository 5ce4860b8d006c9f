//! Why an item was not put into a window.

use mb_base::Pos;

/// Why an item was not put into a window. The item is given back.
#[derive(Debug, PartialEq, Drop)]
pub enum Refused<T> {
    /// The position is at or below the low end, which is told.
    Below { low: Pos, item: T },
    /// The position is above the window, whose low end is told.
    Beyond { low: Pos, item: T },
    /// The place holds an item.
    Filled { item: T },
}
