//! What gates and ordered lists have to do with each other, as the contract of a function that does nothing.

ghost use Rattle.mb_gate.specs.Laws.{KeepsInOrder};

/// Where `inner` is what one test says of each message, a gate takes the next message exactly where the list with it is ordered by that test.
pub fn gates_keep_lists_in_order()
    ensures { KeepsInOrder }
{}
