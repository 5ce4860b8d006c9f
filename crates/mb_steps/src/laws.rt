//! What is true of the steps of one host: theorems, each the contract of a function that does nothing.

ghost use Rattle.mb_steps.specs.NothingUndone.{NothingUndone};
ghost use Rattle.mb_steps.specs.OwnLists.{OwnLists};

/// After each event of a host it has done all that its rules ask: none is left undone. This holds of every service, and of hosts that
/// were given anything at all.
pub fn nothing_is_left_undone<S>()
    ensures { NothingUndone S }
{}

/// After any events what a host stamped is one ordered list, numbered from 1: each message may stand behind those before it, and the
/// certificates in it verify. The host's gate for itself stands behind all of it. This holds of every service, and of hosts that were given
/// anything at all.
pub fn own_lists_are_ordered<S>()
    ensures { OwnLists S }
{}
