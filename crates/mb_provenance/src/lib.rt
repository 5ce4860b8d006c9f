//! That what came to a host is found in what it holds until something takes its place, that what is found came, and that nothing gives place but to what
//! comes in time. It holds lemmas alone, of each list of entries, whether whole steps lead to it or not; `mb_obligations` stands on them.
#![tactic(auto)]
