//! What is due at correct hosts beside what follows from their rules alone: a valid message passes its tests and is taken, a batch holds all that fits,
//! the votes of OPENs count, and the vote that completes f+1 is executed in its step. It holds lemmas alone; `mb_theorem` stands on them.
#![tactic(auto)]
