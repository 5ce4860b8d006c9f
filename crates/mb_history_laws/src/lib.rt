//! What a host's history says once more entries stand in it: for each search, which entries leave it as it was, and what each of the others
//! makes of it. It holds lemmas alone; the proof that a host's tables represent its history stands on them.
#![tactic(auto)]
