//! What is known of each world that nothing stopped, one host after the other, before anything is said of their agreement. It holds lemmas alone;
//! `mb_views` stands on them.
#![tactic(auto)]
