//! The laws of reading: what is read of bytes has the values of the grammar. It holds lemmas alone.
#![tactic(auto)]
