//! What it means that the tables of a host stand for its history, and how each table stays so: for each table, which entries leave it as it
//! was, and what it has to become behind each of the others. It holds definitions and lemmas alone; the host's code is proved on them.
#![tactic(auto)]
