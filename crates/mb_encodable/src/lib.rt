//! What a host keeps, stamps and sends has the values of the grammar: in each history to which its steps lead, whatever a search finds there may be
//! spelled. It holds lemmas alone; the proof of the whole host's code stands on them.
#![tactic(auto)]
