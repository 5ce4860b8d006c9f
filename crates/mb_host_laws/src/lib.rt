//! The laws of one host by itself, whatever it was given and whoever else is faulty: how its histories and its steps go on, what each entry rests
//! on, and what is known of what it holds and stamps. It names no world, and holds lemmas alone.
#![tactic(auto)]
