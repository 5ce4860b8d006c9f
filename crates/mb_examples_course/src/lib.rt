//! The course of a run past two checkpoints, over any service: what is said in it, what the hosts hold and answer, its worlds, and its hashed strings.
//! `mb_examples_checkpoint` computes its steps with the key-value store. It holds no code: the course stands in `proofs`.
#![tactic(auto)]
