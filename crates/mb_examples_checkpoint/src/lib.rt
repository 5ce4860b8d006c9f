//! A run of the program's own system, over the key-value store, past two checkpoints: computed by the prover, event by event, it meets each premise of the promise
//! about all hosts, and so each correct host is at the state of the service after a beginning of the one list. It holds no code: the run stands in `proofs`.
#![tactic(auto)]
