//! Each operation of the key-value store on a key that is there and on one that is not, computed by the prover. Each expected value was worked out from the
//! rules. It holds no code: the examples stand in `proofs`.
#![tactic(auto)]
