//! Examples of the definitions, computed by the prover with real tags and digests: what single steps of a host answer and send, small
//! networks, batches, shown logs and plans. Each expected value was worked out from the rules, or outside of this repository. It holds no code: the
//! examples stand in `proofs`.
#![tactic(auto)]
