//! Examples of the definitions of whole worlds, computed by the prover with real tags and digests: what stops an event and what becomes of one, with
//! and without faulty hosts, which worlds break a promise, which strings are hashed, and a whole run with a change of the view that meets each
//! premise of the promise about all hosts. Each expected value was worked out from the rules, or outside of this repository. It holds no code: the
//! examples stand in `proofs`.
#![tactic(auto)]
