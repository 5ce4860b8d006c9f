//! Where the premises of what is promised hold, and what it says there: for each statement a history, a world or a message, computed by the
//! prover. A promise whose premises nothing met would promise nothing. It holds no code: the witnesses stand in `proofs`.
#![tactic(auto)]
