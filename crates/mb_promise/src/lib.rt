//! What is promised: `Headline` first, then what it names. It holds definitions alone; `mb_theorem` has the theorem.
#![tactic(auto)]
