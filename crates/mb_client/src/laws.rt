//! What is true of all results that clients accept: a theorem, the contract of a function that does nothing.

ghost use Rattle.mb_client.specs.Accepted.{AcceptedHaveQuorum};

/// A result that a client accepted came from f+1 different hosts, each of which told the same position and result.
pub fn accepted_results_have_a_quorum()
    ensures { AcceptedHaveQuorum }
{}
