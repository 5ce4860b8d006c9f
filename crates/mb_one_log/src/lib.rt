//! That correct hosts execute beginnings of one list, and that accepted results are the service's, in each world of a schedule. It holds no code.
#![tactic(auto)]

ghost use Rattle.mb_one_log.specs.Worlds.{WorldsHaveOneList};

/// Whatever is lost, repeated and reordered, and whatever at most f faulty hosts stamp: each correct host has the state and the client table of the
/// service after a beginning of one list of batches, no request takes effect twice, each is tagged and was asked where its client is correct, and
/// each result that a correct client accepted is what the service answers in that list. So it is after each event of a schedule, of whole hosts over
/// any service that can be replicated, while nothing was forged and no two of the strings hashed so far share a digest.
pub fn one_list_in_worlds<V>()
    ensures { WorldsHaveOneList V }
{}
