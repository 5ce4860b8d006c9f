//! What clients get, in words of the service and of the schedule alone: what takes effect and what it is answered with, and when a client accepts. It holds
//! no code, and pins the definitions of the service and of clients.
#![tactic(auto)]

ghost use Rattle.mb_results.specs.Sequential.{LineIsSequential};
ghost use Rattle.mb_results.specs.Accepts.{ClientsAccept};

/// The operations of fresh requests take effect one after the other, in the order of the one list: each correct host stands where the machine stands after
/// a beginning of them, and what it would tell a client, and what a client accepts, is the machine's result on the state before the request. A request that
/// is not fresh changes nothing. So it is of every service that can be replicated, whoever is faulty, up to f hosts, while nothing is forged.
pub fn line_is_sequential<V>()
    ensures { LineIsSequential V }
{}

/// A correct client accepts as soon as the first replies of f+1 hosts to its last request say the same, in the step that brings the last of them, and
/// nothing else. So it is after any events, whoever else is faulty and whatever is forged.
pub fn clients_accept_at_quorum<V>()
    ensures { ClientsAccept V }
{}
