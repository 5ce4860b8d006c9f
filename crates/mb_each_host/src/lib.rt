//! What is promised of each host by itself, whoever else is faulty: that it carries out its rules, and keeps its limits. Two theorems, each the
//! contract of a function that does nothing.
#![tactic(auto)]

ghost use Rattle.mb_promise.specs.Bounds.{HostsKeepLimits};
ghost use Rattle.mb_promise.specs.CarriedOut.{HostsCarryOut};

/// After any events each correct host has carried out its rules, whoever else is faulty and whatever is forged: none of the eight is left.
/// A primary has ordered what waits, a backup has committed the next position, and the next batch is executed once the votes of f+1 hosts
/// for it are counted; a PREPARE that is taken is the slot of its position, and each vote counts from then on. A CHECKPOINT follows where
/// there was room for one, and a state is installed once all its parts are there. A view is left, announced, entered,
/// opened and joined as soon as it may be.
pub fn hosts_carry_out_their_rules<V>()
    ensures { HostsCarryOut V }
{}

/// After any events the log of each correct host keeps its limits and is all that the host stamped since its floor, which f+1 hosts certified.
/// The host takes no vote that is more than two intervals above the stable position, and a vote counts only above that position. So it is
/// whoever else is faulty and whatever is forged.
pub fn hosts_keep_limits<V>()
    ensures { HostsKeepLimits V }
{}
