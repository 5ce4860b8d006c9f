//! What is true of counts: a theorem, the contract of a function that does nothing.

ghost use Rattle.mb_service.specs.Replicable.{IsReplicable};
ghost use Rattle.mb_counter.specs.Machine.{count_machine};

use crate::counter::Counter;
use mb_service::services_are_replicable;

/// Counts from 0 on can be replicated: wherever operations lead, results fit into replies, and the parts of a count give that count back.
pub fn counters_are_replicable()
    ensures { IsReplicable count_machine 0 }
{
    services_are_replicable::<Counter>();
}
