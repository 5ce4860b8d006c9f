//! What is true of the key-value service: a theorem, the contract of a function that does nothing.

ghost use Rattle.std.specs.Prelude.{[]};
ghost use Rattle.mb_service.specs.Replicable.{IsReplicable};
ghost use Rattle.mb_kv.specs.Machine.{kv_machine};

use crate::kv::Kv;
use mb_service::services_are_replicable;

/// The keys with their values, from no keys on, can be replicated: wherever operations lead, results fit into replies, and the parts of a
/// state give that state back.
pub fn kv_is_replicable()
    ensures { IsReplicable kv_machine [] }
{
    services_are_replicable::<Kv>();
}
