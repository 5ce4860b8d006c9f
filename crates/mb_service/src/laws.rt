//! What is true of every service: theorems, the contracts of functions that do nothing.

ghost use Rattle.std.specs.Prelude.{◌≡◌};
ghost use Rattle.mb_base.specs.Limits.{text_limit, service_parts, part_limit};
ghost use Rattle.mb_service.specs.Replicable.{IsReplicable};

use crate::service::{MAX_PART, MAX_RESULT, PARTS, Service};

/// The constants of the trait are the limits that the definitions cite.
pub fn service_limits_are_those_defined()
    ensures parts { PARTS ≡ service_parts }
    ensures results { MAX_RESULT ≡ text_limit }
    ensures part { MAX_PART ≡ part_limit }
{}

/// Every service can be replicated from each of its states on: wherever operations lead from there, results fit into replies, and the
/// parts of a state give that state back.
pub fn services_are_replicable<V: Service>()
    ensures { (s : V) → V.machine.is_state s → IsReplicable V.machine s }
{}
