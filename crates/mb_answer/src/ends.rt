//! The client program of a cluster, by its status.

ghost use Rattle.std.specs.Prelude.{◌≡◌};
ghost use Rattle.mb_answer.specs.Clusters.{run_status};

use crate::answer::{BUDGET, CHILD_ENDED, DONE, LINK_FAULT, NO_MEMORY, SINK_FAULT, SPAWN_FAULT};
use mb_cluster::ClusterStop;

/// The status of how a run ended.
pub fn run_status(ended: Result<(), ClusterStop>) -> u8
    ensures { result ≡ run_status ended }
{
    match ended {
        Ok(()) => DONE,
        Err(ClusterStop::ChildEnded { .. }) => CHILD_ENDED,
        Err(ClusterStop::Budget { .. }) => BUDGET,
        Err(ClusterStop::LinkFault) => LINK_FAULT,
        Err(ClusterStop::SpawnFault) => SPAWN_FAULT,
        Err(ClusterStop::SinkFault) => SINK_FAULT,
        Err(ClusterStop::NoMemory) => NO_MEMORY,
    }
}
