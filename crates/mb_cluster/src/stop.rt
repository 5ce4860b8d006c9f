//! Why a run stopped.

ghost use Rattle.std.specs.Prelude.{◌≡◌};
ghost use Rattle.mb_cluster.specs.declared.stop.ClusterStop.TheVariants as stop;
ghost use Rattle.mb_cluster.specs.Stops.{link_stop, spawn_stop};

use mb_base::{Host, NoMemory, Seq};
use mb_edge::{Failed, WriteStop};
use std::alloc::AllocError;
use thiserror::Error;

/// Why a run stopped before all was well.
#[derive(Clone, Copy, Debug, PartialEq, Eq, Error)]
pub enum ClusterStop {
    /// The link's device failed.
    #[error("the link failed")]
    LinkFault,
    /// The spawner's device failed.
    #[error("a node did not start, or its end is not known")]
    SpawnFault,
    /// The sink's device failed.
    #[error("a result was not written")]
    SinkFault,
    /// A node ended with a status other than 0. No node of a lower host did.
    #[error("the node of host {host} ended with status {status}")]
    ChildEnded {
        /// The lowest host whose node did.
        host: Host,
        /// That node's status.
        status: u8,
    },
    /// The receives for an operation brought no result.
    #[error("request {seq} has no result: {matching} replies agree")]
    Budget {
        /// The number of the operation's request.
        seq: Seq,
        /// The greatest number of counted replies to it that agree.
        matching: u8,
    },
    /// Memory ran out.
    #[error("memory ran out")]
    NoMemory,
}

impl From<NoMemory> for ClusterStop {
    ghost from_gives = { λ _ e. e ≡ stop.NoMemory };

    fn from(_e: NoMemory) -> ClusterStop {
        ClusterStop::NoMemory
    }
}

impl From<AllocError> for ClusterStop {
    ghost from_gives = { λ _ e. e ≡ stop.NoMemory };

    fn from(_e: AllocError) -> ClusterStop {
        ClusterStop::NoMemory
    }
}

impl From<WriteStop> for ClusterStop {
    ghost use Rattle.mb_cluster.specs.Stops.{sink_stop};

    ghost from_gives = { λ cause e. e ≡ sink_stop cause };

    fn from(cause: WriteStop) -> ClusterStop {
        match cause {
            WriteStop::Fault => ClusterStop::SinkFault,
            WriteStop::NoMemory => ClusterStop::NoMemory,
        }
    }
}

/// Why a run stops where a call of the link failed.
pub(crate) fn link_stop(cause: Failed) -> ClusterStop
    ensures { result ≡ link_stop cause }
{
    match cause {
        Failed::Device => ClusterStop::LinkFault,
        Failed::NoMemory => ClusterStop::NoMemory,
    }
}

/// Why a run stops where a call of the spawner failed.
pub(crate) fn spawn_stop(cause: Failed) -> ClusterStop
    ensures { result ≡ spawn_stop cause }
{
    match cause {
        Failed::Device => ClusterStop::SpawnFault,
        Failed::NoMemory => ClusterStop::NoMemory,
    }
}
