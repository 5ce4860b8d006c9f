//! Why a node stopped.

ghost use Rattle.std.specs.Prelude.{◌≡◌};

use mb_base::NoMemory;
use mb_edge::{Failed, WriteStop};

/// Why serving ended with no STOP.
#[derive(Clone, Copy, Debug, PartialEq, Eq, thiserror::Error)]
pub enum ServeStop {
    /// The link's device failed.
    #[error("the link failed")]
    LinkFault,
    /// The sink's device failed.
    #[error("the record could not be written")]
    SinkFault,
    /// The disk's device failed.
    #[error("the disk failed")]
    DiskFault,
    /// So many receives were made, and none brought a STOP.
    #[error("{events} receives and no STOP")]
    Budget {
        /// How many receives were made.
        events: u64,
    },
    /// The journal would become longer than it may. The end of its records is told.
    #[error("the journal ends at {length} and has no room for the next event")]
    Full {
        /// Where its records end, in bytes from the beginning of the file.
        length: u64,
    },
    /// Memory ran out.
    #[error("out of memory")]
    NoMemory,
}

impl From<NoMemory> for ServeStop {
    ghost use Rattle.mb_node.specs.declared.stops.ServeStop.TheVariants as stop;

    ghost from_gives = { λ _ e. e ≡ stop.NoMemory };

    fn from(_e: NoMemory) -> ServeStop {
        ServeStop::NoMemory
    }
}

/// Of a link's call.
impl From<Failed> for ServeStop {
    ghost use Rattle.mb_node.specs.Stops.{link_stop};

    ghost from_gives = { λ failed e. e ≡ link_stop failed };

    fn from(failed: Failed) -> ServeStop {
        match failed {
            Failed::Device => ServeStop::LinkFault,
            Failed::NoMemory => ServeStop::NoMemory,
        }
    }
}

/// Of writing to a sink.
impl From<WriteStop> for ServeStop {
    ghost use Rattle.mb_node.specs.Stops.{sink_stop};

    ghost from_gives = { λ stop e. e ≡ sink_stop stop };

    fn from(stop: WriteStop) -> ServeStop {
        match stop {
            WriteStop::Fault => ServeStop::SinkFault,
            WriteStop::NoMemory => ServeStop::NoMemory,
        }
    }
}
