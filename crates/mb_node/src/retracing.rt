//! The steps of a record, taken again.

ghost use Rattle.std.specs.Prelude.{◌≡◌, ◌<◌, ◌==◌, ◌&&◌, false, OnOk};
ghost use Rattle.mb_base.specs.Shapes.{host_count};
ghost use Rattle.mb_model.specs.Histories.{Identity, History};
ghost use Rattle.mb_steps.specs.Arises.{IsWhole};
ghost use Rattle.mb_usig.specs.Tags.{same_bytes};
ghost use Rattle.mb_core.specs.Represents.{Represents, IsAtRest};
ghost use Rattle.mb_replica.specs.Represents.{Serves};
ghost use Rattle.mb_node.specs.Retracing.{IsOf, Retraces, Compares};

use crate::entries::sent_digest;
use crate::turn::step_of;
use mb_base::{Digest, NoMemory};
use mb_core::Replica;
use mb_sched::{Entry, Record};
use mb_service::Service;
use std::alloc::Global;

/// Why a record was not retraced.
#[derive(Clone, Copy, Debug, PartialEq, Eq)]
pub enum RetraceStop {
    /// An entry, by its number from 1 on, has another count or digest than the host's own step.
    Differs {
        /// The entry's number.
        event: u64,
        /// Its digest.
        recorded: Digest,
        /// The digest of what the host's own step sends.
        found: Digest,
    },
    /// Memory ran out.
    NoMemory,
}

impl From<NoMemory> for RetraceStop {
    ghost use Rattle.mb_node.specs.declared.retracing.RetraceStop.TheVariants as stop;

    ghost from_gives = { λ _ e. e ≡ stop.NoMemory };

    fn from(_e: NoMemory) -> RetraceStop {
        RetraceStop::NoMemory
    }
}

/// Takes the steps of a record again, at a host of its settings to which nothing has happened, and gives the number of events.
///
/// `Differs` comes exactly at the first entry whose count or digest is not that of the host's own step.
pub fn retrace<V: Service + Drop>(
    alloc: Global,
    written: &Record,
    service: V,
) -> Result<u64, RetraceStop>
    requires { written.now.id < host_count written.now.config.shape }
    ensures { (me : Identity V) → Serves V.machine me → me.initial ≡ service → IsOf me written.now → Retraces me written.now.entries result }
{
    let config = &written.config;
    let mut replica = Replica::make(alloc, config.shape, written.id, &config.secret, service)?;
    let mut events = 0;
    for entry in written.entries.as_slice() {
        events += 1;
        compare(alloc, &mut replica, events, entry)?;
    }
    Ok(events)
}

/// Whether an entry has this count and this digest.
fn agrees(entry: &Entry, count: usize, digest: &Digest) -> bool
    ensures { result ≡ ((count == entry.now.count) && same_bytes digest.now entry.now.digest) }
{
    count == entry.count as usize && *digest == entry.digest
}

/// Takes the step of an entry, which has this number.
fn compare<V: Service + Drop>(
    alloc: Global,
    replica: &mut Replica<V>,
    event: u64,
    entry: &Entry,
) -> Result<(), RetraceStop>
    requires runs { replica.old.halted ≡ false }
    requires rests { IsAtRest V.machine replica.old }
    ensures compares { (me : Identity V) (d : History) → Serves V.machine me → Represents me replica.old d → IsWhole d → Compares me d event entry.now replica.new result }
    ensures runs { OnOk result (replica.new.halted ≡ false) }
    ensures rests { OnOk result (IsAtRest V.machine replica.new) }
{
    let step = step_of(alloc, replica, &entry.event)?;
    let found = sent_digest(step.sent.as_slice());
    if agrees(entry, step.sent.len(), &found) {
        return Ok(());
    }
    Err(RetraceStop::Differs {
        event,
        recorded: entry.digest,
        found,
    })
}
