//! The serving loop.

ghost use Rattle.std.specs.Prelude.{◌≡◌, ◌≤◌, false, IfErr, IsErrOf, OnOk};
ghost use Rattle.mb_core.specs.Represents.{IsAtRest};
ghost use Rattle.mb_edge.specs.Faults.{TellsFaults};
ghost use Rattle.mb_node.specs.Serving.{ServesOver};
ghost use Rattle.mb_node.specs.Keeping.{ServesAndKeeps};
ghost use Rattle.mb_node.specs.Stops.{IsOfDisk};

use crate::node::Node;
use crate::stops::ServeStop;
use mb_core::Replica;
use mb_edge::{Disk, Link, Sink};
use mb_journal::Journal;
use mb_service::Service;
use std::alloc::Global;

/// Serves as a host: at most so many receives, until a STOP with a right tag. The host has not run out of memory.
///
/// Each whole message is an event, and so is each quiet. A host that waits for something loses patience at the eighth quiet since it began to wait, executed
/// something, lost patience or opened its view; one that was only asked again for what it had executed at the fortieth; and twice as late for each view by
/// which it is ahead of the last one that it saw work. Every other quiet is a nudge. After each step the record's two lines are written to `out`, behind those of a right STOP also `end`, and then the messages are sent, the pieces of each under one number, from 0 on. `Ok` comes
/// exactly at a right STOP; `Budget` where that many receives were made and none brought one; `LinkFault` and `SinkFault` only where that count
/// of faults rose. `DiskFault` and `Full` never come.
pub fn serve<V: Service + Drop, K: Sink, L: Link>(
    alloc: Global,
    replica: &mut Replica<V>,
    link: &mut L,
    out: &mut K,
    events: u64,
) -> Result<(), ServeStop>
    requires runs { replica.old.halted ≡ false }
    requires rests { IsAtRest V.machine replica.old }
    ensures serves { ServesOver V.machine replica.old replica.new events (L.seen link.old) (L.seen link.new) (K.seen out.old) (K.seen out.new) result }
    ensures alone { IfErr result (λ s. ¬ IsOfDisk s) }
    ensures rests { replica.new.halted ≡ false → IsAtRest V.machine replica.new }
    ensures opens { (L.seen link.new).opens ≡ (L.seen link.old).opens }
    ensures link { TellsFaults (L.never_fails link.old) (L.never_fails link.new) (L.seen link.old).faults (L.seen link.new).faults (IsErrOf result ServeStop.LinkFault) }
    ensures sink { TellsFaults (K.never_fails out.old) (K.never_fails out.new) (K.seen out.old).faults (K.seen out.new).faults (IsErrOf result ServeStop.SinkFault) }
{
    let mut node = Node::make(alloc, replica.shape(), replica.host(), replica.at().view)?;
    for _ in 0..events {
        if node.round(alloc, replica, link, out)? {
            return Ok(());
        }
    }
    Err(ServeStop::Budget { events })
}

/// Serves as `serve` does, and keeps each event in a journal before its step. The journal has not halted.
///
/// Where the journal is at rest on the disk before, a crash at any moment leaves a file that says each event that was acknowledged until then, in the order
/// in which they came; one in whose append the crash fell is there as a whole or not. What was written and sent is that of acknowledged events, and an event
/// that was not kept was not stepped. `DiskFault` comes only where the disk's count of faults rose, and `Full` where the journal has no room for an event.
pub fn serve_kept<V: Service + Drop, K: Sink, L: Link, D: Disk>(
    alloc: Global,
    replica: &mut Replica<V>,
    journal: &mut Journal,
    disk: &mut D,
    link: &mut L,
    out: &mut K,
    receives: u64,
) -> Result<(), ServeStop>
    requires runs { replica.old.halted ≡ false }
    requires rests { IsAtRest V.machine replica.old }
    requires keeps { journal.old.halted ≡ false }
    ensures serves { ServesAndKeeps V.machine replica.old replica.new journal.old journal.new receives (D.seen disk.old) (D.seen disk.new) (L.seen link.old) (L.seen link.new) (K.seen out.old) (K.seen out.new) result }
    ensures rests { replica.new.halted ≡ false → IsAtRest V.machine replica.new }
    ensures opens { (L.seen link.new).opens ≡ (L.seen link.old).opens }
    ensures link { TellsFaults (L.never_fails link.old) (L.never_fails link.new) (L.seen link.old).faults (L.seen link.new).faults (IsErrOf result ServeStop.LinkFault) }
    ensures sink { TellsFaults (K.never_fails out.old) (K.never_fails out.new) (K.seen out.old).faults (K.seen out.new).faults (IsErrOf result ServeStop.SinkFault) }
    ensures disk { TellsFaults (D.never_fails disk.old) (D.never_fails disk.new) (D.seen disk.old).faults (D.seen disk.new).faults (IsErrOf result ServeStop.DiskFault) }
{
    let mut node = Node::make(alloc, replica.shape(), replica.host(), replica.at().view)?;
    for _ in 0..receives {
        if node.kept_round(alloc, replica, journal, disk, link, out)? {
            return Ok(());
        }
    }
    Err(ServeStop::Budget { events: receives })
}
