//! Keeping an event in a journal before its step.

ghost use Rattle.std.specs.Prelude.{◌≡◌, false, OnOk, IfErr, IsErrOf};
ghost use Rattle.mb_edge.specs.Faults.{TellsFaults};
ghost use Rattle.mb_journal.specs.Files.{EventFits};
ghost use Rattle.mb_node.specs.Keeping.{KeepsOne, append_stop};
ghost use Rattle.mb_node.specs.Stops.{IsOfKeeping};

use crate::stops::ServeStop;
use mb_edge::Disk;
use mb_journal::{AppendStop, Journal};
use mb_msg::Event;

/// Why a node stops where a journal that has not halted appended nothing.
fn append_stop(stop: AppendStop) -> ServeStop
    requires { ¬ (stop ≡ AppendStop.Halted) }
    ensures { result ≡ append_stop stop }
{
    match stop {
        AppendStop::Full { length } => ServeStop::Full { length },
        AppendStop::NoMemory => ServeStop::NoMemory,
        AppendStop::DiskFault => ServeStop::DiskFault,
        AppendStop::Halted => unreachable!(),
    }
}

/// Appends an event to a journal that has not halted.
pub(crate) fn keep<D: Disk>(
    journal: &mut Journal,
    disk: &mut D,
    event: &Event,
) -> Result<(), ServeStop>
    requires runs { journal.old.halted ≡ false }
    requires fits { EventFits event.now }
    ensures kept { KeepsOne journal.old journal.new (D.seen disk.old).moments (D.seen disk.new).moments event.now result }
    ensures runs { OnOk result (journal.new.halted ≡ false) }
    ensures causes { IfErr result IsOfKeeping }
    ensures disk { TellsFaults (D.never_fails disk.old) (D.never_fails disk.new) (D.seen disk.old).faults (D.seen disk.new).faults (IsErrOf result ServeStop.DiskFault) }
{
    match journal.append(disk, event) {
        Ok(()) => Ok(()),
        Err(stop) => Err(append_stop(stop)),
    }
}
