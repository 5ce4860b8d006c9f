//! The steps of events that a journal kept, taken again.

ghost use Rattle.std.specs.Prelude.{◌≡◌, ◌∷◌, [], false, reverse, IfOk, OnOk};
ghost use Rattle.mb_model.specs.Histories.{Identity, History};
ghost use Rattle.mb_steps.specs.Arises.{IsWhole};
ghost use Rattle.mb_core.specs.Represents.{Represents, IsAtRest};
ghost use Rattle.mb_replica.specs.Represents.{Serves};
ghost use Rattle.mb_node.specs.Replaying.{IsReplayed};

use crate::entries::entry_of;
use crate::turn::step_of;
use mb_base::NoMemory;
use mb_core::Replica;
use mb_msg::Event;
use mb_sched::Entry;
use mb_service::Service;
use std::alloc::Global;

/// Takes the steps of events at a host, and sends nothing. The answer has the entry of each event.
pub fn replay<V: Service + Drop>(
    alloc: Global,
    replica: &mut Replica<V>,
    events: Vec<Event>,
) -> Result<Vec<Entry>, NoMemory>
    requires runs { replica.old.halted ≡ false }
    requires rests { IsAtRest V.machine replica.old }
    ensures replays { (me : Identity V) (d : History) → Serves V.machine me → Represents me replica.old d → IsWhole d
        → IfOk result (λ entries. IsReplayed me d (reverse events.items) entries.items replica.new) }
    ensures runs { OnOk result (replica.new.halted ≡ false) }
    ensures rests { OnOk result (IsAtRest V.machine replica.new) }
{
    let mut entries = Vec::with_capacity(alloc, events.len())?;
    for event in events {
        let entry = replay_one(alloc, replica, event)?;
        entries.push(entry)?;
    }
    Ok(entries)
}

/// Takes the step of one event.
fn replay_one<V: Service + Drop>(
    alloc: Global,
    replica: &mut Replica<V>,
    event: Event,
) -> Result<Entry, NoMemory>
    requires runs { replica.old.halted ≡ false }
    requires rests { IsAtRest V.machine replica.old }
    ensures replays { (me : Identity V) (d : History) → Serves V.machine me → Represents me replica.old d → IsWhole d
        → IfOk result (λ entry. IsReplayed me d (event ∷ []) (entry ∷ []) replica.new) }
    ensures runs { OnOk result (replica.new.halted ≡ false) }
    ensures rests { OnOk result (IsAtRest V.machine replica.new) }
{
    let step = step_of(alloc, replica, &event)?;
    Ok(entry_of(event, step.sent.as_slice()))
}
