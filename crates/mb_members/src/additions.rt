//! What a correct host's step adds to the messages that were made, and to the one list of executed batches.

ghost use Rattle.std.specs.Prelude.{◌≡◌, ◌++◌, map, fold, OnOk};
ghost use Rattle.mb_world_model.specs.World.{extended};

use mb_base::{Items, NoMemory};
use mb_msg::Slot;
use mb_replica::Outgoing;

/// Appends what a host sent, as bytes, in the order in which it was made. An error comes where memory runs out, and only there.
pub fn add_messages(pool: &mut Vec<Items<u8>>, sent: Items<Outgoing>) -> Result<(), NoMemory>
    ensures { OnOk result (pool.new.items ≡ pool.old.items ++ map (λ m. m.bytes) sent) }
{
    for message in sent.into_vec() {
        pool.push(message.bytes)?;
    }
    Ok(())
}

/// Appends what a host is the first to execute, in the order in which it was executed: a slot at the position behind the last one, which is its
/// number from 1. An error comes where memory runs out, and only there.
pub fn extend_line(line: &mut Vec<Slot>, executed: Items<Slot>) -> Result<(), NoMemory>
    ensures { OnOk result (line.new.items ≡ fold extended line.old.items executed) }
{
    for slot in executed.into_vec() {
        extend_by_one(line, slot)?;
    }
    Ok(())
}

fn extend_by_one(line: &mut Vec<Slot>, slot: Slot) -> Result<(), NoMemory>
    ensures { OnOk result (line.new.items ≡ extended line.old.items slot) }
{
    if slot.pos == line.len() as u64 + 1 {
        line.push(slot)?;
    }
    Ok(())
}
