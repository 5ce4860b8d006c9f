//! What a world shows behind an event: the messages that were made, and the batches that were executed first.

ghost use Rattle.std.specs.Prelude.{◌≡◌, drop, IfOk};
ghost use Rattle.mb_world_model.specs.World.{World as WorldState, System};
ghost use Rattle.mb_world.specs.Tables.{RepresentsWorld};
ghost use Rattle.mb_story.specs.Telling.{new_message, new_messages};

use crate::telling::NewMessage;
use mb_base::{Items, NoMemory, duplicate_all};
use mb_msg::Slot;
use mb_service::Service;
use mb_world::World;
use std::alloc::Global;

/// The message of a number.
fn new_message<V: Service + Drop>(world: &World<V>, number: u64) -> NewMessage
    ensures { (y : System V) (x : WorldState) → RepresentsWorld y world.now x → result ≡ new_message y.schedule x number }
{
    NewMessage {
        number,
        client: world.reply_to(number),
    }
}

/// The messages behind the first so many.
pub(crate) fn new_messages<V: Service + Drop>(
    alloc: Global,
    world: &World<V>,
    before: u64,
) -> Result<Items<NewMessage>, NoMemory>
    ensures { (y : System V) (x : WorldState) → RepresentsWorld y world.now x → IfOk result (λ l. l ≡ new_messages y.schedule x before) }
{
    let mut messages = Items::new(alloc);
    let count = world.pool().saturating_sub(before);
    for index in 0..count {
        messages.push(new_message(world, before + index + 1))?;
    }
    Ok(messages)
}

/// The executed batches behind the first so many.
pub(crate) fn new_slots<V: Service + Drop>(
    alloc: Global,
    world: &World<V>,
    before: usize,
) -> Result<Items<Slot>, NoMemory>
    ensures { (y : System V) (x : WorldState) → RepresentsWorld y world.now x → IfOk result (λ l. l ≡ drop before x.line) }
{
    let line = world.line();
    if before > line.len() {
        return Ok(Items::new(alloc));
    }
    Ok(Items::from_vec(duplicate_all(alloc, &line[before..])?))
}
