//! The lines of a report on one event: its refusal, and where the one to whom it came stands.

ghost use Rattle.std.specs.Prelude.{◌≡◌, ◌<◌, ◌∷◌, [], IfOk};
ghost use Rattle.std.specs.Option.{option_to_list};
ghost use Rattle.mb_base.specs.Shapes.{host_count};
ghost use Rattle.mb_schedule.specs.Limits.{EventFits};
ghost use Rattle.mb_world_model.specs.Refusals.{refusal_in};
ghost use Rattle.mb_world_model.specs.World.{World as WorldState, System};
ghost use Rattle.mb_members.specs.Lines.{host_line};
ghost use Rattle.mb_world.specs.Answers.{as_answer};
ghost use Rattle.mb_world.specs.Tables.{RepresentsWorld};
ghost use Rattle.mb_story.specs.Telling.{host_lines, client_lines};

use crate::arrivals::{client_of, host_of};
use mb_base::{Host, Items, NoMemory};
use mb_members::{client_line, state_of};
use mb_schedule::{ClientLine, HostLine, RefusedLine, WorldEvent};
use mb_service::Service;
use mb_world::{Seen, World, refusal};
use std::alloc::Global;

/// A list of one.
fn one<T: Drop>(alloc: Global, item: T) -> Result<Items<T>, NoMemory>
    ensures { IfOk result (λ l. l ≡ item ∷ []) }
{
    let mut list = Items::new(alloc);
    list.push(item)?;
    Ok(list)
}

/// The lines of the event of a number that answered this: one where it was refused.
pub(crate) fn refusals(
    alloc: Global,
    event: u64,
    seen: Seen,
) -> Result<Items<RefusedLine>, NoMemory>
    ensures { IfOk result (λ l. l ≡ option_to_list (refusal_in event (as_answer seen))) }
{
    match refusal(alloc, event, seen)? {
        Some(line) => one(alloc, line),
        None => Ok(Items::new(alloc)),
    }
}

/// The line of a host.
fn host_line<V: Service + Drop>(world: &World<V>, host: Host) -> HostLine
    requires { host < host_count world.now.shape }
    ensures { (y : System V) (x : WorldState) → RepresentsWorld y world.now x → result ≡ host_line y x host }
{
    match world.host(host) {
        Some(replica) => HostLine {
            host,
            state: Some(state_of(replica)),
        },
        None => HostLine { host, state: None },
    }
}

/// The line of the host to which an event comes.
pub(crate) fn host_lines<V: Service + Drop>(
    alloc: Global,
    world: &World<V>,
    event: &WorldEvent,
) -> Result<Items<HostLine>, NoMemory>
    requires { EventFits world.now.shape event.now }
    ensures { (y : System V) (x : WorldState) → RepresentsWorld y world.now x → IfOk result (λ l. l ≡ host_lines y x event.now) }
{
    match host_of(event) {
        Some(host) => one(alloc, host_line(world, host)),
        None => Ok(Items::new(alloc)),
    }
}

/// The line of the client to which an event comes, or who asks in it.
pub(crate) fn client_lines<V: Service + Drop>(
    alloc: Global,
    world: &World<V>,
    event: &WorldEvent,
) -> Result<Items<ClientLine>, NoMemory>
    requires { EventFits world.now.shape event.now }
    ensures { (y : System V) (x : WorldState) → RepresentsWorld y world.now x → IfOk result (λ l. l ≡ client_lines x event.now) }
{
    match client_of(event) {
        Some(client) => one(alloc, client_line(alloc, client, world.client(client))?),
        None => Ok(Items::new(alloc)),
    }
}
