//! All events of a schedule, told one after the other.

ghost use Rattle.std.specs.Prelude.{◌≡◌, ◌<◌, ◌-◌, ◌^◌, ℕ, false, true, is_some, length, Some, slice_get, IfOk};
ghost use Rattle.mb_base.specs.Shapes.{host_count};
ghost use Rattle.mb_schedule.specs.declared.schedule.WorldEvent.{WorldEvent as Event};
ghost use Rattle.mb_schedule.specs.Limits.{EventFits, IsSchedule};
ghost use Rattle.mb_world_model.specs.World.{System, nothing_happened};
ghost use Rattle.mb_members.specs.Hosts.{IsSystem, AreServices};
ghost use Rattle.mb_world.specs.Answers.{as_stop};
ghost use Rattle.mb_world.specs.Tables.{RepresentsWorld, HasWorld};
ghost use Rattle.mb_story.specs.declared.story.End.TheVariants.{Stopped};
ghost use Rattle.mb_story.specs.Stories.{HasSystem, IsStory};

use crate::events::tell;
use crate::telling::Telling;
use mb_base::{Items, NoMemory};
use mb_schedule::{Report, Schedule, WorldEvent};
use mb_service::Service;
use mb_world::{World, WorldStop};
use std::alloc::Global;

/// How a story ends.
#[derive(Drop)]
pub enum End {
    /// All events happened, and this is the report behind them.
    Whole(Report),
    /// This stands in the way of the next event.
    Stopped(WorldStop),
}

/// The events of a schedule, up to the first that something stands in the way of.
#[derive(Drop)]
pub struct Story {
    /// What is told of each event that happened.
    pub told: Items<Telling>,
    pub end: End,
}

/// The story that ends before an event, by what stands in its way. Want of memory is nothing that stands there.
fn story_before(told: Items<Telling>, stop: WorldStop) -> Result<Story, NoMemory>
    ensures { IfOk result (λ s. (s.told ≡ told) × (s.end ≡ Stopped stop) × (is_some (as_stop stop) ≡ true)) }
{
    match stop {
        WorldStop::NoMemory | WorldStop::Halted => Err(NoMemory),
        WorldStop::NotFaulty { .. }
        | WorldStop::NoSuchMessage { .. }
        | WorldStop::WrongKind { .. }
        | WorldStop::Forged { .. }
        | WorldStop::ForgedTag { .. } => Ok(Story {
            told,
            end: End::Stopped(stop),
        }),
    }
}

/// The story of events in a world to which nothing has happened yet.
fn story_in<V: Service + Drop>(
    alloc: Global,
    world: &mut World<V>,
    events: &[WorldEvent],
) -> Result<Story, NoMemory>
    requires fits { (k : ℕ) (e : Event) → slice_get events.now k ≡ Some e → EventFits world.old.shape e }
    requires few { length events.now < 2 ^ 64 - 1 }
    requires none { world.old.events ≡ 0 }
    requires runs { world.old.halted ≡ false }
    requires has { HasWorld V.machine world.old }
    ensures { (y : System V) → IsSystem V.machine y → y.schedule.events ≡ events.now → RepresentsWorld y world.old nothing_happened
        → IfOk result (IsStory y) }
{
    let mut told = Items::new(alloc);
    for event in events {
        match tell(alloc, world, event) {
            Ok(one) => told.push(one)?,
            Err(stop) => return story_before(told, stop),
        }
    }
    let report = world.report(alloc)?;
    Ok(Story {
        told,
        end: End::Whole(report),
    })
}

/// Plays a schedule among hosts with these services, one for each host and all in the same state, and tells it.
pub fn play<V: Service + Drop>(
    alloc: Global,
    schedule: &Schedule,
    services: Vec<V>,
) -> Result<Story, NoMemory>
    requires fits { IsSchedule schedule.now }
    requires services { length services.items ≡ host_count schedule.now.shape }
    requires system { HasSystem V.machine schedule.now services.items }
    ensures { (y : System V) → IsSystem V.machine y → y.schedule ≡ schedule.now → AreServices y.initial services.items
        → IfOk result (IsStory y) }
{
    let mut world = World::make(
        alloc,
        schedule.shape,
        &schedule.secret,
        schedule.faulty_hosts.as_slice(),
        schedule.faulty_clients.as_slice(),
        services,
    )?;
    let story = story_in(alloc, &mut world, schedule.events.as_slice());
    drop(world);
    story
}
