//! One event of a world, and what is told of it.

ghost use Rattle.std.specs.Prelude.{◌≡◌, ◌<◌, ◌+◌, ◌-◌, ◌^◌, false, IfOk, OnOk};
ghost use Rattle.mb_schedule.specs.Limits.{EventFits};
ghost use Rattle.mb_world_model.specs.World.{World as WorldState, System};
ghost use Rattle.mb_world_model.specs.WorldSteps.{happens};
ghost use Rattle.mb_world_model.specs.Stops.{stop_of};
ghost use Rattle.mb_unforged.specs.Reached.{IsReached};
ghost use Rattle.mb_members.specs.Hosts.{IsSystem};
ghost use Rattle.mb_world.specs.Answers.{Tells, as_answer};
ghost use Rattle.mb_world.specs.Tables.{RepresentsWorld, HasWorld};
ghost use Rattle.mb_story.specs.Telling.{news_behind, Shows, IsTelling};

use crate::gathering::{new_messages, new_slots};
use crate::lines::{client_lines, host_lines, refusals};
use crate::telling::Telling;
use mb_base::NoMemory;
use mb_schedule::{Report, WorldEvent};
use mb_service::Service;
use mb_world::{Seen, World, WorldStop};
use std::alloc::Global;

/// What the report behind an event says anew, which answered this and before which so many slots were there.
fn news_behind<V: Service + Drop>(
    alloc: Global,
    world: &World<V>,
    event: &WorldEvent,
    seen: Seen,
    executed: usize,
) -> Result<Report, NoMemory>
    requires { EventFits world.now.shape event.now }
    ensures { (y : System V) (x : WorldState) → RepresentsWorld y world.now x → IfOk result (λ r. r ≡ news_behind y x executed event.now (as_answer seen)) }
{
    let line = new_slots(alloc, world, executed)?;
    let refused = refusals(alloc, world.events(), seen)?;
    let hosts = host_lines(alloc, world, event)?;
    let clients = client_lines(alloc, world, event)?;
    Ok(Report {
        events: world.events(),
        messages: world.pool(),
        line,
        refused,
        hosts,
        clients,
    })
}

/// What is told of an event that answered this, where so many messages and slots were there before it.
fn telling<V: Service + Drop>(
    alloc: Global,
    world: &World<V>,
    event: &WorldEvent,
    seen: Seen,
    made: u64,
    executed: usize,
) -> Result<Telling, NoMemory>
    requires { EventFits world.now.shape event.now }
    ensures seen { IfOk result (λ t. t.seen ≡ seen) }
    ensures shows { (y : System V) (x : WorldState) → RepresentsWorld y world.now x → IfOk result (Shows y x made executed event.now) }
{
    let messages = new_messages(alloc, world, made)?;
    let news = news_behind(alloc, world, event, seen, executed)?;
    Ok(Telling {
        seen,
        messages,
        news,
    })
}

/// One event of a world that is reached, and what is told of it. What stands in the way of the event is the error, or want of memory.
pub fn tell<V: Service + Drop>(
    alloc: Global,
    world: &mut World<V>,
    event: &WorldEvent,
) -> Result<Telling, WorldStop>
    requires fits { EventFits world.old.shape event.now }
    requires few { world.old.events < 2 ^ 64 - 1 }
    requires runs { world.old.halted ≡ false }
    requires has { HasWorld V.machine world.old }
    ensures tells { (y : System V) (x : WorldState) → IsSystem V.machine y → IsReached y x → RepresentsWorld y world.old x
        → IfOk result (IsTelling y x (happens y x event.now) event.now) }
    ensures stands { (y : System V) (x : WorldState) → IsSystem V.machine y → IsReached y x → RepresentsWorld y world.old x
        → OnOk result (RepresentsWorld y world.new (happens y x event.now)) }
    ensures stops { (y : System V) (x : WorldState) → RepresentsWorld y world.old x → Tells (stop_of y.schedule x event.now) result }
    ensures has { OnOk result (HasWorld V.machine world.new) }
    ensures runs { OnOk result (world.new.halted ≡ false) }
    ensures shape { world.new.shape ≡ world.old.shape }
    ensures counts { OnOk result (world.new.events ≡ world.old.events + 1) }
{
    let made = world.pool();
    let executed = world.line().len();
    match world.world_step(alloc, event) {
        Ok(seen) => {
            let told = telling(alloc, world, event, seen, made, executed)?;
            Ok(told)
        }
        Err(stop) => Err(stop),
    }
}
