//! A soak: so many drawn events in a world of three hosts, and the line that sums its report up.

ghost use Rattle.std.specs.Prelude.{◌≡◌, ℕ, ◌≤◌, false, IfOk};
ghost use Rattle.mb_base.specs.Limits.{soak_limit};
ghost use Rattle.mb_kv.specs.Pairs.{Pairs};
ghost use Rattle.mb_make.specs.Soaks.{played};
ghost use Rattle.mb_make.specs.Summary.{of_state, greatest_view, longest_log, all_accepted};
ghost use Rattle.mb_world_model.specs.World.{World as WorldState, System, nothing_happened};
ghost use Rattle.mb_world.specs.Tables.{RepresentsWorld};
ghost use Rattle.mb_world.specs.declared.seen.WorldStop.TheVariants as stop;
ghost use Rattle.mb_edge.specs.Faults.{TellsFaults};
ghost use Rattle.mb_answer.specs.Devices.{IsLow};
ghost use Rattle.mb_top.specs.Responses.{Soaks};
ghost use Rattle.mb_top.specs.Systems.{system_of, world};
ghost use Rattle.mb_top.specs.Soaks.{soak_shape, soak_of, summed_up, summary_text, soak_text};

use crate::replay::services;
use mb_answer::{DONE, Output, respond};
use mb_base::{Key, NoMemory, Shape, View};
use mb_edge::Sink;
use mb_kv::Kv;
use mb_make::Maker;
use mb_schedule::{ClientLine, HostLine, Report, WorldEvent};
use mb_world::{World, WorldStop};
use std::alloc::Global;

/// What is told of a soak.
#[derive(Clone, Copy)]
pub(crate) struct Summary {
    seed: u64,
    events: u64,
    /// How many positions the one list has.
    line: u64,
    /// How many results the clients accepted.
    accepted: u128,
    /// The greatest view of a correct host.
    views: View,
    /// The most messages that the log of a correct host ever held.
    longest: u32,
}

/// The secret of the hosts of a soak.
const SECRET: Key = [7; 32];

/// Three hosts, with checkpoints at each 16th position, and four clients.
fn soak_shape() -> Shape
    ensures { result ≡ soak_shape }
{
    match Shape::new(1, 16, 4) {
        Ok(shape) => shape,
        Err(_) => unreachable!(),
    }
}

/// The world of a soak before its first event. Host 2 is faulty.
fn soak_world(alloc: Global) -> Result<World<Kv>, NoMemory>
    ensures stands { (seed n : ℕ) → IfOk result (λ w. RepresentsWorld (system_of (soak_of seed n)) w nothing_happened) }
    ensures runs { IfOk result (λ w. w.halted ≡ false) }
    ensures none { IfOk result (λ w. w.events ≡ 0) }
    ensures shape { IfOk result (λ w. w.shape ≡ soak_shape) }
{
    let shape = soak_shape();
    World::make(
        alloc,
        shape,
        &SECRET,
        &[false, false, true],
        &[false; 4],
        services(alloc, shape.n())?,
    )
}

/// The event that is played of one that was drawn: a REPLY goes to its client.
fn played(drawn: WorldEvent, world: &World<Kv>) -> WorldEvent
    ensures { (y : System Pairs) (x : WorldState) → RepresentsWorld y world.now x → result ≡ played y.schedule x drawn }
{
    match drawn {
        WorldEvent::Give { message, host } => match world.reply_to(message) {
            Some(client) => WorldEvent::Take { message, client },
            None => WorldEvent::Give { message, host },
        },
        other => other,
    }
}

/// Want of memory, where nothing stood in the way of an event.
fn want_of_memory(found: WorldStop) -> NoMemory
    requires { found ≡ stop.NoMemory }
{
    match found {
        WorldStop::NoMemory => NoMemory,
        _ => unreachable!(),
    }
}

/// The world after so many events, drawn from a seed.
fn soaked(alloc: Global, seed: u64, events: u64) -> Result<World<Kv>, NoMemory>
    requires { events ≤ soak_limit }
    ensures { IfOk result (λ w. RepresentsWorld (system_of (soak_of seed events)) w (world (soak_of seed events) events)) }
{
    let mut world = soak_world(alloc)?;
    let mut maker = Maker::new(seed);
    for _ in 0..events {
        let drawn = maker.draw(alloc, world.pool())?;
        let event = played(drawn, &world);
        match world.world_step(alloc, &event) {
            Ok(_) => {}
            Err(stop) => return Err(want_of_memory(stop)),
        }
    }
    Ok(world)
}

// ---- the summary

/// The view of a correct host, and the most messages that its log ever held. A faulty one has neither.
fn heights_of(host: &HostLine) -> (View, u32)
    ensures view { result.0 ≡ of_state (λ s. s.view) host.now.state }
    ensures log { result.1 ≡ of_state (λ s. s.longest) host.now.state }
{
    match host.state {
        Some(state) => (state.view, state.longest),
        None => (0, 0),
    }
}

/// The greatest view of a correct host, and the most messages that the log of one ever held.
fn greatest_of(hosts: &[HostLine]) -> (View, u32)
    ensures view { result.0 ≡ greatest_view hosts.now }
    ensures log { result.1 ≡ longest_log hosts.now }
{
    let mut views = 0;
    let mut longest = 0;
    for host in hosts {
        let (view, log) = heights_of(host);
        views = view.max(views);
        longest = log.max(longest);
    }
    (views, longest)
}

/// How many results the clients accepted.
fn all_accepted(clients: &[ClientLine]) -> u128
    ensures { result ≡ all_accepted clients.now }
{
    let mut accepted = 0;
    for client in clients {
        accepted += u128::from(client.accepted);
    }
    accepted
}

/// The numbers of a soak whose world has this report.
fn summed_up(seed: u64, events: u64, report: &Report) -> Summary
    ensures { result ≡ summed_up seed events report.now }
{
    let (views, longest) = greatest_of(report.hosts.as_slice());
    Summary {
        seed,
        events,
        line: report.line.len() as u64,
        accepted: all_accepted(report.clients.as_slice()),
        views,
        longest,
    }
}

/// The answer that tells these numbers.
fn told(alloc: Global, numbers: &Summary) -> Result<Output, NoMemory>
    ensures { IfOk result (λ a. (a.status ≡ 0) × (a.text.items ≡ summary_text numbers.now)) }
{
    let Summary {
        seed,
        events,
        line,
        accepted,
        views,
        longest,
    } = *numbers;
    let text = format!(in alloc;
        "soak {seed} {events} line {line} accepted {accepted} views {views} longest {longest}\n"
    )?;
    Ok(Output {
        status: DONE,
        text: text.into_bytes(),
    })
}

/// The answer to a soak of so many events from a seed.
fn answer_soak(alloc: Global, seed: u64, events: u64) -> Result<Output, NoMemory>
    requires { events ≤ soak_limit }
    ensures { IfOk result (λ a. (a.status ≡ 0) × (a.text.items ≡ soak_text seed events)) }
{
    let world = soaked(alloc, seed, events)?;
    let report = world.report(alloc)?;
    told(alloc, &summed_up(seed, events, &report))
}

/// Runs drawn events, and writes the line that sums them up.
pub(crate) fn soak<K: Sink>(alloc: Global, seed: u64, events: u64, sink: &mut K) -> u8
    requires { events ≤ soak_limit }
    ensures told { Soaks seed events result (K.seen sink.old) (K.seen sink.new) }
    ensures low { IsLow result }
    ensures unread { ¬ (result ≡ 5) }
    ensures sink { TellsFaults (K.never_fails sink.old) (K.never_fails sink.new) (K.seen sink.old).faults (K.seen sink.new).faults (result ≡ 6) }
{
    respond(sink, answer_soak(alloc, seed, events))
}
