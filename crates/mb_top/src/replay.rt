//! A whole schedule, and the answer to it.

ghost use Rattle.std.specs.Prelude.{◌≡◌, ◌+◌, [], false, replicate, Contains, IfOk, IfSome};
ghost use Rattle.std.specs.Io.KnownBytes.{IsAtEnd};
ghost use Rattle.mb_answer.specs.Devices.{IsLow};
ghost use Rattle.mb_edge.specs.Faults.{TellsFaults};
ghost use Rattle.mb_edge.specs.Pieces.{ConsumesBetween};
ghost use Rattle.mb_schedule.specs.Limits.{IsSchedule};
ghost use Rattle.mb_sched.specs.Report.{report_text};
ghost use Rattle.mb_sched.specs.Schedules.{Parses};
ghost use Rattle.mb_schedule.specs.Limits.{max_text};
ghost use Rattle.mb_world_model.specs.World.{World as WorldState, nothing_happened};
ghost use Rattle.mb_world.specs.Reports.{report_of};
ghost use Rattle.mb_world.specs.Tables.{RepresentsWorld};
ghost use Rattle.mb_top.specs.Systems.{system_of};
ghost use Rattle.mb_top.specs.Runs.{Runs, run_stop_of};
ghost use Rattle.mb_top.specs.Answers.{AnswersSchedule, Answers};
ghost use Rattle.mb_top.specs.Responses.{Replays};
ghost use Rattle.mb_top.specs.Doings.{replay_statuses};

use mb_answer::{DONE, Output, bad_line, forged, forged_tag, refusal, respond, tell_unread};
use mb_base::{Counter, Host, NoMemory};
use mb_edge::{Sink, Source, read_all};
use mb_kv::Kv;
use mb_sched::{BadText, MAX_TEXT, parse_schedule, print_report};
use mb_schedule::{Schedule, WorldEvent};
use mb_world::{World, WorldStop};
use std::alloc::{AllocError, Global};

/// How many lines stand before the events of a schedule.
const HEADER_LINES: u64 = 6;

/// Why a schedule did not run to its end.
#[derive(Clone, Copy)]
pub(crate) enum RunStop {
    /// An event is the doing of someone who is not faulty, or names a message that was not made or is of another kind.
    BadEvent {
        /// Its number, from 1.
        number: u64,
    },
    /// An event delivers a certificate that was never made.
    Forged {
        event: u64,
        host: Host,
        counter: Counter,
    },
    /// An event delivers a tag that was never made.
    ForgedTag {
        event: u64,
    },
    /// Memory ran out.
    NoMemory,
}

impl From<NoMemory> for RunStop {
    ghost use Rattle.mb_top.specs.declared.replay.RunStop.TheVariants as run_stop;

    ghost from_gives = { λ _ e. e ≡ run_stop.NoMemory };

    fn from(_e: NoMemory) -> RunStop {
        RunStop::NoMemory
    }
}

/// Why a schedule did not run to its end, by what stands in the way of the event of a number.
fn run_stop(number: u64, stop: WorldStop) -> RunStop
    ensures { result ≡ run_stop_of number stop }
{
    match stop {
        WorldStop::NotFaulty { .. }
        | WorldStop::NoSuchMessage { .. }
        | WorldStop::WrongKind { .. } => RunStop::BadEvent { number },
        WorldStop::Forged {
            event,
            host,
            counter,
        } => RunStop::Forged {
            event,
            host,
            counter,
        },
        WorldStop::ForgedTag { event } => RunStop::ForgedTag { event },
        WorldStop::NoMemory | WorldStop::Halted => RunStop::NoMemory,
    }
}

/// An empty service for each host.
pub(crate) fn services(alloc: Global, hosts: u8) -> Result<Vec<Kv>, AllocError>
    ensures { IfOk result (λ v. v.items ≡ replicate hosts []) }
{
    let mut services = Vec::new(alloc);
    for _ in 0..hosts {
        services.push(Kv::new(alloc))?;
    }
    Ok(services)
}

/// The world before the first event of a schedule.
fn world_of(alloc: Global, schedule: &Schedule) -> Result<World<Kv>, NoMemory>
    requires { IsSchedule schedule.now }
    ensures stands { IfOk result (λ w. RepresentsWorld (system_of schedule.now) w nothing_happened) }
    ensures runs { IfOk result (λ w. w.halted ≡ false) }
    ensures none { IfOk result (λ w. w.events ≡ 0) }
    ensures shape { IfOk result (λ w. w.shape ≡ schedule.now.shape) }
{
    World::make(
        alloc,
        schedule.shape,
        &schedule.secret,
        schedule.faulty_hosts.as_slice(),
        schedule.faulty_clients.as_slice(),
        services(alloc, schedule.shape.n())?,
    )
}

/// Lets an event go, and gives the room of those that are gone back, whenever half of the room for those that are left is empty.
fn let_go(event: WorldEvent, left: &mut Vec<WorldEvent>)
    ensures { left.new.items ≡ left.old.items }
{
    drop(event);
    if left.len() <= left.capacity() / 2 {
        left.shrink_to_fit();
    }
}

/// The world after all events of a schedule, or what stands in the way of the first that cannot be or delivers what is forged. An event is let go
/// once it happened: the world grows as the schedule shrinks.
fn run(alloc: Global, schedule: Schedule) -> Result<World<Kv>, RunStop>
    requires { IsSchedule schedule }
    ensures { Runs schedule result }
{
    let mut world = world_of(alloc, &schedule)?;
    let mut left = schedule.events.into_vec();
    left.reverse();
    while let Some(event) = left.pop() {
        let number = world.events() + 1;
        match world.world_step(alloc, &event) {
            Ok(_) => let_go(event, &mut left),
            Err(stop) => return Err(run_stop(number, stop)),
        }
    }
    Ok(world)
}

/// The report of a world, which is let go before the text is written.
fn report_on(alloc: Global, world: World<Kv>) -> Result<Output, NoMemory>
    ensures { (s : Schedule) (x : WorldState) → RepresentsWorld (system_of s) world x → IfOk result (λ a. (a.status ≡ 0) × (a.text.items ≡ report_text (report_of (system_of s) x))) }
{
    let report = world.report(alloc)?;
    drop(world);
    Ok(Output {
        status: DONE,
        text: print_report(alloc, &report)?,
    })
}

/// The answer to a schedule: the report after its events, or what stands in the way of the first event that is not done.
fn answer_schedule(alloc: Global, schedule: Schedule) -> Result<Output, NoMemory>
    requires { IsSchedule schedule }
    ensures { IfOk result (λ a. AnswersSchedule schedule a.status a.text.items) }
{
    match run(alloc, schedule) {
        Ok(world) => report_on(alloc, world),
        Err(RunStop::BadEvent { number }) => bad_line(alloc, number + HEADER_LINES),
        Err(
            RunStop::Forged {
                event,
                host,
                counter,
            },
        ) => forged(alloc, event, host, counter),
        Err(RunStop::ForgedTag { event }) => forged_tag(alloc, event),
        Err(RunStop::NoMemory) => Err(NoMemory),
    }
}

/// The schedule of a text. The text is let go here, before the first event happens.
fn schedule_of(alloc: Global, text: Vec<u8>) -> Result<Schedule, BadText>
    ensures { Parses result text.items }
{
    parse_schedule(alloc, &text)
}

/// The answer to the text of a schedule.
fn answer_to(alloc: Global, text: Vec<u8>) -> Result<Output, NoMemory>
    ensures { IfOk result (λ a. Answers text.items a.status a.text.items) }
{
    match schedule_of(alloc, text) {
        Ok(schedule) => answer_schedule(alloc, schedule),
        Err(fault) => refusal(alloc, fault),
    }
}

/// Reads a schedule, and writes the answer to it.
pub(crate) fn replay<S: Source, K: Sink>(alloc: Global, source: &mut S, sink: &mut K) -> u8
    ensures told { IfSome (S.seen source.old).bytes (λ text. Replays text result (S.seen source.old) (S.seen source.new)
        (K.seen sink.old) (K.seen sink.new)) }
    ensures ended { result ≡ 0 → IsAtEnd (S.seen source.new).bytes }
    ensures limit { ConsumesBetween 0 (max_text + 1) (S.seen source.old).bytes (S.seen source.new).bytes }
    ensures low { IsLow result }
    ensures statuses { Contains replay_statuses result }
    ensures source { TellsFaults (S.never_fails source.old) (S.never_fails source.new) (S.seen source.old).faults (S.seen source.new).faults (result ≡ 5) }
    ensures sink { TellsFaults (K.never_fails sink.old) (K.never_fails sink.new) (K.seen sink.old).faults (K.seen sink.new).faults (result ≡ 6) }
{
    match read_all(alloc, MAX_TEXT, source) {
        Ok(text) => respond(sink, answer_to(alloc, text)),
        Err(stop) => tell_unread(alloc, sink, stop),
    }
}
