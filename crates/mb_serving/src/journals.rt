//! The word `journal`, and the word `node` with the path of a journal: a host that keeps each event on a disk before it acts on it.

ghost use Rattle.std.specs.Prelude.{◌≡◌, ◌+◌, ◌<◌, ◌++◌, [], reverse, Contains, OnOk, IfOk, IfErr, IfSome, IsErrOf, false};
ghost use Rattle.std.specs.List.{flat_map, AllByRecursion};
ghost use Rattle.std.specs.Io.KnownBytes.{IsAtEnd, Appends};
ghost use Rattle.mb_base.specs.Shapes.{host_count};
ghost use Rattle.mb_base.specs.Spelling.{IsBytes};
ghost use Rattle.mb_edge.specs.Faults.{TellsFaults};
ghost use Rattle.mb_edge.specs.Pieces.{ConsumesBetween, AppendsPart};
ghost use Rattle.mb_kv.specs.Machine.{kv_machine};
ghost use Rattle.mb_core.specs.Represents.{IsAtRest};
ghost use Rattle.mb_node.specs.Replaying.{IsReplayed};
ghost use Rattle.mb_node.specs.Stops.{IsOfDisk};
ghost use Rattle.mb_sched.specs.Configs.{max_config};
ghost use Rattle.mb_sched.specs.Records.{record_head, entry_text, EventFits};
ghost use Rattle.mb_serving.specs.Nodes.{served_status, Begins};
ghost use Rattle.mb_serving.specs.Records.{host_of};
ghost use Rattle.mb_serving.specs.Journals.{IsMade, SparesFile, IsOpened, Makes, MakesBy, ServesKept, IsOfWriting, making_statuses, kept_node_statuses, ServesMore, Resumes, KeepsWith, KeepsServing};

use crate::node::{begin, served_status};
use mb_answer::{
    DISK_FAULT, DONE, NO_MEMORY, USAGE, USAGE_TEXT, bad_journal, config_from, journal_exists,
    respond, say,
};
use mb_base::{Host, NoMemory};
use mb_core::Replica;
use mb_edge::{Disk, Link, Sink, Source, write_all};
use mb_journal::{Journal, MakeStop, OpenStop, Opened};
use mb_kv::Kv;
use mb_msg::Event;
use mb_node::{ServeStop, replay, serve_kept};
use mb_sched::{Config, Entry, print_entry};
use std::alloc::Global;

/// The most bytes that a node's journal may have.
const JOURNAL_LIMIT: u64 = 268_435_456;

/// Makes the journal of a host in the file of a path.
fn make_in<D: Disk>(
    alloc: Global,
    config: &Config,
    host: Host,
    path: &str,
    disk: &mut D,
) -> Result<(), MakeStop>
    ensures made { IsMade config.now host result (D.seen disk.old) (D.seen disk.new) }
    ensures crash { SparesFile config.now host (D.seen disk.old) (D.seen disk.new) }
    ensures disk { TellsFaults (D.never_fails disk.old) (D.never_fails disk.new) (D.seen disk.old).faults (D.seen disk.new).faults (IsErrOf result MakeStop.DiskFault) }
{
    disk.open(path)?;
    Journal::make(alloc, disk, config, host)
}

/// Makes the journal of a host of a config's system, where it has one of this number.
fn make_as<K: Sink, D: Disk>(
    alloc: Global,
    config: &Config,
    host: u64,
    path: &str,
    sink: &mut K,
    disk: &mut D,
) -> u8
    ensures makes { Makes config.now host result (K.seen sink.old) (K.seen sink.new) (D.seen disk.old) (D.seen disk.new) }
    ensures statuses { Contains making_statuses result }
    ensures unread { ¬ (result ≡ 5) }
    ensures sink { TellsFaults (K.never_fails sink.old) (K.never_fails sink.new) (K.seen sink.old).faults (K.seen sink.new).faults (result ≡ 6) }
    ensures disk { TellsFaults (D.never_fails disk.old) (D.never_fails disk.new) (D.seen disk.old).faults (D.seen disk.new).faults (result ≡ 14) }
{
    if host >= u64::from(config.shape.n()) {
        return say(sink, USAGE_TEXT, USAGE);
    }
    match make_in(alloc, config, host as u8, path, disk) {
        Ok(()) => DONE,
        Err(MakeStop::Exists { length }) => respond(sink, journal_exists(alloc, length)),
        Err(MakeStop::DiskFault) => DISK_FAULT,
        Err(MakeStop::NoMemory) => NO_MEMORY,
    }
}

/// Reads a config, and makes the journal of a host of its system.
pub fn make_journal<S: Source, K: Sink, D: Disk>(
    alloc: Global,
    host: u64,
    path: &str,
    source: &mut S,
    sink: &mut K,
    disk: &mut D,
) -> u8
    ensures told { IfSome (S.seen source.old).bytes (λ text. MakesBy text host result (S.seen source.old) (S.seen source.new)
        (K.seen sink.old) (K.seen sink.new) (D.seen disk.old) (D.seen disk.new)) }
    ensures ended { result ≡ 0 → IsAtEnd (S.seen source.new).bytes }
    ensures limit { ConsumesBetween 0 (max_config + 1) (S.seen source.old).bytes (S.seen source.new).bytes }
    ensures statuses { Contains making_statuses result }
    ensures source { TellsFaults (S.never_fails source.old) (S.never_fails source.new) (S.seen source.old).faults (S.seen source.new).faults (result ≡ 5) }
    ensures sink { TellsFaults (K.never_fails sink.old) (K.never_fails sink.new) (K.seen sink.old).faults (K.seen sink.new).faults (result ≡ 6) }
    ensures disk { TellsFaults (D.never_fails disk.old) (D.never_fails disk.new) (D.seen disk.old).faults (D.seen disk.new).faults (result ≡ 14) }
{
    match config_from(alloc, source, sink) {
        Ok(config) => make_as(alloc, &config, host, path, sink, disk),
        Err(status) => status,
    }
}

/// Opens the journal of a host in the file of a path.
fn open_in<D: Disk>(
    alloc: Global,
    config: &Config,
    host: Host,
    path: &str,
    disk: &mut D,
) -> Result<Opened, OpenStop>
    ensures opened { IsOpened config.now host result (D.seen disk.old) (D.seen disk.new) }
    ensures runs { IfOk result (λ opened. opened.journal.halted ≡ false) }
    ensures disk { TellsFaults (D.never_fails disk.old) (D.never_fails disk.new) (D.seen disk.old).faults (D.seen disk.new).faults (IsErrOf result OpenStop.DiskFault) }
{
    disk.open(path)?;
    let opened = Journal::open(alloc, disk, config, host, JOURNAL_LIMIT)?;
    are_of_bytes(&opened.events);
    Ok(opened)
}

/// Says what the type says: of each event the bytes are below 256.
fn are_of_bytes(events: &[Event])
    ensures { AllByRecursion EventFits events.now }
{
    for event in events {
        is_of_bytes(event);
    }
}

/// Says it of one event.
fn is_of_bytes(event: &Event)
    ensures { EventFits event.now }
{
    match event {
        Event::Given(bytes) => are_bytes(bytes.as_slice()),
        Event::Patience | Event::Nudge => {}
    }
}

/// Says it of bytes.
fn are_bytes(bytes: &[u8])
    ensures { IsBytes bytes.now }
{
    let _count = bytes.len();
}

/// A host behind the events of its journal, and the entries of these.
#[derive(Drop)]
struct Replayed {
    replica: Replica<Kv>,
    entries: Vec<Entry>,
}

/// Takes the steps of a journal's events at a host of a config's system to which nothing has happened.
fn replay_kept(
    alloc: Global,
    config: &Config,
    host: Host,
    kept: Vec<Event>,
) -> Result<Replayed, NoMemory>
    requires { host < host_count config.now.shape }
    ensures stands { IfOk result (λ replayed. IsReplayed (host_of config.now host) [] (reverse kept.items) replayed.entries.items replayed.replica) }
    ensures runs { IfOk result (λ replayed. replayed.replica.halted ≡ false) }
    ensures rests { IfOk result (λ replayed. IsAtRest kv_machine replayed.replica) }
{
    let mut replica = Replica::make(alloc, config.shape, host, &config.secret, Kv::new(alloc))?;
    match replay(alloc, &mut replica, kept) {
        Ok(entries) => Ok(Replayed { replica, entries }),
        Err(NoMemory) => {
            drop(replica);
            Err(NoMemory)
        }
    }
}

/// Writes entries.
fn write_entries<K: Sink>(alloc: Global, entries: &[Entry], sink: &mut K) -> Result<(), ServeStop>
    ensures all { OnOk result (Appends (K.seen sink.old).bytes (K.seen sink.new).bytes (flat_map entry_text entries.now)) }
    ensures part { IfErr result (λ _. AppendsPart (flat_map entry_text entries.now) (K.seen sink.old).bytes (K.seen sink.new).bytes) }
    ensures sink { TellsFaults (K.never_fails sink.old) (K.never_fails sink.new) (K.seen sink.old).faults (K.seen sink.new).faults (IsErrOf result ServeStop.SinkFault) }
    ensures causes { IfErr result IsOfWriting }
{
    for entry in entries {
        let text = print_entry(alloc, entry)?;
        write_all(sink, text.as_slice())?;
    }
    Ok(())
}

/// Opens the link, and writes a record's first lines and these entries.
fn begin_behind<K: Sink, L: Link>(
    alloc: Global,
    config: &Config,
    host: Host,
    entries: &[Entry],
    sink: &mut K,
    link: &mut L,
) -> Result<(), ServeStop>
    ensures begins { Begins config.now host (record_head config.now host ++ flat_map entry_text entries.now) result (K.seen sink.old) (K.seen sink.new)
        (L.seen link.old) (L.seen link.new) }
    ensures alone { IfErr result (λ s. ¬ IsOfDisk s) }
    ensures sink { TellsFaults (K.never_fails sink.old) (K.never_fails sink.new) (K.seen sink.old).faults (K.seen sink.new).faults (IsErrOf result ServeStop.SinkFault) }
    ensures link { TellsFaults (L.never_fails link.old) (L.never_fails link.new) (L.seen link.old).faults (L.seen link.new).faults (IsErrOf result ServeStop.LinkFault) }
{
    begin(alloc, config, host, sink, link)?;
    write_entries(alloc, entries, sink)
}

/// Begins a record with the entries of a journal's events, and serves behind them. Each event is kept in the journal before its step.
fn serve_behind<K: Sink, L: Link, D: Disk>(
    alloc: Global,
    config: &Config,
    host: Host,
    events: u64,
    replica: &mut Replica<Kv>,
    entries: &[Entry],
    journal: &mut Journal,
    sink: &mut K,
    link: &mut L,
    disk: &mut D,
) -> Result<(), ServeStop>
    requires runs { replica.old.halted ≡ false }
    requires rests { IsAtRest kv_machine replica.old }
    requires keeps { journal.old.halted ≡ false }
    ensures serves { Resumes config.now host entries.now replica.old journal.old events result (K.seen sink.old) (K.seen sink.new)
        (L.seen link.old) (L.seen link.new) (D.seen disk.old) (D.seen disk.new) }
    ensures sink { TellsFaults (K.never_fails sink.old) (K.never_fails sink.new) (K.seen sink.old).faults (K.seen sink.new).faults (IsErrOf result ServeStop.SinkFault) }
    ensures link { TellsFaults (L.never_fails link.old) (L.never_fails link.new) (L.seen link.old).faults (L.seen link.new).faults (IsErrOf result ServeStop.LinkFault) }
    ensures disk { TellsFaults (D.never_fails disk.old) (D.never_fails disk.new) (D.seen disk.old).faults (D.seen disk.new).faults (IsErrOf result ServeStop.DiskFault) }
{
    begin_behind(alloc, config, host, entries, sink, link)?;
    serve_kept(alloc, replica, journal, disk, link, sink, events)
}

/// Takes the steps of the events that a journal had at a host to which nothing has happened, and then serves as that host. Each event is kept in
/// the journal before its step.
fn run_kept<K: Sink, L: Link, D: Disk>(
    alloc: Global,
    config: &Config,
    host: Host,
    events: u64,
    opened: Opened,
    sink: &mut K,
    link: &mut L,
    disk: &mut D,
) -> Result<(), ServeStop>
    requires host { host < host_count config.now.shape }
    requires runs { opened.journal.halted ≡ false }
    ensures serves { ServesMore config.now host opened.events.items opened.journal events (served_status result) (K.seen sink.old) (K.seen sink.new)
        (L.seen link.old) (L.seen link.new) (D.seen disk.old) (D.seen disk.new) }
    ensures sink { TellsFaults (K.never_fails sink.old) (K.never_fails sink.new) (K.seen sink.old).faults (K.seen sink.new).faults (IsErrOf result ServeStop.SinkFault) }
    ensures link { TellsFaults (L.never_fails link.old) (L.never_fails link.new) (L.seen link.old).faults (L.seen link.new).faults (IsErrOf result ServeStop.LinkFault) }
    ensures disk { TellsFaults (D.never_fails disk.old) (D.never_fails disk.new) (D.seen disk.old).faults (D.seen disk.new).faults (IsErrOf result ServeStop.DiskFault) }
{
    let Opened {
        mut journal,
        events: kept,
    } = opened;
    let Replayed {
        mut replica,
        entries,
    } = replay_kept(alloc, config, host, kept)?;
    let ended = serve_behind(
        alloc,
        config,
        host,
        events,
        &mut replica,
        &entries,
        &mut journal,
        sink,
        link,
        disk,
    );
    drop(replica);
    ended
}

/// Serves with a journal as a host of a config's system, where it has one of this number.
fn serve_as<K: Sink, L: Link, D: Disk>(
    alloc: Global,
    config: &Config,
    host: u64,
    events: u64,
    path: &str,
    sink: &mut K,
    link: &mut L,
    disk: &mut D,
) -> u8
    ensures serves { ServesKept config.now host events result (K.seen sink.old) (K.seen sink.new)
        (L.seen link.old) (L.seen link.new) (D.seen disk.old) (D.seen disk.new) }
    ensures statuses { Contains kept_node_statuses result }
    ensures unread { ¬ (result ≡ 5) }
    ensures sink { TellsFaults (K.never_fails sink.old) (K.never_fails sink.new) (K.seen sink.old).faults (K.seen sink.new).faults (result ≡ 6) }
    ensures link { TellsFaults (L.never_fails link.old) (L.never_fails link.new) (L.seen link.old).faults (L.seen link.new).faults (result ≡ 7) }
    ensures disk { TellsFaults (D.never_fails disk.old) (D.never_fails disk.new) (D.seen disk.old).faults (D.seen disk.new).faults (result ≡ 14) }
{
    if host >= u64::from(config.shape.n()) {
        return say(sink, USAGE_TEXT, USAGE);
    }
    let host = host as u8;
    match open_in(alloc, config, host, path, disk) {
        Ok(opened) => served_status(run_kept(
            alloc, config, host, events, opened, sink, link, disk,
        )),
        Err(OpenStop::BadJournal { at }) => respond(sink, bad_journal(alloc, at)),
        Err(OpenStop::DiskFault) => DISK_FAULT,
        Err(OpenStop::NoMemory) => NO_MEMORY,
    }
}

/// Reads a config, and serves with a journal as a host of its system.
pub fn kept_node<S: Source, K: Sink, L: Link, D: Disk>(
    alloc: Global,
    host: u64,
    events: u64,
    path: &str,
    source: &mut S,
    sink: &mut K,
    link: &mut L,
    disk: &mut D,
) -> u8
    ensures told { KeepsWith host events result (S.seen source.old) (S.seen source.new) (K.seen sink.old) (K.seen sink.new) (L.seen link.old) (L.seen link.new) (D.seen disk.old) (D.seen disk.new) }
    ensures complete { KeepsServing host result (S.seen source.old) (S.seen source.new) (K.seen sink.old) (K.seen sink.new) (L.seen link.old) (L.seen link.new) (D.seen disk.old) (D.seen disk.new) }
    ensures ended { result ≡ 0 → IsAtEnd (S.seen source.new).bytes }
    ensures limit { ConsumesBetween 0 (max_config + 1) (S.seen source.old).bytes (S.seen source.new).bytes }
    ensures statuses { Contains kept_node_statuses result }
    ensures source { TellsFaults (S.never_fails source.old) (S.never_fails source.new) (S.seen source.old).faults (S.seen source.new).faults (result ≡ 5) }
    ensures sink { TellsFaults (K.never_fails sink.old) (K.never_fails sink.new) (K.seen sink.old).faults (K.seen sink.new).faults (result ≡ 6) }
    ensures link { TellsFaults (L.never_fails link.old) (L.never_fails link.new) (L.seen link.old).faults (L.seen link.new).faults (result ≡ 7) }
    ensures disk { TellsFaults (D.never_fails disk.old) (D.never_fails disk.new) (D.seen disk.old).faults (D.seen disk.new).faults (result ≡ 14) }
{
    match config_from(alloc, source, sink) {
        Ok(config) => serve_as(alloc, &config, host, events, path, sink, link, disk),
        Err(status) => status,
    }
}
