//! The word `node`: a host of a config's system that serves over a link, and the record of what it does.

ghost use Rattle.std.specs.Prelude.{◌≡◌, ◌+◌, ◌<◌, Contains, IfErr, IfSome, IsErrOf};
ghost use Rattle.std.specs.Io.KnownBytes.{IsAtEnd};
ghost use Rattle.mb_base.specs.Shapes.{host_count};
ghost use Rattle.mb_edge.specs.Faults.{TellsFaults};
ghost use Rattle.mb_edge.specs.Pieces.{ConsumesBetween};
ghost use Rattle.mb_sched.specs.Configs.{max_config};
ghost use Rattle.mb_sched.specs.Records.{record_head};
ghost use Rattle.mb_node.specs.Stops.{IsOfDisk};
ghost use Rattle.mb_serving.specs.Nodes.{served_status, Begins, Serves, HostServes, Nodes, IsNodeStatus, serving_statuses, node_statuses};

use mb_answer::{
    BUDGET, DISK_FAULT, DONE, JOURNAL_FULL, LINK_FAULT, NO_MEMORY, SINK_FAULT, USAGE, USAGE_TEXT,
    config_from, say,
};
use mb_base::Host;
use mb_core::Replica;
use mb_edge::{Link, Sink, Source, write_all};
use mb_kv::Kv;
use mb_node::{ServeStop, serve};
use mb_sched::{Config, print_record_head};
use std::alloc::Global;

/// The status of how serving ended.
pub(crate) fn served_status(ended: Result<(), ServeStop>) -> u8
    ensures { result ≡ served_status ended }
{
    match ended {
        Ok(()) => DONE,
        Err(ServeStop::Budget { .. }) => BUDGET,
        Err(ServeStop::LinkFault) => LINK_FAULT,
        Err(ServeStop::SinkFault) => SINK_FAULT,
        Err(ServeStop::DiskFault) => DISK_FAULT,
        Err(ServeStop::Full { .. }) => JOURNAL_FULL,
        Err(ServeStop::NoMemory) => NO_MEMORY,
    }
}

/// Opens the link, and writes what a record begins with.
pub(crate) fn begin<K: Sink, L: Link>(
    alloc: Global,
    config: &Config,
    host: Host,
    sink: &mut K,
    link: &mut L,
) -> Result<(), ServeStop>
    ensures begins { Begins config.now host (record_head config.now host) result (K.seen sink.old) (K.seen sink.new)
        (L.seen link.old) (L.seen link.new) }
    ensures alone { IfErr result (λ s. ¬ IsOfDisk s) }
    ensures sink { TellsFaults (K.never_fails sink.old) (K.never_fails sink.new) (K.seen sink.old).faults (K.seen sink.new).faults (IsErrOf result ServeStop.SinkFault) }
    ensures link { TellsFaults (L.never_fails link.old) (L.never_fails link.new) (L.seen link.old).faults (L.seen link.new).faults (IsErrOf result ServeStop.LinkFault) }
{
    let head = print_record_head(alloc, config, host)?;
    link.open(config.port, host)?;
    write_all(sink, &head)?;
    Ok(())
}

/// Serves as a host to which nothing has happened, behind what a record begins with.
fn run_node<K: Sink, L: Link>(
    alloc: Global,
    config: &Config,
    host: Host,
    events: u64,
    sink: &mut K,
    link: &mut L,
) -> Result<(), ServeStop>
    requires { host < host_count config.now.shape }
    ensures serves { Serves config.now host events (served_status result) (K.seen sink.old) (K.seen sink.new)
        (L.seen link.old) (L.seen link.new) }
    ensures alone { IfErr result (λ s. ¬ IsOfDisk s) }
    ensures sink { TellsFaults (K.never_fails sink.old) (K.never_fails sink.new) (K.seen sink.old).faults (K.seen sink.new).faults (IsErrOf result ServeStop.SinkFault) }
    ensures link { TellsFaults (L.never_fails link.old) (L.never_fails link.new) (L.seen link.old).faults (L.seen link.new).faults (IsErrOf result ServeStop.LinkFault) }
{
    let mut replica = Replica::make(alloc, config.shape, host, &config.secret, Kv::new(alloc))?;
    begin(alloc, config, host, sink, link)?;
    serve(alloc, &mut replica, link, sink, events)
}

/// Serves as a host of a config's system, where it has one of this number.
fn serve_as<K: Sink, L: Link>(
    alloc: Global,
    config: &Config,
    host: u64,
    events: u64,
    sink: &mut K,
    link: &mut L,
) -> u8
    ensures serves { HostServes config.now host events result (K.seen sink.old) (K.seen sink.new)
        (L.seen link.old) (L.seen link.new) }
    ensures known { IsNodeStatus result }
    ensures statuses { Contains serving_statuses result }
    ensures sink { TellsFaults (K.never_fails sink.old) (K.never_fails sink.new) (K.seen sink.old).faults (K.seen sink.new).faults (result ≡ 6) }
    ensures link { TellsFaults (L.never_fails link.old) (L.never_fails link.new) (L.seen link.old).faults (L.seen link.new).faults (result ≡ 7) }
{
    if host >= u64::from(config.shape.n()) {
        return say(sink, USAGE_TEXT, USAGE);
    }
    served_status(run_node(alloc, config, host as u8, events, sink, link))
}

/// Reads a config, and serves as a host of its system.
pub fn node<S: Source, K: Sink, L: Link>(
    alloc: Global,
    host: u64,
    events: u64,
    source: &mut S,
    sink: &mut K,
    link: &mut L,
) -> u8
    ensures told { IfSome (S.seen source.old).bytes (λ text. Nodes text host events result (S.seen source.old) (S.seen source.new)
        (K.seen sink.old) (K.seen sink.new)
        (L.seen link.old) (L.seen link.new)) }
    ensures ended { result ≡ 0 → IsAtEnd (S.seen source.new).bytes }
    ensures limit { ConsumesBetween 0 (max_config + 1) (S.seen source.old).bytes (S.seen source.new).bytes }
    ensures known { ¬ (result ≡ 8) × ¬ (result ≡ 18) }
    ensures statuses { Contains node_statuses result }
    ensures source { TellsFaults (S.never_fails source.old) (S.never_fails source.new) (S.seen source.old).faults (S.seen source.new).faults (result ≡ 5) }
    ensures sink { TellsFaults (K.never_fails sink.old) (K.never_fails sink.new) (K.seen sink.old).faults (K.seen sink.new).faults (result ≡ 6) }
    ensures link { TellsFaults (L.never_fails link.old) (L.never_fails link.new) (L.seen link.old).faults (L.seen link.new).faults (result ≡ 7) }
{
    match config_from(alloc, source, sink) {
        Ok(config) => serve_as(alloc, &config, host, events, sink, link),
        Err(status) => status,
    }
}
