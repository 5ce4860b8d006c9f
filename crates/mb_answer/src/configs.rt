//! Reading a config, and the word `cluster`: a client program that starts the nodes of a config and asks them.

ghost use Rattle.std.specs.Prelude.{◌≡◌, ◌+◌, Contains, OnOk, IfOk, IfErr, IfSome, IsErrOf};
ghost use Rattle.std.specs.Io.KnownBytes.{IsAtEnd};
ghost use Rattle.mb_edge.specs.Faults.{TellsFaults};
ghost use Rattle.mb_edge.specs.Pieces.{ConsumesBetween};
ghost use Rattle.mb_cluster.specs.Runs.{OpsFit};
ghost use Rattle.mb_sched.specs.Configs.{max_config};
ghost use Rattle.mb_answer.specs.Configs.{FindsConfig, IsLack, lack_statuses};
ghost use Rattle.mb_edge.specs.Seen.{Device};
ghost use Rattle.mb_answer.specs.Devices.{edge};
ghost use Rattle.mb_answer.specs.Clusters.{RunsWith, TellsStops, AwaitsNodes, TellsBadEnds, cluster_statuses};

use crate::answer::refusal;
use crate::ends::run_status;
use crate::saying::{respond, tell_unread};
use mb_cluster::run_cluster;
use mb_edge::{Link, Sink, Source, Spawner, read_all};
use mb_sched::{Config, MAX_CONFIG, parse_config};
use std::alloc::Global;

/// The config of a text. Where there is none, what is answered is written, and its status comes.
fn config_in<K: Sink>(alloc: Global, text: &[u8], sink: &mut K) -> Result<Config, u8>
    ensures told { (source source' : Device) → FindsConfig text.now result source source' (K.seen sink.old) (K.seen sink.new) }
    ensures ops { IfOk result (λ config. OpsFit config.ops) }
    ensures low { IfErr result IsLack }
    ensures statuses { IfErr result (Contains lack_statuses) }
    ensures unread { ¬ IsErrOf result 5 }
    ensures sink { TellsFaults (K.never_fails sink.old) (K.never_fails sink.new) (K.seen sink.old).faults (K.seen sink.new).faults (IsErrOf result 6) }
{
    match parse_config(alloc, text) {
        Ok(config) => Ok(config),
        Err(fault) => Err(respond(sink, refusal(alloc, fault))),
    }
}

/// Reads a config. Where there is none, what is answered is written, and its status comes.
pub fn config_from<S: Source, K: Sink>(
    alloc: Global,
    source: &mut S,
    sink: &mut K,
) -> Result<Config, u8>
    ensures told { IfSome (S.seen source.old).bytes (λ text. FindsConfig text result (S.seen source.old) (S.seen source.new)
        (K.seen sink.old) (K.seen sink.new)) }
    ensures ended { OnOk result (IsAtEnd (S.seen source.new).bytes) }
    ensures ops { IfOk result (λ config. OpsFit config.ops) }
    ensures limit { ConsumesBetween 0 (max_config + 1) (S.seen source.old).bytes (S.seen source.new).bytes }
    ensures low { IfErr result IsLack }
    ensures statuses { IfErr result (Contains lack_statuses) }
    ensures source { TellsFaults (S.never_fails source.old) (S.never_fails source.new) (S.seen source.old).faults (S.seen source.new).faults (IsErrOf result 5) }
    ensures sink { TellsFaults (K.never_fails sink.old) (K.never_fails sink.new) (K.seen sink.old).faults (K.seen sink.new).faults (IsErrOf result 6) }
{
    match read_all(alloc, MAX_CONFIG, source) {
        Ok(text) => config_in(alloc, &text, sink),
        Err(stop) => Err(tell_unread(alloc, sink, stop)),
    }
}

/// Reads a config, starts a node for each host of its system, and asks them its operations.
pub fn cluster<S: Source, K: Sink, L: Link, P: Spawner>(
    alloc: Global,
    turns: u64,
    source: &mut S,
    sink: &mut K,
    link: &mut L,
    spawner: &mut P,
) -> u8
    ensures told { RunsWith turns result
        (edge (S.seen source.old) (K.seen sink.old) (L.seen link.old) (P.seen spawner.old)) (edge (S.seen source.new) (K.seen sink.new) (L.seen link.new) (P.seen spawner.new)) }
    ensures statuses { Contains cluster_statuses result }
    ensures ended { result ≡ 0 → IsAtEnd (S.seen source.new).bytes }
    ensures limit { ConsumesBetween 0 (max_config + 1) (S.seen source.old).bytes (S.seen source.new).bytes }
    ensures source { TellsFaults (S.never_fails source.old) (S.never_fails source.new) (S.seen source.old).faults (S.seen source.new).faults (result ≡ 5) }
    ensures sink { TellsFaults (K.never_fails sink.old) (K.never_fails sink.new) (K.seen sink.old).faults (K.seen sink.new).faults (result ≡ 6) }
    ensures link { TellsFaults (L.never_fails link.old) (L.never_fails link.new) (L.seen link.old).faults (L.seen link.new).faults (result ≡ 7) }
    ensures spawner { TellsFaults (P.never_fails spawner.old) (P.never_fails spawner.new) (P.seen spawner.old).faults (P.seen spawner.new).faults (result ≡ 8) }
    ensures bad_ends { TellsBadEnds (P.all_end_well spawner.old) (P.seen spawner.old).bad_ends (P.seen spawner.new).bad_ends (result ≡ 18) }
    // Whatever the status is: no more STOPs are missing than the link failed, and no more waits than the spawner failed, unless a send or a wait may be refused
    // memory.
    ensures stops { L.sends_without_memory → TellsStops (S.seen source.old) (P.seen spawner.old) (P.seen spawner.new) (L.seen link.old) (L.seen link.new) }
    ensures waits { P.waits_without_memory → AwaitsNodes (S.seen source.old) (P.seen spawner.old) (P.seen spawner.new) }
{
    match config_from(alloc, source, sink) {
        Ok(config) => {
            let ended = run_cluster(alloc, &config, turns, link, spawner, sink);
            run_status(ended)
        }
        Err(status) => status,
    }
}
