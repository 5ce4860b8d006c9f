//! The call that `main` makes: the whole program, over any source, sink, link, spawner and disk.

ghost use Rattle.std.specs.Prelude.{◌≡◌, ℕ, ◌≤◌, length, Contains, IfSome};
ghost use Rattle.std.specs.Io.KnownBytes.{IsAtEnd};
ghost use Rattle.mb_edge.specs.Faults.{TellsFaults};
ghost use Rattle.mb_edge.specs.Pieces.{ConsumesBetween};
ghost use Rattle.mb_answer.specs.Devices.{edge};
ghost use Rattle.mb_answer.specs.Clusters.{TellsStops, AwaitsNodes, TellsBadEnds};
ghost use Rattle.mb_top.specs.Commands.{asked, Asks, IsWithin};
ghost use Rattle.mb_top.specs.Doings.{Does, DoesAtDisk, most_read, statuses};
ghost use Rattle.mb_top.specs.Ends.{Ends};
ghost use Rattle.mb_top.specs.Outcomes.{ReportsOn, TellsForged, WithSchedule, WithRecord, HoldsWhere, HoldsSoFar, HoldsBeforeForged};
ghost use Rattle.mb_top.specs.Soaks.{soak_of};
ghost use Rattle.mb_top.specs.Blames.{ConvictsRightly, TellsDisorder};
ghost use Rattle.mb_top.specs.Histories.{LearnsTheLine};
ghost use Rattle.mb_top.specs.Reruns.{Reruns};

use crate::command::{Command, command_in, path_in};
use crate::replay::replay;
use crate::soak::soak;
use mb_answer::{USAGE, USAGE_TEXT, cluster, say};
use mb_edge::{Disk, Link, Sink, Source, Spawner};
use mb_reviewing::{audit_of, learn_of};
use mb_serving::{kept_node, make_journal, node_of, retrace};
use std::alloc::Global;

/// Does what a command asks for, or tells how the program is used.
fn run<S: Source, K: Sink, L: Link, P: Spawner, D: Disk>(
    alloc: Global,
    command: Option<Command>,
    path: &str,
    source: &mut S,
    sink: &mut K,
    link: &mut L,
    spawner: &mut P,
    disk: &mut D,
) -> u8
    requires { IfSome command IsWithin }
    ensures does { Does command result (edge (S.seen source.old) (K.seen sink.old) (L.seen link.old) (P.seen spawner.old)) (edge (S.seen source.new) (K.seen sink.new) (L.seen link.new) (P.seen spawner.new)) }
    ensures at_disk { DoesAtDisk command result (S.seen source.old) (S.seen source.new) (K.seen sink.old) (K.seen sink.new) (L.seen link.old) (L.seen link.new) (D.seen disk.old) (D.seen disk.new) }
    ensures statuses { Contains (statuses command) result }
    ensures disk { TellsFaults (D.never_fails disk.old) (D.never_fails disk.new) (D.seen disk.old).faults (D.seen disk.new).faults (result ≡ 14) }
    ensures limit { ConsumesBetween 0 (most_read command) (S.seen source.old).bytes (S.seen source.new).bytes }
    ensures source { TellsFaults (S.never_fails source.old) (S.never_fails source.new) (S.seen source.old).faults (S.seen source.new).faults (result ≡ 5) }
    ensures sink { TellsFaults (K.never_fails sink.old) (K.never_fails sink.new) (K.seen sink.old).faults (K.seen sink.new).faults (result ≡ 6) }
    ensures link { TellsFaults (L.never_fails link.old) (L.never_fails link.new) (L.seen link.old).faults (L.seen link.new).faults (result ≡ 7) }
    ensures spawner { TellsFaults (P.never_fails spawner.old) (P.never_fails spawner.new) (P.seen spawner.old).faults (P.seen spawner.new).faults (result ≡ 8) }
    ensures bad_ends { TellsBadEnds (P.all_end_well spawner.old) (P.seen spawner.old).bad_ends (P.seen spawner.new).bad_ends (result ≡ 18) }
    ensures stops { L.sends_without_memory → TellsStops (S.seen source.old) (P.seen spawner.old) (P.seen spawner.new) (L.seen link.old) (L.seen link.new) }
    ensures waits { P.waits_without_memory → AwaitsNodes (S.seen source.old) (P.seen spawner.old) (P.seen spawner.new) }
{
    match command {
        Some(Command::Replay) => replay(alloc, source, sink),
        Some(Command::Soak { seed, events }) => soak(alloc, seed, events, sink),
        Some(Command::Node { host, events }) => node_of(alloc, host, events, source, sink, link),
        Some(Command::KeptNode { host, events }) => {
            kept_node(alloc, host, events, path, source, sink, link, disk)
        }
        Some(Command::Journal { host }) => make_journal(alloc, host, path, source, sink, disk),
        Some(Command::Retrace) => retrace(alloc, source, sink),
        Some(Command::Cluster { turns }) => cluster(alloc, turns, source, sink, link, spawner),
        Some(Command::Audit { host }) => audit_of(alloc, host, source, sink),
        Some(Command::Learn) => learn_of(alloc, source, sink),
        None => say(sink, USAGE_TEXT, USAGE),
    }
}

/// The whole program: what the words ask for, over a source, a sink, a link, a spawner and a disk. The answer is the exit status.
///
/// With the word `replay` it reads a schedule from the source, runs it, and writes the report to the sink. With `soak`, a seed and a number it
/// runs so many drawn events, and writes one line. With `retrace` it reads a record, takes the steps of its host again, and writes `same` and how many
/// they are, or where they first differ. With `node`, a host and a number it reads a config, serves as that host over the link for so many receives, and
/// writes its record; with the path of a journal too it goes on behind the events that the journal has, and keeps each event there before it acts on it.
/// With `journal`, a host and a path it reads a config, and makes a journal without events. With `cluster` and a number it reads a config, starts a node
/// for each host, asks them the config's operations over the link, with so many receives for each, and writes the results. With `audit` and a host's
/// number it reads a record, and writes what its host was given shows of that host. With `learn` it reads a record, and writes the history that it proves.
pub fn minbft<S: Source, K: Sink, L: Link, P: Spawner, D: Disk>(
    alloc: Global,
    words: &[String],
    source: &mut S,
    sink: &mut K,
    link: &mut L,
    spawner: &mut P,
    disk: &mut D,
) -> u8
    // What the words ask for is done with the text that the source tells, and a word that reads has read it to its end at status 0, or where a finding is told.
    // Only a node and a cluster use the link, and only a cluster the spawner.
    //
    // With the word `replay` each answer has its cause in the text or in a device. With `soak`, a seed and a number: so many events, each drawn as the world
    // stands before it, and the line that sums up the world behind them. With `retrace`: `same` comes where each entry is that of its host's own step, and
    // `differs` at the first that isn't. With `node`, a host and a number: that host of the config's system serves, for at most so many receives; its events
    // are those of what was received, none left out, the record has the entry of each, and what each sends was sent; it ends by a right STOP, at its last
    // receive, or where a device fails. With `cluster` and a number: a node of each host is started, and then each operation is asked, with at most so many
    // receives; each result that is written rests on the replies of f+1 different hosts. With `audit` and a host: the verdict is that on the host's stamps in all
    // that the record's host was given. With `learn`: the history is one that is proved by what the record's host was given, or hosts say that their states
    // differ from it. Other words are told how the program is used.
    ensures does { Does (asked words.now) result (edge (S.seen source.old) (K.seen sink.old) (L.seen link.old) (P.seen spawner.old)) (edge (S.seen source.new) (K.seen sink.new) (L.seen link.new) (P.seen spawner.new)) }
    // With the word `journal`, a host and a path: a journal of that host of the config's system is made in a file without bytes. With `node`, a host, a number
    // and the path of its journal: that host goes on where the events of the journal lead, whose entries its record begins with. Each event that follows is kept
    // in the journal before it is acted on, so that a crash at any moment leaves a journal of the acknowledged ones in their order, with the next one or without
    // it. No other word uses the disk.
    ensures at_disk { DoesAtDisk (asked words.now) result (S.seen source.old) (S.seen source.new) (K.seen sink.old) (K.seen sink.new) (L.seen link.old) (L.seen link.new) (D.seen disk.old) (D.seen disk.new) }
    // Each command has its statuses, whatever the source tells.
    ensures statuses { Contains (statuses (asked words.now)) result }
    // Where no device fails it comes to one of its ends, unless memory runs out.
    ensures ends { Ends (asked words.now) result (edge (S.seen source.old) (K.seen sink.old) (L.seen link.old) (P.seen spawner.old)) (edge (S.seen source.new) (K.seen sink.new) (L.seen link.new) (P.seen spawner.new)) }
    // At status 0 of the word `replay` the source was read to its end, its bytes are the text of a schedule, nothing stood in the way of any of its events, and
    // the report after all of them was written.
    ensures report { Asks words.now Command.Replay → result ≡ 0
        → IsAtEnd (S.seen source.new).bytes × IfSome (S.seen source.old).bytes (λ text. ReportsOn text (K.seen sink.old).bytes (K.seen sink.new).bytes) }
    // Whoever is faulty, and whatever is lost, repeated and reordered: after each event, if no two of the strings that were hashed so far share
    // a digest, views agree, correct hosts have executed beginnings of one list, accepted results are the service's there, and all the rest
    // that is promised holds.
    ensures history { Asks words.now Command.Replay → result ≡ 0 → WithSchedule (S.seen source.old).bytes (λ s. HoldsWhere (λ k. k ≤ length s.events) s) }
    // Whatever the status, also where memory runs out or the sink fails: behind events none of which something stood in the way of, the same holds.
    ensures history_so_far { Asks words.now Command.Replay → WithSchedule (S.seen source.old).bytes HoldsSoFar }
    // At status 3 the first event that something stands in the way of delivers what is forged, and it was told. Up to it the same holds.
    ensures forged { Asks words.now Command.Replay → result ≡ 3 → IfSome (S.seen source.old).bytes (λ text. TellsForged text (K.seen sink.old).bytes (K.seen sink.new).bytes) }
    ensures history_before { Asks words.now Command.Replay → result ≡ 3 → HoldsBeforeForged (S.seen source.old).bytes }
    // After each event of a soak the same holds.
    ensures soak_history { (seed n : ℕ) → Asks words.now (Command.Soak seed n) → result ≡ 0 → HoldsWhere (λ k. k ≤ n) (soak_of seed n) }
    // Where the disk tells what stands on it, a node with a journal was a run of the host behind the events that the file said, with those of what was
    // received. Whatever a crash leaves of the file, in the end or at a moment before, says the acknowledged events in their order, and behind them none but
    // the one whose append had begun: at statuses 0 and 9 all in the end, and else all but perhaps the last one. What was sent is a first part of what
    // acknowledged events send. Or nothing was sent, and the file kept its events. What follows of all runs together, `mb_restart` says, and of the host in a
    // world `nodes_are_hosts_of_worlds`.
    ensures kept_node_runs { (host n : ℕ) → Asks words.now (Command.KeptNode host n)
        → IfSome (S.seen source.old).bytes (λ text. Reruns text host result (L.seen link.old) (L.seen link.new) (D.seen disk.old) (D.seen disk.new)) }
    // Where the record says what a correct host was given in a world in which nothing was forged, however many hosts are faulty there: at status 12 of an audit
    // the host is faulty, and no host is found to have two messages at one counter.
    ensures audit_blame { (host : ℕ) → Asks words.now (Command.Audit host) → WithRecord (S.seen source.old).bytes (λ r. ConvictsRightly host result r) }
    // At status 12, whatever was forged, the text that was written tells a counter up to which the host's stamps, in all that the record's host was given, are
    // no list in order.
    ensures audit_disorder { (host : ℕ) → Asks words.now (Command.Audit host) → result ≡ 12
        → WithRecord (S.seen source.old).bytes (λ r. TellsDisorder host r (K.seen sink.old).bytes (K.seen sink.new).bytes) }
    // Where the record says what a correct host was given in a world of at most f faulty hosts, in which nothing was forged and no two of the strings share a
    // digest: each batch that is written is committed, the history that is written and that of the world are beginnings of one another, and no f+1 hosts say
    // that their states differ from it.
    ensures learn_history { Asks words.now Command.Learn → WithRecord (S.seen source.old).bytes (λ r. LearnsTheLine result r (K.seen sink.old) (K.seen sink.new)) }
    // However a cluster ends: where a node was started no more STOPs are missing than the link failed, and no more waits for the nodes that were started than
    // the spawner failed, unless a send or a wait may be refused memory.
    ensures stops { L.sends_without_memory → TellsStops (S.seen source.old) (P.seen spawner.old) (P.seen spawner.new) (L.seen link.old) (L.seen link.new) }
    ensures waits { P.waits_without_memory → AwaitsNodes (S.seen source.old) (P.seen spawner.old) (P.seen spawner.new) }
    // At most the bytes of the longest text and one more are taken from the source.
    ensures limit { ConsumesBetween 0 (most_read (asked words.now)) (S.seen source.old).bytes (S.seen source.new).bytes }
    // A device's status comes only where its count of faults rose, and never where the device is known not to fail.
    ensures source_faults { TellsFaults (S.never_fails source.old) (S.never_fails source.new) (S.seen source.old).faults (S.seen source.new).faults (result ≡ 5) }
    ensures sink_faults { TellsFaults (K.never_fails sink.old) (K.never_fails sink.new) (K.seen sink.old).faults (K.seen sink.new).faults (result ≡ 6) }
    ensures link_faults { TellsFaults (L.never_fails link.old) (L.never_fails link.new) (L.seen link.old).faults (L.seen link.new).faults (result ≡ 7) }
    ensures spawner_faults { TellsFaults (P.never_fails spawner.old) (P.never_fails spawner.new) (P.seen spawner.old).faults (P.seen spawner.new).faults (result ≡ 8) }
    ensures disk_faults { TellsFaults (D.never_fails disk.old) (D.never_fails disk.new) (D.seen disk.old).faults (D.seen disk.new).faults (result ≡ 14) }
    // Status 18 comes only where a node that was started ended with another status than 0.
    ensures bad_ends { TellsBadEnds (P.all_end_well spawner.old) (P.seen spawner.old).bad_ends (P.seen spawner.new).bad_ends (result ≡ 18) }
{
    run(
        alloc,
        command_in(words),
        path_in(words),
        source,
        sink,
        link,
        spawner,
        disk,
    )
}
