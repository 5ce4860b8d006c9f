//! The whole program over what the system has: standard input and standard output, sockets of this machine, programs that it starts, and a file.
#![tactic(auto)]

ghost use Rattle.std.specs.Prelude.{◌≡◌, ℕ, ◌≤◌, length, Contains, IfSome};
ghost use Rattle.std.specs.Io.KnownBytes.{IsAtEnd};
ghost use Rattle.mb_edge.specs.Faults.{TellsFaults};
ghost use Rattle.mb_edge.specs.Pieces.{ConsumesBetween};
ghost use Rattle.mb_top.specs.declared.command.Command.TheVariants as command;
ghost use Rattle.mb_top.specs.Commands.{asked, Asks};
ghost use Rattle.mb_top.specs.Doings.{most_read, statuses};
ghost use Rattle.mb_top.specs.Outcomes.{ReportsOn, TellsForged, WithSchedule, WithRecord, HoldsWhere, HoldsSoFar, HoldsBeforeForged};
ghost use Rattle.mb_top.specs.Soaks.{soak_of};
ghost use Rattle.mb_top.specs.Blames.{ConvictsRightly, TellsDisorder};
ghost use Rattle.mb_top.specs.Histories.{LearnsTheLine};
ghost use Rattle.mb_program.specs.Obeying.{Obeys};

use mb_answer::{NO_MEMORY, USAGE};
use mb_edge::{Sink, Source};
use mb_os::{ChildSpawner, FileDisk, StdSink, StdSource, UdpLink, own_path, starter_of, words_of};
use mb_top::{beyond_limits, is_command, minbft};
use std::io::ErrorKind;
use std::process;
use std::process::ExitCode;

/// What the nodes of the largest cluster record.
const RECORDS: [&str; 7] = [
    "node-0.record",
    "node-1.record",
    "node-2.record",
    "node-3.record",
    "node-4.record",
    "node-5.record",
    "node-6.record",
];

/// Does what the words ask for, and answers the status. It reads from the source and writes to the sink. Nodes are started by the program's own path, and
/// only where none of their records is there yet; one that was started so ends with the program that started it.
///
/// Those clauses of `minbft` of `mb_top` that name words, source and sink alone hold here too.
pub fn obey<S: Source, K: Sink>(
    rt: &HostRuntime,
    words: &[String],
    source: &mut S,
    sink: &mut K,
) -> u8
    // Where the words ask for what needs source and sink alone, or for nothing: that is done, and where neither fails it comes to one of its ends, unless memory
    // runs out. Of a node and a cluster so it is with some link and some spawner, which may have failed. Of the disk nothing is said.
    ensures obeys { Obeys (asked words.now) result (S.seen source.old) (S.seen source.new) (K.seen sink.old) (K.seen sink.new) }
    // Each command has its statuses.
    ensures statuses { Contains (statuses (asked words.now)) result }
    // At status 0 of the word `replay` the report behind all events of the schedule was written.
    ensures report { Asks words.now command.Replay → result ≡ 0
        → IsAtEnd (S.seen source.new).bytes × IfSome (S.seen source.old).bytes (λ text. ReportsOn text (K.seen sink.old).bytes (K.seen sink.new).bytes) }
    // Whichever hosts are faulty, at most f, and where no two of the strings that were hashed so far share a digest: all that is promised holds behind each
    // event of a schedule at status 0; behind events none of which something stood in the way of, whatever the status; at status 3 before the first event that
    // delivers what is forged, which was told; and behind each event of a soak at status 0.
    ensures history { Asks words.now command.Replay → result ≡ 0 → WithSchedule (S.seen source.old).bytes (λ s. HoldsWhere (λ k. k ≤ length s.events) s) }
    ensures history_so_far { Asks words.now command.Replay → WithSchedule (S.seen source.old).bytes HoldsSoFar }
    ensures forged { Asks words.now command.Replay → result ≡ 3 → IfSome (S.seen source.old).bytes (λ text. TellsForged text (K.seen sink.old).bytes (K.seen sink.new).bytes) }
    ensures history_before { Asks words.now command.Replay → result ≡ 3 → HoldsBeforeForged (S.seen source.old).bytes }
    ensures soak_history { (seed n : ℕ) → Asks words.now (command.Soak seed n) → result ≡ 0 → HoldsWhere (λ k. k ≤ n) (soak_of seed n) }
    // Where the record says what a correct host was given in a world in which nothing was forged: an audit convicts faulty hosts alone, and with at
    // most f of them and no two strings of one digest, what is learnt is the world's one history. Whatever was forged, the stamps of a host that an audit
    // convicts are no list in order, up to a counter that is told.
    ensures audit_blame { (host : ℕ) → Asks words.now (command.Audit host) → WithRecord (S.seen source.old).bytes (λ r. ConvictsRightly host result r) }
    ensures audit_disorder { (host : ℕ) → Asks words.now (command.Audit host) → result ≡ 12
        → WithRecord (S.seen source.old).bytes (λ r. TellsDisorder host r (K.seen sink.old).bytes (K.seen sink.new).bytes) }
    ensures learn_history { Asks words.now command.Learn → WithRecord (S.seen source.old).bytes (λ r. LearnsTheLine result r (K.seen sink.old) (K.seen sink.new)) }
    // At most the bytes of the longest text and one more are taken from the source.
    ensures limit { ConsumesBetween 0 (most_read (asked words.now)) (S.seen source.old).bytes (S.seen source.new).bytes }
    // The status of the source or of the sink comes only where its count of faults rose, and never where it is known not to fail.
    ensures source_faults { TellsFaults (S.never_fails source.old) (S.never_fails source.new) (S.seen source.old).faults (S.seen source.new).faults (result ≡ 5) }
    ensures sink_faults { TellsFaults (K.never_fails sink.old) (K.never_fails sink.new) (K.seen sink.old).faults (K.seen sink.new).faults (result ≡ 6) }
{
    let mut link = UdpLink::new(rt, rt.process(), starter_of(rt));
    let own = process::id(rt.process());
    let records = RECORDS;
    let mut spawner = ChildSpawner::new(rt, rt.alloc(), own_path(rt), own, &records);
    let mut disk = FileDisk::new(rt);
    minbft(
        rt.alloc(),
        words,
        source,
        sink,
        &mut link,
        &mut spawner,
        &mut disk,
    )
}

/// Why words may get the usage line, as far as they tell. None where they begin like no command.
fn reason_in(words: &[String]) -> Option<&'static str> {
    if is_command(words) {
        return Some("the system has no host of this number");
    }
    beyond_limits(words)
}

/// Does what the program's own words ask for, and ends with the status that is answered. Behind the usage line standard error tells why, where the words do.
pub fn run(rt: &HostRuntime) -> ExitCode {
    let mut source = StdSource::new(rt, rt.stdin());
    let mut sink = StdSink::new(rt, rt.stdout());
    let (words, reason) = match words_of(rt) {
        Ok(words) => {
            let reason = reason_in(&words);
            (words, reason)
        }
        Err(error) if error.kind() == ErrorKind::OutOfMemory => return ExitCode::from(NO_MEMORY),
        // A word that isn't UTF-8 belongs to no command.
        Err(_) => (Vec::new(rt.alloc()), Some("a word is not UTF-8")),
    };
    let status = obey(rt, &words, &mut source, &mut sink);
    if let (USAGE, Some(reason)) = (status, reason) {
        let _ = eprintln!(rt; "minbft: {reason}");
    }
    ExitCode::from(status)
}
