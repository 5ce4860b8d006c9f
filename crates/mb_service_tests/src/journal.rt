//! Tests of the journal: what is acknowledged is found again, and a file has room for an event or not.

ghost use Rattle.mb_journal.specs.Files.{EventFits};

use mb_base::{Items, Shape};
use mb_edge::{Disk, MemoryDisk};
use mb_journal::{AppendStop, Journal, MakeStop, OpenStop};
use mb_msg::Event;
use mb_sched::Config;
use std::alloc::Global;
use std::process::Abort;

fn config(rt: &impl Abort, alloc: Global) -> Config {
    Config {
        shape: Shape::new(1, 4, 1).expect(rt, "1, 4 and 1 are a shape"),
        secret: [0; 32],
        port: 40_000,
        ops: Items::new(alloc),
    }
}

/// A disk with these bytes on which the calls of these numbers fail.
fn disk(rt: &impl Abort, alloc: Global, bytes: &[u8], failing: &[u64]) -> MemoryDisk {
    let bytes = bytes.to_vec(alloc).expect(rt, "memory");
    let failing = failing.to_vec(alloc).expect(rt, "memory");
    MemoryDisk::new(alloc, bytes, failing).expect(rt, "memory")
}

/// A disk with a journal of host 0 that was made just now.
fn made(rt: &impl Abort, alloc: Global, config: &Config) -> MemoryDisk {
    let mut made = disk(rt, alloc, &[], &[]);
    Journal::make(alloc, &mut made, config, 0).expect(rt, "a journal");
    made
}

/// The event that these bytes came.
fn given(rt: &impl Abort, alloc: Global, bytes: &[u8]) -> Event
    ensures { EventFits result }
{
    assert!(rt; bytes.len() >= 1 && bytes.len() < 9);
    Event::Given(Items::from_vec(bytes.to_vec(alloc).expect(rt, "memory")))
}

/// The three events of the tests.
fn event(rt: &impl Abort, alloc: Global, number: usize) -> Event
    ensures { EventFits result }
{
    match number {
        0 => given(rt, alloc, &[7, 8, 9]),
        1 => Event::Patience,
        _ => Event::Nudge,
    }
}

/// What one append to the journal of a disk answers under a limit.
fn appended(
    rt: &impl Abort,
    alloc: Global,
    config: &Config,
    disk: &mut MemoryDisk,
    limit: u64,
) -> Result<(), AppendStop> {
    let opened = Journal::open(alloc, disk, config, 0, limit);
    let mut journal = opened.expect(rt, "a journal").journal;
    journal.append(disk, &Event::Patience)
}

#[test]
fn a_record_fits_the_limit_or_is_refused(rt: HostRuntime) {
    let alloc = rt.alloc();
    let config = config(&rt, alloc);
    let mut disk = made(&rt, alloc, &config);
    assert!(rt; disk.len() == Ok(45));
    let full = Err(AppendStop::Full { length: 45 });
    for (limit, answer, length) in [(50, full, 45), (51, Ok(()), 51)] {
        let appended = appended(&rt, alloc, &config, &mut disk, limit);
        assert!(rt; (appended, disk.len()) == (answer, Ok(length)));
    }
    let again = Journal::make(alloc, &mut disk, &config, 0);
    assert!(rt; again == Err(MakeStop::Exists { length: 51 }));
    assert!(rt; 1 < config.shape.n());
    let other = Journal::open(alloc, &mut disk, &config, 1, 51).err();
    assert!(rt; other == Some(OpenStop::BadJournal { at: 11 }));
}

/// Opens the journal of a disk and appends the three events, as far as the answers are Ok. Tells how many of the events are acknowledged, and
/// the answer to one append more where one failed.
fn acknowledged(
    rt: &impl Abort,
    alloc: Global,
    config: &Config,
    disk: &mut MemoryDisk,
) -> (usize, Option<AppendStop>) {
    let Ok(mut opened) = Journal::open(alloc, disk, config, 0, 1_000) else {
        return (0, None);
    };
    for number in 0..3 {
        let event = event(rt, alloc, number);
        if opened.journal.append(disk, &event).is_err() {
            return (number, opened.journal.append(disk, &Event::Nudge).err());
        }
    }
    (3, None)
}

/// What the journal of a disk that never fails has.
fn found(rt: &impl Abort, alloc: Global, config: &Config, bytes: &[u8]) -> Vec<Event> {
    let mut disk = disk(rt, alloc, bytes, &[]);
    let opened = Journal::open(alloc, &mut disk, config, 0, 1_000);
    opened.expect(rt, "a journal").events
}

/// Whether these are the first of the three events.
fn are_first(rt: &impl Abort, alloc: Global, found: &[Event]) -> bool {
    for (number, found) in found.iter().enumerate() {
        if *found != event(rt, alloc, number) {
            return false;
        }
    }
    true
}

#[test]
fn what_was_acknowledged_is_found_again(rt: HostRuntime) {
    let alloc = rt.alloc();
    let config = config(&rt, alloc);
    let made = made(&rt, alloc, &config);
    // Opening makes three calls, and each append four.
    for failing in 1..=16 {
        let mut first = disk(&rt, alloc, made.bytes(), &[failing]);
        let (count, next) = acknowledged(&rt, alloc, &config, &mut first);
        let halts = failing > 3 && failing <= 15;
        assert!(rt; (count == 3, next.is_some()) == (failing > 15, halts));
        assert!(rt; next.is_none() || next == Some(AppendStop::Halted));
        let found = found(&rt, alloc, &config, first.bytes());
        assert!(rt; count <= found.len() && found.len() - count <= 1);
        assert!(rt; are_first(&rt, alloc, &found));
    }
}
