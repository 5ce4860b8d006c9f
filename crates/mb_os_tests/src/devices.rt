use mb_edge::{Disk, Failed, Got, Link, ReadStop, Sink, Source, Spawner, read_all};
use mb_os::{ChildSpawner, FileDisk, StdSink, StdSource, UdpLink};
use std::alloc::Global;
use std::io::{ErrorKind, Read, Write};
use std::os::unix::process::parent_id;
use std::process::Abort;
use std::time::{Clock, Duration, Instant};
use std::{fs, io, thread};

/// A stream whose calls end as listed: with a count, or with an error.
#[derive(Drop)]
struct Listed {
    calls: Vec<Result<usize, ErrorKind>>,
    made: usize,
}

impl Listed {
    fn new(rt: &impl Abort, alloc: Global, calls: &[Result<usize, ErrorKind>]) -> Listed {
        Listed {
            calls: calls.to_vec(alloc).expect(rt, "memory"),
            made: 0,
        }
    }

    fn next(&mut self) -> io::Result<usize> {
        let made = self.made;
        self.made = made.saturating_add(1);
        match self.calls.get(made) {
            Some(Ok(count)) => Ok(*count),
            Some(Err(kind)) => Err(io::Error::from(*kind)),
            None => Ok(0),
        }
    }
}

impl Read for Listed {
    fn read(&mut self, buf: &mut [u8]) -> io::Result<usize> {
        Ok(self.next()?.min(buf.len()))
    }
}

impl Write for Listed {
    fn write(&mut self, buf: &[u8]) -> io::Result<usize> {
        Ok(self.next()?.min(buf.len()))
    }

    fn flush(&mut self) -> io::Result<()> {
        Ok(())
    }
}

const INTERRUPTED: Result<usize, ErrorKind> = Err(ErrorKind::Interrupted);

const BROKEN: Result<usize, ErrorKind> = Err(ErrorKind::BrokenPipe);

#[test]
fn interrupted_calls_are_made_again(rt: HostRuntime) {
    let calls = [INTERRUPTED, Ok(2), INTERRUPTED, INTERRUPTED, BROKEN, Ok(0)];
    let mut source = StdSource::new(&rt, Listed::new(&rt, rt.alloc(), &calls));
    let mut sink = StdSink::new(&rt, Listed::new(&rt, rt.alloc(), &calls));
    let mut into = [0u8; 4];
    assert!(rt; source.read(&mut into) == Ok(2));
    assert!(rt; source.read(&mut into) == Err(Failed::Device));
    assert!(rt; source.read(&mut into) == Ok(0));
    assert!(rt; sink.write(b"abc") == Ok(2));
    assert!(rt; sink.write(b"c") == Err(Failed::Device));
    assert!(rt; sink.write(b"c") == Err(Failed::Device));
    assert!(rt; sink.write(b"") == Ok(0));
}

#[test]
fn a_fault_in_mid_stream_is_told(rt: HostRuntime) {
    let mut source = StdSource::new(&rt, Listed::new(&rt, rt.alloc(), &[Ok(3), BROKEN, Ok(3)]));
    match read_all(rt.alloc(), 10, &mut source) {
        Ok(bytes) => assert!(rt; bytes.len() == 3, "the fault is lost"),
        Err(e) => assert!(rt; e == ReadStop::Fault),
    }
}

/// The longest datagram, and one byte more.
const ROOM: usize = 32_778;

/// Receives until a datagram comes, at most a hundred times.
fn next_datagram<L: Link>(link: &mut L, into: &mut [u8]) -> Got {
    for _ in 0..100 {
        match link.recv(into) {
            Got::Quiet => {}
            got => return got,
        }
    }
    Got::Quiet
}

#[test]
fn datagrams_come_whole_and_in_order(rt: HostRuntime) {
    let mut first = UdpLink::new(&rt, rt.process(), None);
    let mut second = UdpLink::new(&rt, rt.process(), None);
    let mut into = [0u8; ROOM];
    assert!(rt; first.recv(&mut into) == Got::Failed(Failed::Device));
    assert!(rt; first.open(40_000, 0) == Ok(()));
    assert!(rt; second.open(40_000, 1) == Ok(()));
    assert!(rt; second.recv(&mut into) == Got::Quiet);
    for i in 1..=40u8 {
        let len = if i == 40 { ROOM - 1 } else { i as usize };
        let out = [i; ROOM];
        assert!(rt; first.send(1, out.get(..len).unwrap_or(&[])) == Ok(()));
        assert!(rt; next_datagram(&mut second, &mut into) == Got::Datagram(len));
        assert!(rt; into[..len].iter().all(|x| *x == i));
    }
    assert!(rt; second.recv(&mut into) == Got::Quiet);
    assert!(rt; first.send(1, b"abc") == Ok(()));
    assert!(rt; next_datagram(&mut second, &mut into) == Got::Datagram(3));
}

/// How many receives until a datagram comes were quiets.
fn quiets_before_a_datagram<L: Link>(rt: &impl Abort, link: &mut L, into: &mut [u8]) -> usize {
    for quiets in 0..100 {
        match link.recv(into) {
            Got::Quiet => {}
            Got::Datagram(_) => return quiets,
            Got::Failed(_) => panic!(rt; "the link failed"),
        }
    }
    100
}

#[test]
fn quiets_come_amid_datagrams(rt: HostRuntime) {
    let mut first = UdpLink::new(&rt, rt.process(), None);
    let mut second = UdpLink::new(&rt, rt.process(), None);
    let mut into = [0u8; ROOM];
    assert!(rt; first.open(40_040, 0) == Ok(()));
    assert!(rt; second.open(40_040, 1) == Ok(()));
    let mut quiets = 0usize;
    let mut datagrams = 0usize;
    for _ in 0..30 {
        thread::sleep(&rt, Duration::from_millis(10));
        assert!(rt; first.send(1, b"abc") == Ok(()));
        match second.recv(&mut into) {
            Got::Quiet => quiets = quiets.saturating_add(1),
            Got::Datagram(_) => datagrams = datagrams.saturating_add(1),
            Got::Failed(_) => panic!(rt; "the link failed"),
        }
    }
    assert!(rt; quiets >= 4, "quiets are kept away");
    for _ in datagrams..30 {
        assert!(rt; next_datagram(&mut second, &mut into) == Got::Datagram(3));
    }
}

#[test]
fn quiets_that_nobody_waited_for_are_not_told_behind(rt: HostRuntime) {
    let mut first = UdpLink::new(&rt, rt.process(), None);
    let mut second = UdpLink::new(&rt, rt.process(), None);
    let mut into = [0u8; ROOM];
    assert!(rt; first.open(40_050, 0) == Ok(()));
    assert!(rt; second.open(40_050, 1) == Ok(()));
    assert!(rt; first.send(1, b"abc") == Ok(()));
    thread::sleep(&rt, Duration::from_millis(500));
    let quiets = quiets_before_a_datagram(&rt, &mut second, &mut into);
    assert!(rt; quiets > 0, "a quiet that was due is not told");
    assert!(rt; quiets < 5, "each quiet that was due is told");
}

/// Sends a burst of the longest datagrams to host 1. How long that takes.
fn time_of_burst<R: Clock, L: Link>(rt: &R, link: &mut L) -> io::Result<Duration> {
    let begun = Instant::now(rt)?;
    for i in 1..=4u8 {
        let out = [i; ROOM];
        if link.send(1, out.get(1..).unwrap_or(&[])).is_err() {
            return Err(io::Error::from(ErrorKind::Other));
        }
    }
    begun.elapsed(rt)
}

#[test]
fn bursts_are_paced_and_fit(rt: HostRuntime) -> io::Result<()> {
    let mut first = UdpLink::new(&rt, rt.process(), None);
    let mut second = UdpLink::new(&rt, rt.process(), None);
    let mut into = [0u8; ROOM];
    assert!(rt; first.open(40_060, 0) == Ok(()));
    assert!(rt; second.open(40_060, 1) == Ok(()));
    for burst in 0..32 {
        let time = time_of_burst(&rt, &mut first)?;
        assert!(rt; time >= Duration::from_millis(1), "a burst is not paced");
        if burst % 4 == 0 {
            thread::sleep(&rt, Duration::from_millis(20));
        }
        for i in 1..=4u8 {
            assert!(rt; next_datagram(&mut second, &mut into) == Got::Datagram(ROOM - 1));
            assert!(rt; into.iter().take(ROOM - 1).all(|x| *x == i));
        }
    }
    Ok(())
}

#[test]
fn what_is_sent_to_nobody_is_lost(rt: HostRuntime) {
    let mut first = UdpLink::new(&rt, rt.process(), None);
    let mut second = UdpLink::new(&rt, rt.process(), None);
    let mut into = [0u8; ROOM];
    assert!(rt; first.open(40_030, 0) == Ok(()));
    for _ in 0..3 {
        assert!(rt; first.send(1, b"abc") == Ok(()));
    }
    assert!(rt; second.open(40_030, 1) == Ok(()));
    assert!(rt; first.send(9, b"abc") == Ok(()));
    assert!(rt; first.send(1, b"abcd") == Ok(()));
    assert!(rt; next_datagram(&mut second, &mut into) == Got::Datagram(4));
}

#[test]
fn a_port_that_is_taken_or_too_high_is_a_fault(rt: HostRuntime) {
    let mut first = UdpLink::new(&rt, rt.process(), None);
    let mut second = UdpLink::new(&rt, rt.process(), None);
    assert!(rt; first.open(40_010, 255) == Ok(()));
    assert!(rt; second.open(40_109, 1) == Err(Failed::Device));
    assert!(rt; second.open(65_500, 255) == Err(Failed::Device));
    assert!(rt; second.open(40_109, 2) == Ok(()));
}

/// A number that no process has.
const NO_PROCESS: u32 = u32::MAX;

#[test]
fn a_link_ends_with_who_started_it(rt: HostRuntime) {
    let mut kept = UdpLink::new(&rt, rt.process(), Some(parent_id(rt.process())));
    let mut left = UdpLink::new(&rt, rt.process(), Some(NO_PROCESS));
    let mut into = [0u8; ROOM];
    assert!(rt; kept.open(40_020, 0) == Ok(()));
    assert!(rt; left.open(40_020, 1) == Ok(()));
    assert!(rt; kept.send(1, b"abc") == Ok(()));
    assert!(rt; left.recv(&mut into) == Got::Failed(Failed::Device));
    assert!(rt; left.send(0, b"abc") == Err(Failed::Device));
    assert!(rt; kept.recv(&mut into) == Got::Quiet);
}

fn shell(rt: &impl Abort, alloc: Global, script: &str) -> Vec<String> {
    let option = String::from_str(alloc, "-c").expect(rt, "memory");
    let script = String::from_str(alloc, script).expect(rt, "memory");
    vec![in alloc; option, script].expect(rt, "memory")
}

#[test]
fn children_get_their_words_and_input_and_tell_their_ends(rt: HostRuntime) {
    let rows = [
        ("cat", 0, "some bytes"),
        ("echo x; exit 3", 3, "x\n"),
        ("echo x; kill -9 $$", 255, "x\n"),
        ("echo $MINBFT_STARTED_BY; exec sleep 60", 255, "12345\n"),
    ];
    let path = String::from_str(rt.alloc(), "/bin/sh").expect(&rt, "memory");
    let mut spawner = ChildSpawner::new(&rt, rt.alloc(), path, 12345, &[]);
    for (script, status, text) in rows {
        let words = shell(&rt, rt.alloc(), script);
        match spawner.start(&words, b"some bytes", "child.out") {
            Ok(child) => assert!(rt; spawner.wait(child) == Ok(status)),
            Err(_) => panic!(rt; "the child is not started"),
        }
        let found = fs::read_to_string(&rt, "child.out").expect(&rt, "a text");
        assert!(rt; found.as_str() == text);
        fs::remove_file(&rt, "child.out").expect(&rt, "a file");
    }
    assert!(rt; spawner.wait(4) == Err(Failed::Device));
}

#[test]
fn a_child_that_does_not_come_to_work_is_a_fault(rt: HostRuntime) {
    let path = String::from_str(rt.alloc(), "/bin/sh").expect(&rt, "memory");
    let mut spawner = ChildSpawner::new(&rt, rt.alloc(), path, 12345, &[]);
    let silent = shell(&rt, rt.alloc(), "exit 0");
    assert!(rt; spawner.start(&silent, b"", "silent.out") == Err(Failed::Device));
    assert!(rt; !fs::exists(&rt, "silent.out").expect(&rt, "an answer"));
    fs::write(&rt, "taken.out", b"kept").expect(&rt, "a file");
    let right = shell(&rt, rt.alloc(), "echo x");
    assert!(rt; spawner.start(&right, b"", "taken.out") == Err(Failed::Device));
    let found = fs::read_to_string(&rt, "taken.out").expect(&rt, "a text");
    assert!(rt; found.as_str() == "kept");
    assert!(rt; spawner.wait(0) == Err(Failed::Device));
}

#[test]
fn nothing_is_started_where_a_later_file_is_there(rt: HostRuntime) {
    let path = String::from_str(rt.alloc(), "/bin/sh").expect(&rt, "memory");
    let files = ["early.out", "late.out"];
    let mut spawner = ChildSpawner::new(&rt, rt.alloc(), path, 12345, &files);
    let words = shell(&rt, rt.alloc(), "echo x");
    fs::write(&rt, "late.out", b"kept").expect(&rt, "a file");
    assert!(rt; spawner.start(&words, b"", "early.out") == Err(Failed::Device));
    assert!(rt; !fs::exists(&rt, "early.out").expect(&rt, "an answer"));
    fs::remove_file(&rt, "late.out").expect(&rt, "a file");
    for (child, file) in [(0, "early.out"), (1, "late.out")] {
        assert!(rt; spawner.start(&words, b"", file) == Ok(child));
        assert!(rt; spawner.wait(child) == Ok(0));
        fs::remove_file(&rt, file).expect(&rt, "a file");
    }
}

#[test]
fn a_file_keeps_what_was_written_and_synced(rt: HostRuntime) {
    let _ = fs::remove_file(&rt, "disk");
    let mut disk = FileDisk::new(&rt);
    let mut into = [9u8; 4];
    let counts = (disk.len(), disk.read_at(0, &mut into));
    assert!(rt; counts == (Err(Failed::Device), Err(Failed::Device)));
    let done = [
        disk.write_at(0, &[1]),
        disk.sync(),
        disk.open("no folder/disk"),
    ];
    assert!(rt; done == [Err(Failed::Device); 3]);
    assert!(rt; disk.open("disk") == Ok(()));
    assert!(rt; disk.len() == Ok(0));
    let done = [
        disk.write_at(2, &[4, 5]),
        disk.write_at(0, &[1]),
        disk.sync(),
    ];
    assert!(rt; done == [Ok(()); 3]);
    drop(disk);
    let mut again = FileDisk::new(&rt);
    assert!(rt; again.open("disk") == Ok(()));
    let counts = (again.len(), again.read_at(1, &mut into));
    assert!(rt; counts == (Ok(4), Ok(3)) && into == [0, 4, 5, 9]);
    assert!(rt; again.read_at(4, &mut into) == Ok(0));
}

#[test]
fn a_file_is_open_once(rt: HostRuntime) {
    let _ = fs::remove_file(&rt, "locked");
    let mut first = FileDisk::new(&rt);
    let mut second = FileDisk::new(&rt);
    assert!(rt; first.open("locked") == Ok(()));
    assert!(rt; second.open("locked") == Err(Failed::Device));
    assert!(rt; first.write_at(0, &[1]) == Ok(()));
    assert!(rt; first.open("locked") == Ok(()));
    assert!(rt; first.len() == Ok(1));
    assert!(rt; second.len() == Err(Failed::Device));
    drop(first);
    assert!(rt; second.open("locked") == Ok(()));
    assert!(rt; second.len() == Ok(1));
}
