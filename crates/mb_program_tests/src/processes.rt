//! Runs of the whole program over what the system has: a cluster of real processes over sockets of this machine, and then the other words, each in a child
//! program with its own standard input, standard output and exit status. This one program is the client program, each of its nodes and each child.
//!
//! It reads a config from standard input, starts a node for each of three hosts, asks them the operations and writes the results. Then children take the steps
//! of each node's record again, run three schedules, one of them long, and a soak. Then a child starts a node and ends before it, so that the node has to end.
//! At last, once the port is free again, a node is started that some other process is said to have started. Behind each run stands its status.

use mb_edge::Spawner;
use mb_os::{ChildSpawner, StdSink, StdSource, own_path};
use mb_program::obey;
use std::fs::{File, Files, OpenOptions};
use std::io::ErrorKind;
use std::process::Command;
use std::time::Duration;
use std::{fs, io, process, thread};

/// What three nodes record.
const RECORDS: [&str; 3] = ["node-0.record", "node-1.record", "node-2.record"];

/// A schedule whose events all happen, and one that names a message which was not made.
const SCHEDULES: [&str; 2] = ["examples/one-put.schedule", "schedules/not_made.schedule"];

/// A schedule of which text and report are longer than what a pipe holds.
const LONG: &str = "schedules/ordinary_use.schedule";

/// A config at another port than that of the cluster.
const CONFIG: &str = "configs/node.config";

/// Where a child's output goes.
const ANSWER: &str = "answer";

/// A number that no process has.
const NO_PROCESS: u32 = u32::MAX;

/// The word for a program that starts a node and ends at once.
pub const LEAVE: &str = "leave";

/// How long a node serves before it is left, in milliseconds: two receives, so that it has found its starter there.
const SERVED_FIRST: u64 = 100;

/// That a run could not be made.
fn not_run() -> io::Error {
    io::Error::from(ErrorKind::Other)
}

/// These words.
fn words_from(rt: &HostRuntime, from: &[&str]) -> io::Result<Vec<String>> {
    let mut words = Vec::new(rt.alloc());
    for word in from {
        words.push(String::from_str(rt.alloc(), word)?)?;
    }
    Ok(words)
}

/// Runs a cluster at the system's streams.
fn run_cluster(rt: &HostRuntime) -> io::Result<()> {
    let words = words_from(rt, &["cluster", "2000"])?;
    let mut source = StdSource::new(rt, rt.stdin());
    let mut sink = StdSink::new(rt, rt.stdout());
    let status = obey(rt, &words, &mut source, &mut sink);
    println!(rt; "cluster: {status}")
}

/// Runs this program as a child, with these words, and a file for its input. Answers its exit status and what it wrote.
fn answer(rt: &HostRuntime, words: &[&str], input: &str) -> io::Result<(i32, Vec<u8>)> {
    let path = own_path(rt);
    let mut command = Command::new(rt.alloc(), path.as_str())?;
    for word in words {
        command.arg(*word)?;
    }
    let input = File::open(rt, input)?;
    let output = rt.open_file(
        OpenOptions::new().write(true).create(true).truncate(true),
        ANSWER,
    )?;
    let mut child = command.stdin(input).stdout(output).spawn(rt)?;
    match child.wait()?.code() {
        Some(status) => Ok((status, fs::read(rt, ANSWER)?)),
        None => Err(not_run()),
    }
}

/// Takes the steps of a record again. How many they are is another number each time.
fn retrace(rt: &HostRuntime, record: &str) -> io::Result<()> {
    let (status, text) = answer(rt, &["retrace"], record)?;
    let said = if text.as_slice().starts_with(b"same ") {
        "same"
    } else {
        "differs"
    };
    println!(rt; "{record}: {said} {status}")
}

/// Runs a schedule, and prints what is answered.
fn replay(rt: &HostRuntime, schedule: &str) -> io::Result<()> {
    let (status, text) = answer(rt, &["replay"], schedule)?;
    let text = String::from_utf8_lossy(rt.alloc(), text.as_slice())?;
    println!(rt; "{}{schedule}: {status}", text.as_str())
}

/// Runs a long schedule, and prints how many bytes are answered.
fn replay_long(rt: &HostRuntime) -> io::Result<()> {
    let (status, text) = answer(rt, &["replay"], LONG)?;
    println!(rt; "{LONG}: {} bytes {status}", text.len())
}

/// Draws events and runs them, and prints the line. Its input is not read.
fn soak(rt: &HostRuntime) -> io::Result<()> {
    let (status, text) = answer(rt, &["soak", "7", "1"], CONFIG)?;
    let text = String::from_utf8_lossy(rt.alloc(), text.as_slice())?;
    println!(rt; "{}soak: {status}", text.as_str())
}

/// Starts a node that would serve for more than an hour, and does not wait for its end.
pub fn leave_node(rt: &HostRuntime) -> io::Result<()> {
    let words = words_from(rt, &["node", "0", "100000"])?;
    let config = fs::read(rt, CONFIG)?;
    let own = process::id(rt.process());
    let mut spawner = ChildSpawner::new(rt, rt.alloc(), own_path(rt), own, &[]);
    let Ok(_left) = spawner.start(&words, &config, "left.record") else {
        return Err(not_run());
    };
    thread::sleep(rt, Duration::from_millis(SERVED_FIRST));
    Ok(())
}

/// Runs a program that leaves a node.
fn starter(rt: &HostRuntime) -> io::Result<()> {
    let (status, _) = answer(rt, &[LEAVE], CONFIG)?;
    println!(rt; "starter of a node: {status}")
}

/// Runs a node that is told of another process as the one that started it: its link fails. It gets the port of the node that was left, so that one has ended.
fn lonely_node(rt: &HostRuntime) -> io::Result<()> {
    let words = words_from(rt, &["node", "0", "40"])?;
    let config = fs::read(rt, CONFIG)?;
    let mut spawner = ChildSpawner::new(rt, rt.alloc(), own_path(rt), NO_PROCESS, &[]);
    let Ok(child) = spawner.start(&words, &config, "lonely.record") else {
        return Err(not_run());
    };
    match spawner.wait(child) {
        Ok(status) => println!(rt; "lonely node: {status}"),
        Err(_) => Err(not_run()),
    }
}

/// Makes all these runs, and prints what comes of each.
pub fn run_all(rt: &HostRuntime) -> io::Result<()> {
    run_cluster(rt)?;
    for record in RECORDS {
        retrace(rt, record)?;
    }
    for schedule in SCHEDULES {
        replay(rt, schedule)?;
    }
    replay_long(rt)?;
    soak(rt)?;
    starter(rt)?;
    lonely_node(rt)
}
