//! Child programs of one path as a spawner.

ghost use Rattle.std.specs.Prelude.{◌≡◌, ◌≤◌, ◌++◌, ℕ, [], ◌∷◌, None, Some, Ok, pos, map, string_bytes, IfOk, OnOk};
ghost use Rattle.std.specs.Process.{command_program, command_args, exit_code, SameProgramAndArgs};
ghost use Rattle.mb_edge.specs.Faults.{Rose};
ghost use Rattle.mb_edge.specs.Children.{CountsBadEnds};

use crate::program::STARTED_BY;
use crate::telling::tell;
use mb_edge::{Child, Failed, Spawner};
use std::alloc::{AllocError, Global};
use std::fs::{File, Files, OpenOptions};
use std::io::{Eprint, ErrorKind, Write};
use std::process::{Command, ExitStatus, OpenProcess, Processes, Stdio};
use std::time::{Clock, Duration};
use std::{fs, io, process, thread};

/// How often a start looks whether the child's output has begun, and how often all waits together look whether a child has ended.
const LOOKS: u32 = 5_000;

/// How long it waits between two looks, in microseconds: five seconds in all.
const LOOK_WAIT: u64 = 1_000;

/// How many looks come sooner. A node is at work a millisecond behind its start, and ends as soon behind its STOP.
const FIRST_LOOKS: u32 = 100;

/// How long it waits between these, in microseconds.
const FIRST_WAIT: u64 = 100;

/// The status of a child that a signal ended.
const BY_SIGNAL: u8 = 255;

/// One program, started again and again. It tells nothing of its content.
///
/// A start fails where the file for the output is there already, and where the child has ended before its output began or needs more than five seconds for
/// that. The first one fails, too, where any file is there that is to be new for the children. A child that has not ended five seconds after the first wait
/// began is ended by a signal.
#[derive(Drop)]
pub struct ChildSpawner<'a, R: Processes> {
    rt: R,
    alloc: Global,
    path: String,
    /// The number of this process, by which a child knows who started it.
    own: u32,
    /// Files of which none may be there before the first start.
    new_files: &'a [&'a str],
    children: Vec<process::Child<R::Started>>,
    /// How often waits still look whether a child has ended by itself.
    looks: u32,
    faults: u64,
    bad_ends: u64,
}

impl<'a, R: Processes> ChildSpawner<'a, R> {
    /// A spawner of the program at `path`, which has started nothing yet. The process that starts has the number `own`. Nothing is started where one of
    /// `new_files` is there already.
    pub fn new(
        rt: R,
        alloc: Global,
        path: String,
        own: u32,
        new_files: &'a [&'a str],
    ) -> ChildSpawner<'a, R>
        ensures faults { result.faults ≡ 0 }
        ensures bad_ends { result.bad_ends ≡ 0 }
    {
        ChildSpawner {
            rt,
            alloc,
            path,
            own,
            new_files,
            children: Vec::new(alloc),
            looks: LOOKS,
            faults: 0,
            bad_ends: 0,
        }
    }

    /// Counts a fault.
    fn count_fault(&mut self) -> Failed
        ensures device { result ≡ Failed.Device }
        ensures rose { Rose self.old.faults self.new.faults }
        ensures later { self.old.faults ≤ self.new.faults }
        ensures bad_ends { self.new.bad_ends ≡ self.old.bad_ends }
    {
        self.faults = self.faults.saturating_add(1);
        Failed::Device
    }

    /// Counts a bad end.
    fn count_end(&mut self, status: u8)
        ensures faults { self.new.faults ≡ self.old.faults }
        ensures bad_ends { CountsBadEnds self.old.bad_ends self.new.bad_ends (Ok status) }
    {
        if status != 0 {
            self.bad_ends = self.bad_ends.saturating_add(1);
        }
    }
}

impl<'a, R: Processes + Eprint> ChildSpawner<'a, R> {
    /// What an error of a start means. A device that failed is counted, and told: of a file that is there already that was done.
    fn cause_of(&mut self, output: &str, error: &io::Error) -> Failed
        ensures rose { result ≡ Failed.Device → Rose self.old.faults self.new.faults }
        ensures kept { result ≡ Failed.NoMemory → self.new.faults ≡ self.old.faults }
        ensures later { self.old.faults ≤ self.new.faults }
        ensures bad_ends { self.new.bad_ends ≡ self.old.bad_ends }
    {
        match error.kind() {
            ErrorKind::OutOfMemory => Failed::NoMemory,
            ErrorKind::AlreadyExists => self.count_fault(),
            _ => {
                tell(&self.rt, format_args!("a start failed: {output}"), error);
                self.count_fault()
            }
        }
    }
}

/// Adds a word to a command.
fn add_word(command: &mut Command, word: &str) -> Result<(), AllocError>
    ensures program { OnOk result (command_program command.new ≡ command_program command.old) }
    ensures words { OnOk result (command_args command.new ≡ command_args command.old ++ word.now ∷ []) }
{
    command.arg(word)?;
    Ok(())
}

/// The command of a child with these words.
fn command_of(alloc: Global, path: &str, words: &[String]) -> Result<Command, AllocError>
    ensures program { IfOk result (λ c. command_program c ≡ path.now) }
    ensures words { IfOk result (λ c. command_args c ≡ map string_bytes words.now) }
{
    let mut command = Command::new(alloc, path)?;
    for word in words {
        add_word(&mut command, word.as_str())?;
    }
    Ok(command)
}

/// Tells on standard error that a file is there already. The error says no more than that.
fn told_there<R: Eprint>(rt: &R, file: &str) -> io::Error {
    let _ = eprintln!(rt; "minbft: {file} is there already and is not overwritten");
    io::Error::from(ErrorKind::AlreadyExists)
}

/// Fails where one of these files is there already, and tells it.
fn none_is_there<R: Files + Eprint>(rt: &R, files: &[&str]) -> io::Result<()> {
    for file in files {
        if fs::exists(rt, *file)? {
            return Err(told_there(rt, *file));
        }
    }
    Ok(())
}

/// The file for a child's output. One that is there already is never overwritten, and that is told on standard error.
fn new_file<R: Files<File = File> + Eprint>(rt: &R, output: &str) -> io::Result<File> {
    let opened = rt.open_file(OpenOptions::new().write(true).create_new(true), output);
    match opened {
        Err(e) if e.kind() == ErrorKind::AlreadyExists => Err(told_there(rt, output)),
        opened => opened,
    }
}

/// Gives a child its input. One that has ended without taking it all tells so by its status.
fn feed<P: OpenProcess>(child: &mut process::Child<P>, input: &[u8]) -> io::Result<()> {
    let Some(mut pipe) = child.stdin.take() else {
        return Ok(());
    };
    match pipe.write_all(input) {
        Err(e) if e.kind() != ErrorKind::BrokenPipe => Err(e),
        _ => Ok(()),
    }
}

/// How long a look waits for the next one, by how many were made before it.
fn wait_behind(looks: u32) -> Duration {
    if looks < FIRST_LOOKS {
        Duration::from_micros(FIRST_WAIT)
    } else {
        Duration::from_micros(LOOK_WAIT)
    }
}

/// Waits until a child's output has begun. It is an error where the child has ended before that, or needs more than five seconds.
fn await_output<R: Files + Clock, P: OpenProcess>(
    rt: &R,
    child: &mut process::Child<P>,
    output: &str,
) -> io::Result<()> {
    for look in 0..LOOKS {
        let has_ended = child.try_wait()?.is_some();
        if fs::metadata(rt, output)?.len() > 0 {
            return Ok(());
        }
        if has_ended {
            let words = "the child ended before its output began";
            return Err(io::Error::new(ErrorKind::UnexpectedEof, words));
        }
        thread::sleep(rt, wait_behind(look));
    }
    let words = "the child's output did not begin in five seconds";
    Err(io::Error::new(ErrorKind::TimedOut, words))
}

fn set_to_work<R: Files + Clock, P: OpenProcess>(
    rt: &R,
    child: &mut process::Child<P>,
    input: &[u8],
    output: &str,
) -> io::Result<()> {
    feed(child, input)?;
    await_output(rt, child, output)
}

/// Starts a child with a pipe for its input and a file for its output. It is at work when this returns; where that fails behind its start, it is ended again.
fn begun<R: Files + Processes + Clock>(
    rt: &R,
    mut command: Command,
    input: &[u8],
    output: &str,
    file: File,
) -> io::Result<process::Child<R::Started>> {
    let mut child = command.stdin(Stdio::piped()).stdout(file).spawn(rt)?;
    match set_to_work(rt, &mut child, input, output) {
        Ok(()) => Ok(child),
        Err(e) => {
            child.kill()?;
            child.wait()?;
            Err(e)
        }
    }
}

/// Starts a child, whose output goes to a new file. Where it does not come to work no file is left.
fn started<R: Files<File = File> + Processes + Clock + Eprint>(
    rt: &R,
    command: Command,
    input: &[u8],
    output: &str,
) -> io::Result<process::Child<R::Started>> {
    let file = new_file(rt, output)?;
    match begun(rt, command, input, output, file) {
        Ok(child) => Ok(child),
        Err(e) => {
            fs::remove_file(rt, output)?;
            Err(e)
        }
    }
}

/// Tells a child who starts it.
fn name_starter(alloc: Global, command: &mut Command, own: u32) -> Result<(), AllocError>
    ensures { OnOk result (SameProgramAndArgs command.old command.new) }
{
    let starter = format!(in alloc; "{own}")?;
    command.env(STARTED_BY, starter.as_str())?;
    Ok(())
}

/// The command of a child that is told who starts it.
fn command_by(alloc: Global, path: &str, words: &[String], own: u32) -> io::Result<Command>
    ensures program { IfOk result (λ c. command_program c ≡ path.now) }
    ensures words { IfOk result (λ c. command_args c ≡ map string_bytes words.now) }
{
    let mut command = command_of(alloc, path, words)?;
    name_starter(alloc, &mut command, own)?;
    Ok(command)
}

/// How a child ended. Once all looks are spent one that goes on is ended by a signal.
fn ended<R: Clock, P: OpenProcess>(
    rt: &R,
    child: &mut process::Child<P>,
    looks: &mut u32,
) -> io::Result<ExitStatus> {
    for _ in 0..*looks {
        if let Some(status) = child.try_wait()? {
            return Ok(status);
        }
        thread::sleep(rt, wait_behind(LOOKS.saturating_sub(*looks)));
        *looks = looks.saturating_sub(1);
    }
    child.kill()?;
    child.wait()
}

/// The status with which a child ended: its code, or 255 where a signal ended it.
fn status_of(status: ExitStatus) -> u8
    ensures code { (n : ℕ) → exit_code status ≡ Some (pos n) → result ≡ n }
    ensures signal { exit_code status ≡ None → result ≡ 255 }
{
    match status.code() {
        Some(code) => u8::try_from(code).unwrap_or(BY_SIGNAL),
        None => BY_SIGNAL,
    }
}

impl<'a, R: Files<File = File> + Processes + Clock + Eprint> ChildSpawner<'a, R> {
    /// Starts a child. Before the first one no file may be there that is to be new.
    fn begin(
        &self,
        words: &[String],
        input: &[u8],
        output: &str,
    ) -> io::Result<process::Child<R::Started>> {
        if self.children.is_empty() {
            none_is_there(&self.rt, self.new_files)?;
        }
        let command = command_by(self.alloc, &self.path, words, self.own)?;
        started(&self.rt, command, input, output)
    }
}

impl<'a, R: Files<File = File> + Processes + Clock + Eprint> Spawner for ChildSpawner<'a, R> {
    ghost use Rattle.mb_edge.specs.Seen.{spawner_state};

    ghost seen = { λ s. spawner_state None None s.faults s.bad_ends };

    ghost waits_without_memory = { Unit {0} };

    fn start(&mut self, words: &[String], input: &[u8], output: &str) -> Result<Child, Failed> {
        let Ok(()) = self.children.reserve(1) else {
            return Err(Failed::NoMemory);
        };
        match self.begin(words, input, output) {
            Ok(child) => {
                let number = self.children.len() as u64;
                self.children.push_reserved(child);
                Ok(number)
            }
            Err(error) => Err(self.cause_of(output, &error)),
        }
    }

    fn wait(&mut self, child: Child) -> Result<u8, Failed> {
        if child >= self.children.len() as u64 {
            return Err(self.count_fault());
        }
        match ended(
            &self.rt,
            &mut self.children[child as usize],
            &mut self.looks,
        ) {
            Ok(status) => {
                let status = status_of(status);
                self.count_end(status);
                Ok(status)
            }
            Err(error) => {
                tell(
                    &self.rt,
                    format_args!("a wait failed: child {child}"),
                    &error,
                );
                Err(self.count_fault())
            }
        }
    }
}
