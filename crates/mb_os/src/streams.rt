//! The system's readers and writers, such as standard input and standard output, as a source and a sink.

ghost use Rattle.std.specs.Prelude.{◌≡◌, ◌≤◌, ℕ};
ghost use Rattle.mb_edge.specs.Faults.{one_more};
ghost use Rattle.std.specs.Io.{ReadsAtMost, WritesAtMost};
ghost use Rattle.std.specs.Io.KnownBytes.{ReadConsumes, WriteAppends};

use crate::telling::tell;
use mb_edge::{Failed, Sink, Source};
use std::io;
use std::io::{Eprint, ErrorKind, Read, Write};

/// A reader as a source. It tells of its bytes what the reader does: standard input tells nothing.
#[derive(Drop)]
pub struct StdSource<R, T> {
    rt: R,
    reader: T,
    faults: u64,
}

impl<R, T: Read> StdSource<R, T> {
    /// A source that has not failed yet.
    pub fn new(rt: R, reader: T) -> StdSource<R, T>
        ensures { result ≡ record { rt = rt; reader = reader; faults = 0 } }
    {
        StdSource {
            rt,
            reader,
            faults: 0,
        }
    }
}

impl<R: Eprint, T: Read> Source for StdSource<R, T> {
    ghost use Rattle.mb_edge.specs.Seen.{device};

    ghost seen = { λ s. device (T.remaining s.reader) s.faults };

    /// An interrupted read is made again.
    fn read(&mut self, into: &mut [u8]) -> Result<usize, Failed> {
        match read_again(&mut self.reader, into) {
            Ok(count) => Ok(count),
            Err(cause) => {
                tell(&self.rt, "reading failed", &cause);
                self.faults = self.faults.saturating_add(1);
                Err(Failed::Device)
            }
        }
    }
}

/// One read, made again as long as it is interrupted.
fn read_again<R: Read>(reader: &mut R, into: &mut [u8]) -> io::Result<usize>
    ensures bound { ReadsAtMost result into.new }
    ensures bytes { ReadConsumes (R.remaining reader.old) (R.remaining reader.new) result into.new }
{
    for _ in 0..u64::MAX {
        match reader.read(into) {
            Err(e) if e.kind() == ErrorKind::Interrupted => {}
            result => return result,
        }
    }
    Err(io::Error::from(ErrorKind::Interrupted))
}

/// A writer as a sink. It tells of its bytes what the writer does: standard output tells nothing.
#[derive(Drop)]
pub struct StdSink<R, W> {
    rt: R,
    writer: W,
    faults: u64,
}

impl<R, W: Write> StdSink<R, W> {
    /// A sink that has not failed yet.
    pub fn new(rt: R, writer: W) -> StdSink<R, W>
        ensures { result ≡ record { rt = rt; writer = writer; faults = 0 } }
    {
        StdSink {
            rt,
            writer,
            faults: 0,
        }
    }
}

impl<R: Eprint, W: Write> StdSink<R, W> {
    /// Counts a fault, and tells it.
    fn failed(&mut self, cause: &io::Error) -> Failed
        ensures failed { result ≡ Failed.Device }
        ensures counted { self.new.faults ≡ one_more self.old.faults }
        ensures later { self.old.faults ≤ self.new.faults }
        ensures kept { self.new.writer ≡ self.old.writer }
    {
        tell(&self.rt, "writing failed", cause);
        self.faults = self.faults.saturating_add(1);
        Failed::Device
    }
}

impl<R: Eprint, W: Write> Sink for StdSink<R, W> {
    ghost use Rattle.mb_edge.specs.Seen.{device};

    ghost seen = { λ s. device (W.contents s.writer) s.faults };

    /// An interrupted write is made again, and one that takes nothing has failed.
    fn write(&mut self, from: &[u8]) -> Result<usize, Failed> {
        match write_again(&mut self.writer, from) {
            Ok(count) if count > 0 || from.is_empty() => Ok(count),
            Ok(_) => Err(self.failed(&io::Error::from(ErrorKind::WriteZero))),
            Err(cause) => Err(self.failed(&cause)),
        }
    }
}

/// One write, made again as long as it is interrupted.
fn write_again<W: Write>(writer: &mut W, from: &[u8]) -> io::Result<usize>
    ensures bound { WritesAtMost result from.now }
    ensures bytes { WriteAppends (W.contents writer.old) (W.contents writer.new) result from.now }
{
    for _ in 0..u64::MAX {
        match writer.write(from) {
            Err(e) if e.kind() == ErrorKind::Interrupted => {}
            result => return result,
        }
    }
    Err(io::Error::from(ErrorKind::Interrupted))
}
