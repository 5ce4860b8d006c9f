//! The devices of a run, and what came of it at them.

use crate::outside::Outside;
use crate::stop::Stop;
use mb_base::Items;
use mb_edge::{ByteSink, ByteSource, ListLink, ListSpawner, MemoryDisk, Start};
use mb_top::minbft;
use std::alloc::Global;

/// The devices of a run.
#[derive(Drop)]
pub struct Devices {
    source: ByteSource,
    sink: ByteSink,
    link: ListLink,
    spawner: ListSpawner,
    disk: MemoryDisk,
}

impl Devices {
    /// The devices of an outside, with these bytes to read.
    pub fn new(alloc: Global, input: Vec<u8>, outside: Outside) -> Result<Devices, Stop> {
        let Outside {
            source_fails,
            sink_fails,
            link_fails,
            spawner_fails,
            disk_fails,
            file,
            arrivals,
            ends,
            ..
        } = outside;
        Ok(Devices {
            source: ByteSource::new(input, source_fails)?,
            sink: ByteSink::new(alloc, sink_fails)?,
            link: ListLink::new(alloc, arrivals, link_fails)?,
            spawner: ListSpawner::new(alloc, ends, spawner_fails)?,
            disk: MemoryDisk::new(alloc, file, disk_fails)?,
        })
    }

    /// Devices that never fail, with these bytes to read.
    pub fn quiet(alloc: Global, input: Vec<u8>) -> Result<Devices, Stop> {
        Devices::new(alloc, input, Outside::new(alloc))
    }

    /// Runs the program with these words, and answers its status.
    pub fn run(&mut self, alloc: Global, words: &[String]) -> u8 {
        minbft(
            alloc,
            words,
            &mut self.source,
            &mut self.sink,
            &mut self.link,
            &mut self.spawner,
            &mut self.disk,
        )
    }

    /// What was written.
    pub fn written(&self) -> &[u8] {
        self.sink.bytes()
    }

    /// The lines of what came at the link, the spawner and the disk. The children were to be given `config`.
    pub fn came(&self, alloc: Global, config: &[u8]) -> Result<Vec<String>, Stop> {
        let mut lines = Vec::new(alloc);
        self.add_of_link(alloc, &mut lines)?;
        self.add_of_spawner(alloc, config, &mut lines)?;
        lines.push(file_line(alloc, self.disk.bytes())?)?;
        Ok(lines)
    }

    /// Adds the lines of what came at the link.
    fn add_of_link(&self, alloc: Global, lines: &mut Vec<String>) -> Result<(), Stop> {
        for (port, own) in self.link.opens() {
            add_numbers(alloc, lines, "opens", u64::from(*port), *own)?;
        }
        for (peer, datagram) in self.link.sent() {
            let bytes = hex::encode(alloc, datagram.as_slice())?;
            lines.push(format!(in alloc; "sends {peer} {bytes}")?)?;
        }
        Ok(())
    }

    /// Adds the lines of what came at the spawner.
    fn add_of_spawner(
        &self,
        alloc: Global,
        config: &[u8],
        lines: &mut Vec<String>,
    ) -> Result<(), Stop> {
        for start in self.spawner.starts() {
            let mut line = String::from_str(alloc, "starts")?;
            add_start(alloc, &mut line, start, config)?;
            lines.push(line)?;
        }
        for (child, status) in self.spawner.waits() {
            add_numbers(alloc, lines, "waits", *child, *status)?;
        }
        Ok(())
    }
}

/// Adds a line of a word and two numbers.
fn add_numbers(
    alloc: Global,
    lines: &mut Vec<String>,
    word: &str,
    first: u64,
    second: u8,
) -> Result<(), Stop> {
    lines.push(format!(in alloc; "{word} {first} {second}")?)?;
    Ok(())
}

/// The line of the file on the disk in the end.
fn file_line(alloc: Global, file: &[u8]) -> Result<String, Stop> {
    if file.is_empty() {
        return Ok(String::from_str(alloc, "keeps -")?);
    }
    let bytes = hex::encode(alloc, file)?;
    Ok(format!(in alloc; "keeps {bytes}")?)
}

/// Adds bytes as text.
fn add_text(alloc: Global, line: &mut String, bytes: &Items<u8>) -> Result<(), Stop> {
    let text = String::from_utf8_lossy(alloc, bytes.as_slice())?;
    line.push_str(text.as_str())?;
    Ok(())
}

/// Adds what a child's start is: its words, what it was given, and the file of its output.
fn add_start(alloc: Global, line: &mut String, start: &Start, config: &[u8]) -> Result<(), Stop> {
    for word in start.words.as_slice() {
        line.push_str(" ")?;
        add_text(alloc, line, word)?;
    }
    let given = if start.input.as_slice() == config {
        " < config > "
    } else {
        " < other bytes > "
    };
    line.push_str(given)?;
    add_text(alloc, line, &start.output)
}
