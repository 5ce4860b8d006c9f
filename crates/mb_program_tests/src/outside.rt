//! What the outside does in a row, and what has to come of it.
//!
//! Lines of what it does:
//!
//! - `input comes N times`: the bytes of the input come so often, one after the other.
//! - `source fails N`, `sink fails N`, `link fails N`, `spawner fails N`, `disk fails N`: the N-th call of that device fails.
//! - `disk has HEX`: the bytes of the file on the disk at first, with `-` for none.
//! - `arrives HEX`: the next datagram that arrives, with `-` for one of no bytes; `quiet`: none for a while. Behind them all is quiet.
//! - `arrives HEX then N times HEX`: the same, with so many copies of the second bytes behind the first. `again N`: it comes N times more.
//! - `ends STATUS`: how the next child ends. Behind these all end with 0.
//!
//! Lines of what has to come of it. Where there are some with the same first word, they are all of them, in order. `sends none` stands for none, and
//! likewise for the other words:
//!
//! - `opens PORT OWN`: the link is opened.
//! - `sends PEER HEX`: a datagram is sent.
//! - `starts WORDS.. < config > FILE`: a child is started with these words. It is given the input, and its output goes to the file.
//! - `waits CHILD STATUS`: a child's end is awaited.
//! - `keeps HEX`: the bytes of the file on the disk in the end, with `-` for none.

use crate::stop::Stop;
use hex::FromHexError;
use mb_base::Items;
use std::alloc::Global;

/// The first words of the lines of what comes.
const COMING: [&str; 5] = ["opens", "sends", "starts", "waits", "keeps"];

/// What the outside does in a row, and what has to come of it.
#[derive(Drop)]
pub struct Outside {
    /// How often the input's bytes come.
    pub times: u64,
    /// The calls of the source that fail, and of the other devices.
    pub source_fails: Vec<u64>,
    pub sink_fails: Vec<u64>,
    pub link_fails: Vec<u64>,
    pub spawner_fails: Vec<u64>,
    pub disk_fails: Vec<u64>,
    /// The bytes of the file on the disk at first.
    pub file: Vec<u8>,
    /// What arrives, each a datagram or a quiet.
    pub arrivals: Vec<Option<Items<u8>>>,
    /// How the children end.
    pub ends: Vec<u8>,
    /// The lines of what has to come.
    pub coming: Vec<String>,
}

impl Outside {
    /// An outside that does nothing, and of which nothing is expected.
    pub fn new(alloc: Global) -> Outside {
        Outside {
            times: 1,
            source_fails: Vec::new(alloc),
            sink_fails: Vec::new(alloc),
            link_fails: Vec::new(alloc),
            spawner_fails: Vec::new(alloc),
            disk_fails: Vec::new(alloc),
            file: Vec::new(alloc),
            arrivals: Vec::new(alloc),
            ends: Vec::new(alloc),
            coming: Vec::new(alloc),
        }
    }

    /// The outside that a text describes. None where a line is none of those above.
    pub fn parsed(alloc: Global, text: &str) -> Result<Option<Outside>, Stop> {
        let mut outside = Outside::new(alloc);
        for line in text.lines() {
            if !outside.take(alloc, line)? {
                return Ok(None);
            }
        }
        Ok(Some(outside))
    }

    /// Takes a line. False where it is none of those above.
    fn take(&mut self, alloc: Global, line: &str) -> Result<bool, Stop> {
        let mut words = line.split_ascii_whitespace();
        let Some(first) = words.next() else {
            return Ok(true);
        };
        if COMING.contains(&first) {
            return self.take_coming(alloc, line);
        }
        match first {
            "quiet" => self.take_quiet(),
            "arrives" => self.take_arrival(alloc, line),
            "again" => self.take_again(alloc, number_of(words.next())),
            "ends" => self.take_end(number_of(words.next())),
            "input" => Ok(self.take_times(number_of(words.nth(1)))),
            device => match words.next() {
                Some("has") => self.take_file(alloc, device, words.next()),
                _ => self.take_fault(device, number_of(words.next())),
            },
        }
    }

    fn take_coming(&mut self, alloc: Global, line: &str) -> Result<bool, Stop> {
        self.coming.push(String::from_str(alloc, line)?)?;
        Ok(true)
    }

    fn take_quiet(&mut self) -> Result<bool, Stop> {
        self.arrivals.push(None)?;
        Ok(true)
    }

    fn take_arrival(&mut self, alloc: Global, line: &str) -> Result<bool, Stop> {
        let Some(datagram) = datagram_of(alloc, line)? else {
            return Ok(false);
        };
        self.arrivals.push(Some(Items::from_vec(datagram)))?;
        Ok(true)
    }

    /// Takes that the last arrival comes so many times more.
    fn take_again(&mut self, alloc: Global, times: Option<u64>) -> Result<bool, Stop> {
        let Some(times) = times else {
            return Ok(false);
        };
        let Some(Some(last)) = self.arrivals.last() else {
            return Ok(false);
        };
        let last = Vec::from_slice(alloc, last.as_slice())?;
        for _ in 0..times {
            let copy = Items::from_vec(Vec::from_slice(alloc, &last)?);
            self.arrivals.push(Some(copy))?;
        }
        Ok(true)
    }

    fn take_end(&mut self, status: Option<u64>) -> Result<bool, Stop> {
        let Some(status) = status else {
            return Ok(false);
        };
        let Ok(status) = u8::try_from(status) else {
            return Ok(false);
        };
        self.ends.push(status)?;
        Ok(true)
    }

    /// Takes the bytes of the file on the disk.
    fn take_file(&mut self, alloc: Global, device: &str, word: Option<&str>) -> Result<bool, Stop> {
        if device != "disk" {
            return Ok(false);
        }
        let Some(file) = bytes_of_word(alloc, word)? else {
            return Ok(false);
        };
        self.file = file;
        Ok(true)
    }

    fn take_times(&mut self, times: Option<u64>) -> bool {
        let Some(times) = times else {
            return false;
        };
        self.times = times;
        true
    }

    fn take_fault(&mut self, device: &str, call: Option<u64>) -> Result<bool, Stop> {
        let Some(call) = call else {
            return Ok(false);
        };
        let fails = match device {
            "source" => &mut self.source_fails,
            "sink" => &mut self.sink_fails,
            "link" => &mut self.link_fails,
            "spawner" => &mut self.spawner_fails,
            "disk" => &mut self.disk_fails,
            _ => return Ok(false),
        };
        fails.push(call)?;
        Ok(true)
    }
}

/// The number that a word is.
fn number_of(word: Option<&str>) -> Option<u64> {
    match word?.parse::<u64>() {
        Ok(number) => Some(number),
        Err(_) => None,
    }
}

/// The bytes of a datagram. None where the line is none of an arrival.
fn datagram_of(alloc: Global, line: &str) -> Result<Option<Vec<u8>>, Stop> {
    let mut words = line.split_ascii_whitespace().skip(1);
    let Some(mut datagram) = bytes_of_word(alloc, words.next())? else {
        return Ok(None);
    };
    if words.next() != Some("then") {
        return Ok(Some(datagram));
    }
    let Some(times) = number_of(words.next()) else {
        return Ok(None);
    };
    let Some(more) = bytes_of_word(alloc, words.nth(1))? else {
        return Ok(None);
    };
    for _ in 0..times {
        datagram.extend_from_slice(&more)?;
    }
    Ok(Some(datagram))
}

/// The bytes of a word. None where it is neither `-` nor hexadecimal.
fn bytes_of_word(alloc: Global, word: Option<&str>) -> Result<Option<Vec<u8>>, Stop> {
    match word {
        None => Ok(None),
        Some("-") => Ok(Some(Vec::new(alloc))),
        Some(word) => match hex::decode(alloc, word) {
            Ok(bytes) => Ok(Some(bytes)),
            Err(FromHexError::OutOfMemory) => Err(Stop::NoMemory),
            Err(_) => Ok(None),
        },
    }
}
