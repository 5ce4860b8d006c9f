//! The words of rows: numbers and bytes.
//!
//! Bytes are words in hexadecimal. `32*07` is 32 bytes 7, `$NAME` are the bytes that a row `piece` gave that name, `3*$NAME` three times these, and
//! `-` is no byte.

use crate::stop::Stop;
use mb_base::Shape;
use std::alloc::Global;

/// The word for no byte.
const NO_BYTE: &str = "-";

/// What parts one list of bytes from the next.
const BETWEEN: char = '|';

/// Bytes with a name.
#[derive(Drop)]
struct Piece {
    name: String,
    bytes: Vec<u8>,
}

/// The bytes that have names.
#[derive(Drop)]
pub struct Pieces {
    alloc: Global,
    named: Vec<Piece>,
}

impl Pieces {
    /// No name is given yet.
    pub fn new(alloc: Global) -> Pieces {
        Pieces {
            alloc,
            named: Vec::new(alloc),
        }
    }

    /// Takes a name and the words of its bytes.
    pub fn define(&mut self, row: &str) -> Result<String, Stop> {
        let (name, words) = row.split_once(' ').ok_or(Stop::NoRow)?;
        let name = String::from_str(self.alloc, name)?;
        let bytes = self.bytes_of(words)?;
        let answer = format!(in self.alloc; "{} bytes", bytes.len())?;
        self.named.push(Piece { name, bytes })?;
        Ok(answer)
    }

    /// The lists of bytes that words stand for, of which there may be none.
    pub fn lists_of(&self, words: &str) -> Result<Vec<Vec<u8>>, Stop> {
        let mut lists = Vec::new(self.alloc);
        if words.is_empty() {
            return Ok(lists);
        }
        for list in words.split(BETWEEN) {
            lists.push(self.bytes_of(list)?)?;
        }
        Ok(lists)
    }

    fn bytes_of(&self, words: &str) -> Result<Vec<u8>, Stop> {
        let mut bytes = Vec::new(self.alloc);
        for word in words.split_ascii_whitespace() {
            self.put_word(word, &mut bytes)?;
        }
        Ok(bytes)
    }

    /// Appends the bytes of a word.
    fn put_word(&self, word: &str, bytes: &mut Vec<u8>) -> Result<(), Stop> {
        let (times, word) = match word.split_once('*') {
            Some((times, word)) => (number_of(times)?, word),
            None => (1, word),
        };
        let once = self.once(word)?;
        for _ in 0..times {
            bytes.extend_from_slice(&once)?;
        }
        Ok(())
    }

    /// The bytes of a word without its count.
    fn once(&self, word: &str) -> Result<Vec<u8>, Stop> {
        if word == NO_BYTE {
            return Ok(Vec::new(self.alloc));
        }
        match word.strip_prefix('$') {
            Some(name) => self.named(name),
            None => Ok(hex::decode(self.alloc, word)?),
        }
    }

    fn named(&self, name: &str) -> Result<Vec<u8>, Stop> {
        for piece in &self.named {
            if piece.name.as_str() == name {
                return Ok(Vec::from_slice(self.alloc, &piece.bytes)?);
            }
        }
        Err(Stop::NoRow)
    }
}

/// The number that a word is.
pub fn number_of(word: &str) -> Result<u64, Stop> {
    match word.parse::<u64>() {
        Ok(number) => Ok(number),
        Err(_) => Err(Stop::NoRow),
    }
}

/// The number that a text begins with, and what stands behind it.
pub fn number_before(text: &str) -> Result<(u8, &str), Stop> {
    let (word, behind) = match text.split_once(' ') {
        Some((word, behind)) => (word, behind),
        None => (text, ""),
    };
    match word.parse::<u8>() {
        Ok(number) => Ok((number, behind)),
        Err(_) => Err(Stop::NoRow),
    }
}

/// The shape that a text begins with, and what stands behind it.
pub fn shape_before(text: &str) -> Result<(Shape, &str), Stop> {
    let (f, behind) = number_before(text)?;
    let (k, behind) = number_before(behind)?;
    let (clients, behind) = number_before(behind)?;
    match Shape::new(f, k, clients) {
        Ok(shape) => Ok((shape, behind)),
        Err(_) => Err(Stop::NoRow),
    }
}
