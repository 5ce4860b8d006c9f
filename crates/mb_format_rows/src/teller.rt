//! Values as texts of one line: names, numbers, and bytes in hexadecimal.
//!
//! More than four equal bytes are told as their count and the byte, as `32*07`, and no byte is `-`. The items of a list stand in brackets, parted by
//! commas, and equal neighbours are told once with their count.

use crate::runs::Runs;
use crate::stop::Stop;
use mb_base::Ui;
use mb_msg::Body;
use std::alloc::Global;
use std::fmt::Write;

/// The most equal bytes that are told one by one.
const FEW: usize = 4;

/// A value that can be told.
pub trait Told {
    /// Appends the value to the text.
    fn tell(&self, teller: &mut Teller);
}

/// A text that grows word by word. That memory ran out is told at its end.
#[derive(Drop)]
pub struct Teller {
    alloc: Global,
    text: String,
    failed: bool,
}

impl Teller {
    /// No word yet.
    pub fn new(alloc: Global) -> Teller {
        Teller {
            alloc,
            text: String::new(alloc),
            failed: false,
        }
    }

    /// One more word.
    pub fn word(&mut self, word: &str) {
        let between = if self.text.is_empty() { "" } else { " " };
        if write!(self.text, "{between}{word}").is_err() {
            self.failed = true;
        }
    }

    /// A name and a number.
    pub fn number(&mut self, name: &str, number: u64) {
        self.word(name);
        if write!(self.text, " {number}").is_err() {
            self.failed = true;
        }
    }

    /// A name and bytes.
    pub fn bytes(&mut self, name: &str, bytes: &[u8]) {
        self.word(name);
        let told = match equal_byte(bytes) {
            Some(byte) => write!(self.text, " {}*{byte:02x}", bytes.len()).is_ok(),
            None => self.put_hex(bytes),
        };
        if !told {
            self.failed = true;
        }
    }

    /// Appends bytes one by one, and answers whether there was memory.
    fn put_hex(&mut self, bytes: &[u8]) -> bool {
        if bytes.is_empty() {
            return write!(self.text, " -").is_ok();
        }
        match hex::encode(self.alloc, bytes) {
            Ok(digits) => write!(self.text, " {digits}").is_ok(),
            Err(_) => false,
        }
    }

    /// A name, and an identifier: host, counter and certificate.
    pub fn ui(&mut self, ui: &Ui) {
        self.number("ui", u64::from(ui.host));
        self.number("counter", ui.counter);
        self.bytes("cert", &ui.cert);
    }

    /// A part, or its digest.
    pub fn body<T: Told>(&mut self, body: &Body<T>) {
        match body {
            Body::Whole(part) => part.tell(self),
            Body::Bare(digest) => self.bytes("digest", digest),
        }
    }

    /// A name, and a part if there is one.
    pub fn optional<T: Told>(&mut self, name: &str, part: &Option<T>) {
        self.word(name);
        match part {
            Some(part) => part.tell(self),
            None => self.word("none"),
        }
    }

    /// A name, and the items of a list.
    pub fn list<T: Told>(&mut self, name: &str, items: &[T]) {
        let mut runs = Runs::new(self.alloc);
        for item in items {
            let mut told = Teller::new(self.alloc);
            item.tell(&mut told);
            self.failed = self.failed || told.failed;
            runs.add(told.text);
        }
        self.word(name);
        let told = match runs.finish() {
            Some(text) => write!(self.text, " [{text}]").is_ok(),
            None => false,
        };
        if !told {
            self.failed = true;
        }
    }

    /// The whole text.
    pub fn finish(self) -> Result<String, Stop> {
        if self.failed {
            return Err(Stop::NoMemory);
        }
        Ok(self.text)
    }
}

/// The byte that all bytes are, where there are more than a few.
fn equal_byte(bytes: &[u8]) -> Option<u8> {
    if bytes.len() <= FEW {
        return None;
    }
    let first = *bytes.first()?;
    for byte in bytes {
        if *byte != first {
            return None;
        }
    }
    Some(first)
}

/// The text of one value.
pub fn text_of<T: Told>(alloc: Global, value: &T) -> Result<String, Stop> {
    let mut teller = Teller::new(alloc);
    value.tell(&mut teller);
    teller.finish()
}
