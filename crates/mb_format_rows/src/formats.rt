//! Rows of one message: its fields, its bytes, and where bytes are malformed.

use crate::cuts::Judge;
use crate::plans::{follow_text, usable_text};
use crate::stamps::{logged_text, mark_text, opened_text, stamped_text};
use crate::stop::Stop;
use crate::teller::{Teller, Told, text_of};
use mb_base::{Fields, Shape};
use mb_msg::{Message, Undecoded, decode, encode, fits};
use mb_parts::{
    Part, put_batch, put_evidence, put_floor, put_floor_cert, put_request, put_stable, read_batch,
    read_evidence, read_floor, read_floor_cert, read_request, read_stable,
};
use sha2::{Digest as _, Sha256};
use std::alloc::Global;

/// What is said where bytes are no message.
pub fn fault_text(alloc: Global, error: Undecoded) -> Result<String, Stop> {
    match error {
        Undecoded::NoMemory => Err(Stop::NoMemory),
        Undecoded::Malformed { at } => Ok(format!(in alloc; "malformed at {at}")?),
    }
}

/// The answer to a row of one message.
pub fn message_text(
    alloc: Global,
    call: &str,
    shape: &Shape,
    bytes: &[u8],
    more: &[u8],
) -> Result<String, Stop> {
    match decode(alloc, shape, bytes) {
        Err(error) => fault_text(alloc, error),
        Ok(message) => match call {
            "stamped" | "restamp" | "shown" | "members" => {
                stamped_text(alloc, call, shape, message, more)
            }
            _ => {
                let text = seen_text(alloc, call, shape, &message, bytes);
                drop(message);
                text
            }
        },
    }
}

/// The answer to a row that only looks at its message.
fn seen_text(
    alloc: Global,
    call: &str,
    shape: &Shape,
    message: &Message,
    bytes: &[u8],
) -> Result<String, Stop> {
    match call {
        "again" => again_text(alloc, shape, message, bytes),
        "hash" => hash_text(alloc, shape, message),
        "fields" => text_of(alloc, message),
        "mark" => mark_text(alloc, shape, message),
        "logged" => logged_text(alloc, shape, message),
        "opened" => opened_text(alloc, shape, message),
        "usable" => usable_text(alloc, shape, message),
        "follows" => follow_text(alloc, shape, message),
        _ => Err(Stop::NoRow),
    }
}

/// The bytes of a message that was read.
pub fn bytes_of(alloc: Global, shape: &Shape, message: &Message) -> Result<Vec<u8>, Stop> {
    if !fits(shape, message) {
        return Err(Stop::Unfit);
    }
    Ok(encode(alloc, shape, message)?)
}

/// Whether a message is written as it was read.
fn again_text(
    alloc: Global,
    shape: &Shape,
    message: &Message,
    bytes: &[u8],
) -> Result<String, Stop> {
    let written = bytes_of(alloc, shape, message)?;
    let how = if written.as_slice() == bytes {
        "the same"
    } else {
        "other"
    };
    Ok(format!(in alloc; "{how} {} bytes", written.len())?)
}

/// How many bytes there are, and their SHA-256 digest.
pub fn length_and_digest(alloc: Global, bytes: &[u8]) -> Result<String, Stop> {
    let digest = hex::encode(alloc, Sha256::digest(bytes))?;
    Ok(format!(in alloc; "{} bytes {digest}", bytes.len())?)
}

fn hash_text(alloc: Global, shape: &Shape, message: &Message) -> Result<String, Stop> {
    let written = bytes_of(alloc, shape, message)?;
    length_and_digest(alloc, &written)
}

/// The messages of a system.
#[derive(Clone, Copy)]
pub struct Messages {
    pub shape: Shape,
}

impl Judge for Messages {
    fn judge(&self, alloc: Global, bytes: &[u8]) -> Result<String, Stop> {
        match decode(alloc, &self.shape, bytes) {
            Err(error) => fault_text(alloc, error),
            Ok(message) => {
                drop(message);
                Ok(String::from_str(alloc, "a message")?)
            }
        }
    }
}

/// Parts that are read one behind the other, told, and written again.
#[derive(Drop)]
struct Rewriting<'a> {
    alloc: Global,
    shape: Shape,
    fields: Fields<'a>,
    teller: Teller,
    written: Vec<u8>,
}

impl Rewriting<'_> {
    /// Takes all six parts, behind which there must be no byte.
    fn take_all(&mut self) -> Result<(), Stop> {
        self.request()?;
        self.batch()?;
        self.stable()?;
        self.floor_cert()?;
        self.evidence()?;
        self.floor()?;
        if self.fields.is_at_end() {
            Ok(())
        } else {
            Err(Stop::NoRow)
        }
    }

    fn request(&mut self) -> Result<(), Stop> {
        let part = read_request(self.alloc, &self.shape, &mut self.fields)?;
        part.tell(&mut self.teller);
        if part.fits(&self.shape) {
            put_request(self.alloc, &self.shape, &part, &mut self.written)?;
        }
        Ok(())
    }

    fn batch(&mut self) -> Result<(), Stop> {
        let part = read_batch(self.alloc, &self.shape, &mut self.fields)?;
        part.tell(&mut self.teller);
        if part.fits(&self.shape) {
            put_batch(self.alloc, &self.shape, &part, &mut self.written)?;
        }
        Ok(())
    }

    fn stable(&mut self) -> Result<(), Stop> {
        let part = read_stable(self.alloc, &self.shape, &mut self.fields)?;
        part.tell(&mut self.teller);
        if part.fits(&self.shape) {
            put_stable(self.alloc, &self.shape, &part, &mut self.written)?;
        }
        Ok(())
    }

    fn floor_cert(&mut self) -> Result<(), Stop> {
        let part = read_floor_cert(self.alloc, &self.shape, &mut self.fields)?;
        self.teller.optional("floor", &part);
        if part.fits(&self.shape) {
            put_floor_cert(self.alloc, &self.shape, &part, &mut self.written)?;
        }
        Ok(())
    }

    fn evidence(&mut self) -> Result<(), Stop> {
        let part = read_evidence(self.alloc, &self.shape, &mut self.fields)?;
        self.teller.word("evidence");
        part.tell(&mut self.teller);
        if part.fits(&self.shape) {
            put_evidence(self.alloc, &self.shape, &part, &mut self.written)?;
        }
        Ok(())
    }

    fn floor(&mut self) -> Result<(), Stop> {
        let part = read_floor(self.alloc, &self.shape, &mut self.fields)?;
        self.teller.optional("floor", &part);
        if part.fits(&self.shape) {
            put_floor(self.alloc, &self.shape, &part, &mut self.written)?;
        }
        Ok(())
    }
}

/// The parts that these bytes are: a request, a batch, a stable certificate, a floor certificate if there is one, evidence, and a floor if there is
/// one. They are told, and so are length and digest of what they are written as.
pub fn parts_text(alloc: Global, shape: &Shape, bytes: &[u8]) -> Result<String, Stop> {
    let mut parts = Rewriting {
        alloc,
        shape: *shape,
        fields: Fields::over(bytes),
        teller: Teller::new(alloc),
        written: Vec::new(alloc),
    };
    parts.take_all()?;
    let Rewriting {
        mut teller,
        written,
        ..
    } = parts;
    let written = length_and_digest(alloc, &written)?;
    teller.word(written.as_str());
    teller.finish()
}
