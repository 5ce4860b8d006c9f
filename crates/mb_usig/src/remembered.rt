//! What a trusted part remembers of tags: those that it made, and those that it found right. Equal ones are compared, and not hashed again.

use crate::origin::Origin;
use crate::tag_ring::TagRing;
use mb_base::{Digest, Key, NoMemory, Shape};
use std::alloc::Global;
use std::cell::RefCell;

/// For each position of a checkpoint interval, so many of the last counters of each host. A log has up to 6 votes for each, and other entries.
const COUNTERS: u16 = 8;

/// For each position of a checkpoint interval, so many of the last numbers of each client. A window has 2 positions for each.
const NUMBERS: u16 = 4;

/// The tags that a trusted part remembers: of the last counters of each host, and of the last numbers of each client.
///
/// It changes behind a shared reference, so a proof knows nothing of it but what is true of each ring, that its tags are right.
#[derive(Drop)]
pub(crate) struct Remembered {
    certificates: RefCell<TagRing>,
    requests: RefCell<TagRing>,
}

impl Remembered {
    ghost use Rattle.std.specs.Prelude.{◌≡◌, IsTrue};
    ghost use Rattle.mb_usig.specs.Remembered.{tag_by};

    /// Nothing yet, with as many places as a system of this size needs. All memory is taken here.
    pub(crate) fn make(alloc: Global, shape: &Shape, secret: &Key) -> Result<Remembered, NoMemory> {
        let interval = u16::from(shape.k());
        let certificates = TagRing::make(alloc, secret, shape.n(), COUNTERS * interval)?;
        let requests = TagRing::make(alloc, secret, shape.clients(), NUMBERS * interval)?;
        Ok(Remembered {
            certificates: RefCell::new(certificates),
            requests: RefCell::new(requests),
        })
    }

    /// Whether this tag of this text is remembered, so that it is right.
    pub(crate) fn has(&self, secret: &Key, origin: Origin, text: &[u8], tag: &Digest) -> bool
        ensures { IsTrue result → tag.now ≡ tag_by secret.now origin text.now }
    {
        match self.ring(origin).try_borrow() {
            Ok(ring) => ring.has(secret, origin, text, tag),
            Err(_) => false,
        }
    }

    /// Remembers a right tag, where there is a place for it. It takes no memory.
    pub(crate) fn keep(&self, secret: &Key, origin: Origin, text: &[u8], tag: &Digest)
        requires { tag.now ≡ tag_by secret.now origin text.now }
    {
        if let Ok(mut ring) = self.ring(origin).try_borrow_mut() {
            ring.keep(secret, origin, text, tag);
        }
    }

    // The ring in which a tag has its place.
    fn ring(&self, origin: Origin) -> &RefCell<TagRing> {
        match origin {
            Origin::Host { .. } => &self.certificates,
            Origin::Client { .. } => &self.requests,
        }
    }
}
