//! Right tags, in a ring of places.

ghost use Rattle.std.specs.Prelude.{◌≡◌, ◌*◌, replicate, None, IfOk};
ghost use Rattle.mb_usig.specs.Remembered.{AreRight};

use crate::origin::Origin;
use crate::tagged::TaggedText;
use mb_base::{Digest, Key, NoMemory};
use std::alloc::Global;

/// Where the last byte of its number stands in the text of a request.
const LAST_OF_NUMBER: usize = 8;

/// Right tags under one secret. Each owner, a host or a client, has as many places, and its numbers go round in them: the newest one stays.
#[derive(Drop)]
pub(crate) struct TagRing {
    secret: Key,
    owners: u8,
    places: Vec<Option<TaggedText>>,
    ghost right: { AreRight secret places.items },
}

impl TagRing {
    ghost use Rattle.std.specs.Prelude.{◌≡◌, IfOk, IsTrue};
    ghost use Rattle.mb_usig.specs.Remembered.{tag_by};

    /// No tags yet. All memory is taken here.
    pub(crate) fn make(
        alloc: Global,
        secret: &Key,
        owners: u8,
        each: u16,
    ) -> Result<TagRing, NoMemory>
        ensures { IfOk result (λ ring. ring.secret ≡ secret.now) }
    {
        Ok(TagRing {
            secret: *secret,
            owners,
            places: no_tags(alloc, owners, each)?,
        })
    }

    /// Whether it keeps this tag of this text, so that the tag is right.
    pub(crate) fn has(&self, secret: &Key, origin: Origin, text: &[u8], tag: &Digest) -> bool
        ensures { IsTrue result → tag.now ≡ tag_by secret.now origin text.now }
    {
        let place = self.place_of(origin, text);
        if self.secret != *secret || place >= self.places.len() {
            return false;
        }
        match &self.places[place] {
            Some(kept) => kept.says(origin, text, tag),
            None => false,
        }
    }

    /// Keeps a right tag, where the secret is its own and the text is not too long. It takes no memory.
    pub(crate) fn keep(&mut self, secret: &Key, origin: Origin, text: &[u8], tag: &Digest)
        requires { tag.now ≡ tag_by secret.now origin text.now }
        ensures { self.new.secret ≡ self.old.secret }
    {
        let place = self.place_of(origin, text);
        if self.secret == *secret && TaggedText::has_room(text) && place < self.places.len() {
            self.places[place] = Some(TaggedText::of(origin, text, tag));
        }
    }

    // The place of a tag. Behind one another stand the places of all owners for one number, then those for the next.
    fn place_of(&self, origin: Origin, text: &[u8]) -> usize {
        let (owner, number) = match origin {
            Origin::Host { host, counter } => (host, counter),
            Origin::Client { client } => (client, u64::from(last_of_number(text))),
        };
        let turns = number
            .wrapping_mul(u64::from(self.owners))
            .wrapping_add(u64::from(owner));
        turns.checked_rem(self.places.len() as u64).unwrap_or(0) as usize
    }
}

/// Empty places.
fn no_tags(alloc: Global, owners: u8, each: u16) -> Result<Vec<Option<TaggedText>>, NoMemory>
    ensures { IfOk result (λ v. v.items ≡ replicate (owners * each) None) }
{
    let count = u32::from(owners) * u32::from(each);
    let mut all = Vec::with_capacity(alloc, count as usize)?;
    for _ in 0..count {
        all.push(None)?;
    }
    Ok(all)
}

/// The last byte of the number of a request in its text, 0 where there is none.
fn last_of_number(text: &[u8]) -> u8 {
    text.get(LAST_OF_NUMBER).copied().unwrap_or(0)
}
