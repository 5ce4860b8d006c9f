//! The requests that clients asked, found by their tags.

ghost use Rattle.std.specs.Prelude.{◌≡◌};
ghost use Rattle.mb_forgery.specs.Asked.{first_number};

use mb_base::{Digest, Items, NoMemory};
use mb_msg::Request;
use std::alloc::Global;
use std::collections::BTreeMap;

/// The requests that clients asked, by the first bytes of their tags. Different requests hardly share these, so that a look-up compares one request.
#[derive(Drop)]
pub struct Asked {
    /// By the first eight bytes of their tags, as a number.
    by_tag: BTreeMap<u64, Items<Request>>,
}

impl Asked {
    ghost use Rattle.std.specs.Prelude.{◌≡◌, ◌∷◌, [], List, OnOk};
    ghost use Rattle.std.specs.List.{list_any};
    ghost use Rattle.mb_parts.specs.declared.request.Request.{Request as RequestRecord};
    ghost use Rattle.mb_forgery.specs.Asked.{HoldsAsked, is_same};

    /// None was asked.
    pub(crate) fn make(alloc: Global) -> Asked
        ensures { HoldsAsked result [] }
    {
        Asked {
            by_tag: BTreeMap::new(alloc),
        }
    }

    /// One more was asked.
    pub(crate) fn note(&mut self, alloc: Global, request: Request) -> Result<(), NoMemory>
        ensures { (asked : List RequestRecord) → HoldsAsked self.old asked → OnOk result (HoldsAsked self.new (request ∷ asked)) }
    {
        // Room for one, since hardly ever a second comes.
        let room = Vec::with_capacity(alloc, 1)?;
        let same_tag = self
            .by_tag
            .entry(first_number(&request.tag))?
            .or_insert(Items::from_vec(room));
        same_tag.push(request)?;
        Ok(())
    }

    /// Whether it was asked.
    pub(crate) fn has(&self, request: &Request) -> bool
        ensures { (asked : List RequestRecord) → HoldsAsked self.now asked → result ≡ list_any (λ q. is_same q request.now) asked }
    {
        match self.by_tag.get(&first_number(&request.tag)) {
            Some(same_tag) => same_tag.as_slice().contains(request),
            None => false,
        }
    }
}

/// The first eight bytes of a tag, as a number.
fn first_number(tag: &Digest) -> u64
    ensures { result ≡ first_number tag.now }
{
    u64::from_be_bytes([
        tag[0], tag[1], tag[2], tag[3], tag[4], tag[5], tag[6], tag[7],
    ])
}
