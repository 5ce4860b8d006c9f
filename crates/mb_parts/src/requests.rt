//! The requests of a batch, beside which its digest is kept once it was taken.

ghost use Rattle.std.specs.Prelude.{◌≡◌, Some};
ghost use Rattle.mb_parts.specs.RequestSpelling.{IsHashed};

use crate::request::Request;
use mb_base::{Digest, Duplicate, Items};
use std::alloc::{AllocError, Global};
use std::marker::Model;

/// Requests in order. Contracts see the list of them. Beside it stands the digest of the batch that they are, where somebody had it taken.
#[derive(Drop)]
pub struct Requests {
    items: Items<Request>,
    digest: Option<Digest>,
}

impl Model for Requests {
    ghost use Rattle.std.specs.Prelude.{List};
    ghost use Rattle.mb_parts.specs.declared.request.Request.{Request as RequestValue};
    ghost use Rattle.mb_parts.specs.RequestSpelling.{IsHashed};

    ghost Value = { List RequestValue };

    ghost view = { λ r. r.items };

    ghost invariant = { λ r. IsHashed r.items r.digest };
}

impl Requests {
    /// These requests. Their digest was not taken.
    pub fn from_items(items: Items<Request>) -> Requests
        ensures { result ≡ items }
    {
        Requests {
            items,
            digest: None,
        }
    }

    /// The requests as a vector.
    pub fn into_vec(self) -> Vec<Request>
        ensures { result.items ≡ self }
    {
        self.items.into_vec()
    }

    /// The requests as a slice.
    pub fn as_slice(&self) -> &[Request]
        ensures { result.now ≡ self.now }
    {
        self.items.as_slice()
    }

    /// The digest of the batch that they are, where it was taken before.
    pub(crate) fn kept(&self) -> Option<Digest>
        ensures { IsHashed self.now result }
    {
        self.digest
    }

    /// This is the digest of the batch that they are.
    pub(crate) fn keep(&mut self, digest: Digest)
        requires { IsHashed self.old (Some digest) }
        ensures { self.new ≡ self.old }
    {
        self.digest = Some(digest);
    }
}

impl PartialEq for Requests {
    ghost use Rattle.std.specs.Cmp.Lexicographic.{pointwise, lists_per};
    ghost use Rattle.mb_parts.specs.SameRequest.{same_request};
    ghost use Rattle.std.proofs.Common.{rules};
    ghost use Rattle.std.specs.Cmp.Rules.{comparing};

    ghost eq = { pointwise same_request };

    ghost laws = { lists_per (Prim.search (comparing, rules)) };

    fn eq(&self, other: &Requests) -> bool {
        self.items == other.items
    }
}

impl Duplicate for Requests {
    fn duplicate(&self, alloc: Global) -> Result<Requests, AllocError> {
        Ok(Requests {
            items: self.items.duplicate(alloc)?,
            digest: self.digest,
        })
    }
}
