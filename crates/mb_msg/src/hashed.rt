//! A part of a message, beside which its digest is kept once it was taken.

ghost use Rattle.std.specs.Prelude.{◌≡◌, IfOk, Some};
ghost use Rattle.sha2.specs.Sha256.{sha256};
ghost use Rattle.mb_msg.specs.Bodies.{IsDigestOf};

use mb_base::{Digest, Duplicate, Fields, NoMemory, Shape};
use mb_parts::{Part, Readable, Undecoded};
use sha2::{Digest as _, Sha256};
use std::alloc::{AllocError, Global};
use std::marker::Model;

/// A part of a message. Contracts see the part. Beside it stands the digest of its bytes, where somebody had it taken.
#[derive(Drop)]
pub struct Hashed<T: Part> {
    part: T,
    digest: Option<Digest>,
}

impl<T: Part> Model for Hashed<T> {
    ghost use Rattle.mb_msg.specs.Bodies.{IsDigestOf};

    ghost Value = { T };

    ghost coded = { T.code };

    ghost view = { λ h. h.part };

    ghost invariant = { λ h. IsDigestOf (T.text h.part) h.digest };
}

/// The SHA-256 digest (FIPS 180-4) of a part's bytes. Each field has an allowed value. An error is want of memory.
pub(crate) fn digest_of<T: Part>(alloc: Global, shape: &Shape, part: &T) -> Result<Digest, NoMemory>
    requires { T.valid shape.now part.now }
    ensures { IfOk result (λ d. d ≡ sha256 (T.text part.now)) }
{
    let mut bytes = Vec::new(alloc);
    part.put(shape, &mut bytes)?;
    Ok(Sha256::digest(&bytes))
}

impl<T: Part> Hashed<T> {
    /// This part, beside which no digest is kept yet.
    pub fn new(part: T) -> Hashed<T>
        ensures { result ≡ part }
    {
        Hashed { part, digest: None }
    }

    /// The part alone.
    pub(crate) fn into_part(self) -> T
        ensures { result ≡ self }
    {
        self.part
    }

    /// The part.
    pub fn as_part(&self) -> &T
        ensures { result.now ≡ self.now }
    {
        &self.part
    }

    /// The digest of the part's bytes, which is taken where it isn't kept. Each field has an allowed value. An error is want of memory.
    pub(crate) fn digest(&self, alloc: Global, shape: &Shape) -> Result<Digest, NoMemory>
        requires { T.valid shape.now self.now }
        ensures { IfOk result (λ d. d ≡ sha256 (T.text self.now)) }
    {
        match self.digest {
            Some(digest) => Ok(digest),
            None => digest_of(alloc, shape, &self.part),
        }
    }

    /// This part, beside which its digest is kept. Each field has an allowed value. An error is want of memory.
    pub(crate) fn with_digest(self, alloc: Global, shape: &Shape) -> Result<Hashed<T>, NoMemory>
        requires { T.valid shape.now self }
        ensures { IfOk result (λ h. h ≡ self) }
    {
        let digest = self.digest(alloc, shape)?;
        Ok(Hashed {
            part: self.part,
            digest: Some(digest),
        })
    }
}

impl<T: Part> Part for Hashed<T> {
    ghost text = { T.text };

    ghost valid = { T.valid };

    fn fits(&self, shape: &Shape) -> bool {
        self.part.fits(shape)
    }

    fn count(&self, shape: &Shape, so_far: usize) -> usize {
        self.part.count(shape, so_far)
    }

    fn put(&self, shape: &Shape, out: &mut Vec<u8>) -> Result<(), NoMemory> {
        self.part.put(shape, out)
    }
}

impl<T: Readable> Readable for Hashed<T> {
    ghost reads = { T.reads };

    fn read(alloc: Global, shape: &Shape, fields: &mut Fields<'_>) -> Result<Hashed<T>, Undecoded> {
        Ok(Hashed::new(T::read(alloc, shape, fields)?))
    }
}

impl<T: Part + PartialEq> PartialEq for Hashed<T> {
    ghost use Rattle.std.proofs.Common.{rules};
    ghost use Rattle.std.specs.Cmp.Rules.{comparing};

    ghost eq = { T.eq };

    ghost laws = { Prim.search (comparing, rules) };

    fn eq(&self, other: &Hashed<T>) -> bool {
        self.part == other.part
    }
}

impl<T: Part + Duplicate> Duplicate for Hashed<T> {
    fn duplicate(&self, alloc: Global) -> Result<Hashed<T>, AllocError> {
        Ok(Hashed {
            part: self.part.duplicate(alloc)?,
            digest: self.digest,
        })
    }
}
