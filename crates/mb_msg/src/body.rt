//! Parts that travel whole, in form 1, or as their digest, in form 0.

ghost use Rattle.std.specs.Prelude.{◌≡◌, ◌↔◌, ◌++◌, IfOk, IsTrue, OnOk};
ghost use Rattle.mb_base.specs.Fields.{place_of};
ghost use Rattle.mb_parts.specs.Counted.{counted};
ghost use Rattle.mb_parts.specs.Decoded.{Decodes};
ghost use Rattle.mb_msg.specs.Bodies.{form_of, body_bytes, body_digest, FitsBody, form_at, bare_form_at, body_at};

use crate::hashed::digest_of;
use crate::message::Body;
use mb_base::{Digest, Fields, NoMemory, Shape, put_bytes};
use mb_parts::{Part, Readable, Undecoded, count_bytes, read_digest};
use std::alloc::Global;

/// Stands before the digest of a body.
pub(crate) const BARE_FORM: u8 = 0;

/// Stands before a whole body.
pub(crate) const WHOLE_FORM: u8 = 1;

pub(crate) fn read_form(fields: &mut Fields<'_>) -> Result<u8, Undecoded>
    ensures { Decodes result fields.new (form_at (place_of fields.old)) }
{
    Ok(fields.u8_in(BARE_FORM, WHOLE_FORM)?)
}

pub(crate) fn read_bare_form(fields: &mut Fields<'_>) -> Result<u8, Undecoded>
    ensures { Decodes result fields.new (bare_form_at (place_of fields.old)) }
{
    Ok(fields.u8_in(BARE_FORM, BARE_FORM)?)
}

#[tactic(auto, unfolding(crate::specs::Bodies::body_at))]
pub(crate) fn read_body<T: Readable>(
    alloc: Global,
    shape: &Shape,
    form: u8,
    fields: &mut Fields<'_>,
) -> Result<Body<T>, Undecoded>
    ensures { Decodes result fields.new (body_at (T.reads shape.now) form (place_of fields.old)) }
{
    if form == BARE_FORM {
        return Ok(Body::Bare(read_digest(fields)?));
    }
    Ok(Body::Whole(T::read(alloc, shape, fields)?))
}

impl<T> Body<T> {
    pub(crate) fn form(&self) -> u8
        ensures { result ≡ form_of self.now }
    {
        match self {
            Body::Whole(_) => WHOLE_FORM,
            Body::Bare(_) => BARE_FORM,
        }
    }
}

impl<T: Part> Body<T> {
    /// Whether each field of a whole body has an allowed value.
    pub(crate) fn fits(&self, shape: &Shape) -> bool
        ensures { IsTrue result ↔ FitsBody (T.valid shape.now) self.now }
    {
        match self {
            Body::Whole(part) => part.fits(shape),
            Body::Bare(digest) => digest.fits(shape),
        }
    }

    pub(crate) fn count(&self, shape: &Shape, so_far: usize) -> usize
        requires { FitsBody (T.valid shape.now) self.now }
        ensures { result ≡ counted so_far (body_bytes T.text self.now) }
    {
        match self {
            Body::Whole(part) => part.count(shape, so_far),
            Body::Bare(digest) => count_bytes(so_far, digest),
        }
    }

    pub(crate) fn put(&self, shape: &Shape, out: &mut Vec<u8>) -> Result<(), NoMemory>
        requires { FitsBody (T.valid shape.now) self.now }
        ensures { OnOk result (out.new.items ≡ out.old.items ++ body_bytes T.text self.now) }
    {
        match self {
            Body::Whole(part) => part.put(shape, out),
            Body::Bare(digest) => put_bytes(out, digest),
        }
    }

    /// The SHA-256 digest (FIPS 180-4) of the body's bytes, in either form. A whole body is hashed anew, also where a digest is kept beside it. Each
    /// field has an allowed value. An error is want of memory.
    pub fn digest(&self, alloc: Global, shape: &Shape) -> Result<Digest, NoMemory>
        requires { FitsBody (T.valid shape.now) self.now }
        ensures { IfOk result (λ d. d ≡ body_digest T.text self.now) }
    {
        match self {
            Body::Whole(part) => digest_of(alloc, shape, part),
            Body::Bare(digest) => Ok(*digest),
        }
    }
}
