//! The requests that stand together at one position.

ghost use Rattle.std.specs.Prelude.{◌≡◌, ◌↔◌, IsTrue, ◌+◌, ◌≤◌, ◌++◌, ℕ, List, length, IfOk, IfSome};
ghost use Rattle.std.specs.List.{flat_map, AllByRecursion};
ghost use Rattle.mb_base.specs.Limits.{batch_limit, batch_bytes_limit};
ghost use Rattle.mb_base.specs.Reading.{bounded_one, bounded_at};
ghost use Rattle.mb_base.specs.Fields.{place_of};
ghost use Rattle.mb_parts.specs.Bares.{batch_digest};
ghost use Rattle.mb_parts.specs.Decoded.{Decodes};
ghost use Rattle.mb_parts.specs.Fits.{FitsText, FitsRequest, FitsBatch, CanDigest};
ghost use Rattle.mb_parts.specs.Spelling.{request_bytes, batch_bytes};
ghost use Rattle.mb_parts.specs.Reading.{request_at, batch_at};

use crate::counting::count_u8;
use crate::fault::Undecoded;
use crate::limits::{MAX_BATCH_BYTES, MAX_BATCH_REQUESTS};
use crate::part::{Part, Readable, all_fit, count_all, put_all};
use crate::reading::read_request;
use crate::request::{Request, byte};
use crate::requests::Requests;
use mb_base::{Digest, Duplicate, Fields, Items, NoMemory, Shape, put_u8};
use sha2::{Digest as Hasher, Sha256};
use std::alloc::{AllocError, Global};

/// The requests of one position, in order: 1 to 16, together at most 2,048 bytes.
#[derive(PartialEq, Drop)]
pub struct Batch {
    pub requests: Requests,
}

impl Duplicate for Batch {
    fn duplicate(&self, alloc: Global) -> Result<Batch, AllocError> {
        Ok(Batch {
            requests: self.requests.duplicate(alloc)?,
        })
    }
}

/// Whether there are 1 to 16.
fn are_enough(requests: &[Request]) -> bool
    ensures { IsTrue result ↔ ((1 ≤ length requests.now) × (length requests.now ≤ batch_limit)) }
{
    1 <= requests.len() && requests.len() <= MAX_BATCH_REQUESTS as usize
}

/// Whether they have at most 2,048 bytes together. Each field of each has an allowed value.
#[tactic(auto, using(crate::proofs::CountedBytes::counted_within, crate::proofs::CountedBytes::within_counted))]
fn are_short(shape: &Shape, requests: &[Request]) -> bool
    requires { AllByRecursion (FitsRequest shape.now) requests.now }
    ensures { IsTrue result ↔ (length (flat_map request_bytes requests.now) ≤ batch_bytes_limit) }
{
    count_all(shape, 0, requests) <= MAX_BATCH_BYTES
}

impl Part for Batch {
    ghost text = { batch_bytes };

    ghost valid = { FitsBatch };

    fn fits(&self, shape: &Shape) -> bool {
        are_enough(self.requests.as_slice())
            && all_fit(shape, self.requests.as_slice())
            && are_short(shape, self.requests.as_slice())
    }

    #[tactic(auto, using(crate::proofs::CountedBytes::counted_behind), unfolding(crate::specs::Spelling::batch_bytes))]
    fn count(&self, shape: &Shape, so_far: usize) -> usize {
        let requests = self.requests.as_slice();
        let behind_count = count_u8(so_far, requests.len() as u8);
        count_all(shape, behind_count, requests)
    }

    #[tactic(auto, unfolding(crate::specs::Spelling::batch_bytes))]
    fn put(&self, shape: &Shape, out: &mut Vec<u8>) -> Result<(), NoMemory> {
        let requests = self.requests.as_slice();
        put_u8(out, requests.len() as u8)?;
        put_all(shape, requests, out)
    }
}

/// The next request of a batch, behind so many bytes of requests. It is read whole, and then its bytes may be too many.
#[tactic(auto, unfolding(mb_base::specs::Reading::checked_at))]
fn read_next(
    alloc: Global,
    shape: &Shape,
    used: usize,
    fields: &mut Fields<'_>,
) -> Result<Request, Undecoded>
    requires { used ≤ batch_bytes_limit }
    ensures read { Decodes result fields.new (bounded_one request_bytes batch_bytes_limit (request_at shape.now) used (place_of fields.old)) }
    ensures size { IfOk result (λ r. FitsText r.op × (used + length (request_bytes r) ≤ batch_bytes_limit)) }
{
    let start = *fields;
    let request = read_request(alloc, shape, fields)?;
    if used + request.size() <= MAX_BATCH_BYTES {
        return Ok(request);
    }
    *fields = start;
    Err(Undecoded::Malformed { at: start.place() })
}

/// As many requests as asked for, together at most 2,048 bytes.
fn read_requests(
    alloc: Global,
    shape: &Shape,
    count: u8,
    fields: &mut Fields<'_>,
) -> Result<Items<Request>, Undecoded>
    ensures { Decodes result fields.new (bounded_at request_bytes batch_bytes_limit (request_at shape.now) count 0 (place_of fields.old)) }
{
    let mut requests = Items::new(alloc);
    let mut used = 0;
    for _ in 0..count {
        let request = read_next(alloc, shape, used, fields)?;
        used += request.size();
        requests.push(request)?;
    }
    Ok(requests)
}

impl Readable for Batch {
    ghost reads = { batch_at };

    #[tactic(auto, unfolding(crate::specs::Reading::batch_at))]
    fn read(alloc: Global, shape: &Shape, fields: &mut Fields<'_>) -> Result<Batch, Undecoded> {
        let count = fields.u8_in(1, MAX_BATCH_REQUESTS)?;
        let requests = read_requests(alloc, shape, count, fields)?;
        Ok(Batch {
            requests: Requests::from_items(requests),
        })
    }
}

/// Feeds a hasher with the bytes of each request.
fn feed<H: Hasher>(hasher: &mut H, requests: &[Request])
    requires { AllByRecursion (λ r. FitsText r.op) requests.now }
    ensures { (m : List ℕ) → H.holds hasher.old m → H.holds hasher.new (m ++ flat_map request_bytes requests.now) }
{
    for request in requests {
        request.feed(hasher);
    }
}

impl Batch {
    /// The SHA-256 digest (FIPS 180-4) of the batch's bytes, the count among them. It has 1 to 16 requests, each with an operation of at
    /// most 1,024 bytes. Nothing is hashed where the digest is kept.
    #[tactic(auto, unfolding(crate::specs::Spelling::batch_bytes))]
    pub fn digest(&self) -> Digest
        requires { CanDigest self.now }
        ensures { result ≡ batch_digest self.now }
    {
        match self.requests.kept() {
            Some(digest) => digest,
            None => self.hashed(),
        }
    }

    /// The digest, hashed anew.
    fn hashed(&self) -> Digest
        requires { CanDigest self.now }
        ensures { result ≡ batch_digest self.now }
    {
        let requests = self.requests.as_slice();
        let mut hasher = Sha256::new();
        hasher.update(byte(requests.len() as u8));
        feed(&mut hasher, requests);
        hasher.finalize()
    }

    /// The digest, where it is kept.
    #[tactic(auto, unfolding(crate::specs::Spelling::batch_bytes))]
    pub fn kept_digest(&self) -> Option<Digest>
        ensures { IfSome result (λ digest. digest ≡ batch_digest self.now) }
    {
        self.requests.kept()
    }

    /// This batch, which keeps its digest, where that is known already.
    #[tactic(auto, unfolding(crate::specs::Spelling::batch_bytes))]
    pub fn with_digest(self, digest: Digest) -> Batch
        requires { digest ≡ batch_digest self }
        ensures { result ≡ self }
    {
        let Batch { mut requests } = self;
        requests.keep(digest);
        Batch { requests }
    }

    /// Keeps its digest, so that it need not be hashed again. Its requests are as `digest` asks for.
    #[tactic(auto, unfolding(crate::specs::Spelling::batch_bytes))]
    pub fn keep_digest(&mut self)
        requires { CanDigest self.old }
        ensures { self.new ≡ self.old }
    {
        let digest = self.digest();
        self.requests.keep(digest);
    }
}
