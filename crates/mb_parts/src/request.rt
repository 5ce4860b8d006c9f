//! A client's request, and the identifier of a stamped message.

ghost use Rattle.std.specs.Prelude.{◌≡◌, ◌↔◌, ◌<◌, ◌≤◌, ◌+◌, ◌++◌, ◌^◌, ℕ, length, List, Option, None, IfOk, IsTrue, OnOk};
ghost use Rattle.std.specs.Int.{w8};
ghost use Rattle.mb_base.specs.Limits.{text_limit};
ghost use Rattle.mb_base.specs.Shapes.{host_count};
ghost use Rattle.mb_base.specs.Spelling.{number, text16};
ghost use Rattle.mb_base.specs.Fields.{place_of};
ghost use Rattle.mb_parts.specs.Bares.{request_digest};
ghost use Rattle.mb_parts.specs.Counted.{counted};
ghost use Rattle.mb_parts.specs.Decoded.{Decodes};
ghost use Rattle.mb_parts.specs.Fits.{FitsText, FitsUi, FitsRequest};
ghost use Rattle.mb_parts.specs.Spelling.{ui_bytes, request_bytes};
ghost use Rattle.mb_parts.specs.Reading.{ui_from, ui_at, request_at};

use crate::counting::{count_bytes, count_u8, count_u16, count_u64};
use crate::fault::Undecoded;
use crate::numbers::{
    is_counter, read_client, read_counter, read_digest, read_member_host, read_text, text_fits,
};
use crate::part::{Part, Readable};
use mb_base::{
    Client, Digest, Duplicate, Fields, Host, Items, NoMemory, Seq, Shape, Ui, put_bytes, put_u8,
    put_u16, put_u64,
};
use sha2::{Digest as Hasher, Sha256};
use std::alloc::{AllocError, Global};

/// A client's request, with the tag under the key that the client shares with the hosts' trusted parts.
/// The operation has at most 1,024 bytes, and the number is at least 1.
#[derive(PartialEq, Drop)]
pub struct Request {
    pub client: Client,
    pub seq: Seq,
    pub op: Items<u8>,
    pub tag: Digest,
}

impl Duplicate for Request {
    fn duplicate(&self, alloc: Global) -> Result<Request, AllocError> {
        Ok(Request {
            client: self.client,
            seq: self.seq,
            op: self.op.duplicate(alloc)?,
            tag: self.tag,
        })
    }
}

/// Appends a text behind its length in two bytes.
pub fn put_text(out: &mut Vec<u8>, text: &Items<u8>) -> Result<(), NoMemory>
    requires { FitsText text.now }
    ensures { OnOk result (out.new.items ≡ out.old.items ++ text16 text.now) }
{
    put_u16(out, text.len() as u16)?;
    put_bytes(out, text.as_slice())
}

/// Counts a text behind its length in two bytes.
#[tactic(auto, using(crate::proofs::CountedBytes::counted_behind))]
pub fn count_text(so_far: usize, text: &Items<u8>) -> usize
    requires { FitsText text.now }
    ensures { result ≡ counted so_far (text16 text.now) }
{
    count_bytes(count_u16(so_far, text.len() as u16), text.as_slice())
}

impl Part for Request {
    ghost text = { request_bytes };

    ghost valid = { FitsRequest };

    fn fits(&self, shape: &Shape) -> bool {
        self.client < shape.clients() && is_counter(self.seq) && text_fits(&self.op)
    }

    #[tactic(auto, using(crate::proofs::CountedBytes::counted_behind), unfolding(crate::specs::Spelling::request_bytes))]
    fn count(&self, shape: &Shape, so_far: usize) -> usize {
        let behind_client = count_u8(so_far, self.client);
        let behind_number = count_u64(behind_client, self.seq);
        let behind_text = count_text(behind_number, &self.op);
        count_bytes(behind_text, &self.tag)
    }

    #[tactic(auto, unfolding(crate::specs::Spelling::request_bytes))]
    fn put(&self, shape: &Shape, out: &mut Vec<u8>) -> Result<(), NoMemory> {
        put_u8(out, self.client)?;
        put_u64(out, self.seq)?;
        put_text(out, &self.op)?;
        put_bytes(out, &self.tag)
    }
}

impl Readable for Request {
    ghost reads = { request_at };

    #[tactic(auto, unfolding(crate::specs::Reading::request_at))]
    fn read(alloc: Global, shape: &Shape, fields: &mut Fields<'_>) -> Result<Request, Undecoded> {
        let client = read_client(shape, fields)?;
        let seq = read_counter(fields)?;
        let op = read_text(alloc, fields)?;
        let tag = read_digest(fields)?;
        Ok(Request {
            client,
            seq,
            op,
            tag,
        })
    }
}

#[tactic(auto, unfolding(mb_base::specs::Spelling::number))]
pub(crate) fn byte(value: u8) -> [u8; 1]
    ensures { result ≡ number w8 value }
{
    [value]
}

impl Request {
    /// How many bytes it has. The operation has at most 1,024 bytes.
    #[tactic(auto, unfolding(crate::specs::Spelling::request_bytes, mb_base::specs::Spelling::number))]
    pub fn size(&self) -> usize
        requires { FitsText self.now.op }
        ensures bytes { result ≡ length (request_bytes self.now) }
        ensures most { result ≤ 43 + text_limit }
    {
        1 + 8 + 2 + self.op.len() + 32
    }

    /// Feeds a hasher with its bytes. The operation has at most 1,024 bytes.
    pub(crate) fn feed<H: Hasher>(&self, hasher: &mut H)
        requires { FitsText self.now.op }
        ensures { (m : List ℕ) → H.holds hasher.old m → H.holds hasher.new (m ++ request_bytes self.now) }
    {
        hasher.update(byte(self.client));
        hasher.update(self.seq.to_be_bytes());
        hasher.update((self.op.len() as u16).to_be_bytes());
        hasher.update(self.op.as_slice());
        hasher.update(self.tag);
    }

    /// The SHA-256 digest (FIPS 180-4) of the request's bytes, the tag among them. The operation has at most 1,024 bytes.
    pub fn digest(&self) -> Digest
        requires { FitsText self.now.op }
        ensures { result ≡ request_digest self.now }
    {
        let mut hasher = Sha256::new();
        self.feed(&mut hasher);
        hasher.finalize()
    }
}

impl Part for Ui {
    ghost text = { ui_bytes };

    ghost valid = { FitsUi };

    fn fits(&self, shape: &Shape) -> bool {
        self.host < shape.n() && is_counter(self.counter)
    }

    #[tactic(auto, using(crate::proofs::CountedBytes::counted_behind), unfolding(crate::specs::Spelling::ui_bytes))]
    fn count(&self, shape: &Shape, so_far: usize) -> usize {
        let head = count_u64(count_u8(so_far, self.host), self.counter);
        count_bytes(head, &self.cert)
    }

    #[tactic(auto, unfolding(crate::specs::Spelling::ui_bytes))]
    fn put(&self, shape: &Shape, out: &mut Vec<u8>) -> Result<(), NoMemory> {
        put_u8(out, self.host)?;
        put_u64(out, self.counter)?;
        put_bytes(out, &self.cert)
    }
}

impl Readable for Ui {
    ghost reads = { ui_at };

    fn read(alloc: Global, shape: &Shape, fields: &mut Fields<'_>) -> Result<Ui, Undecoded> {
        read_ui_from(shape, None, 0, fields)
    }
}

/// An identifier of a host that is at least `least`, and not the one that is left out.
#[tactic(auto, unfolding(crate::specs::Reading::ui_from))]
pub fn read_ui_from(
    shape: &Shape,
    left_out: Option<Host>,
    least: Host,
    fields: &mut Fields<'_>,
) -> Result<Ui, Undecoded>
    ensures read { Decodes result fields.new (ui_from shape.now left_out least (place_of fields.old)) }
    ensures host { IfOk result (λ u. u.host < host_count shape.now) }
{
    let host = read_member_host(shape, left_out, least, fields)?;
    let counter = read_counter(fields)?;
    let cert = read_digest(fields)?;
    Ok(Ui {
        host,
        counter,
        cert,
    })
}
