//! Writing one part of a message, each field of which has an allowed value. After want of memory the bytes written so far are unchanged.

ghost use Rattle.std.specs.Prelude.{◌≡◌, ◌++◌, IfSome, OnOk, OnErr};
ghost use Rattle.mb_base.specs.Spelling.{optional};
ghost use Rattle.mb_parts.specs.Appended.{AppendsPart};
ghost use Rattle.mb_parts.specs.Fits.{FitsRequest, FitsBatch, FitsStable, FitsFloor, FitsFloorCert, FitsEvidence};
ghost use Rattle.mb_parts.specs.Spelling.{request_bytes, batch_bytes, stable_bytes, floor_bytes, floor_cert_bytes, evidence_bytes};

use crate::batch::Batch;
use crate::certificates::{Evidence, FloorCert, StableCert};
use crate::floor::Floor;
use crate::part::Part;
use crate::request::Request;
use mb_base::{NoMemory, Shape, put_bytes};
use std::alloc::Global;

/// Appends the bytes of a part, or nothing where memory runs out: they are spelled apart first, and appended at once.
fn put_whole<T: Part>(
    alloc: Global,
    shape: &Shape,
    part: &T,
    out: &mut Vec<u8>,
) -> Result<(), NoMemory>
    requires { T.valid shape.now part.now }
    ensures ok { OnOk result (out.new.items ≡ out.old.items ++ T.text part.now) }
    ensures err { OnErr result (out.new.items ≡ out.old.items) }
{
    let mut text = Vec::new(alloc);
    part.put(shape, &mut text)?;
    put_bytes(out, &text)
}

/// Writes a request that fits, behind what is there.
pub fn put_request(
    alloc: Global,
    shape: &Shape,
    part: &Request,
    out: &mut Vec<u8>,
) -> Result<(), NoMemory>
    requires { FitsRequest shape.now part.now }
    ensures { AppendsPart (request_bytes part.now) result out.old.items out.new.items }
{
    put_whole(alloc, shape, part, out)
}

/// Writes a batch that fits, behind what is there.
pub fn put_batch(
    alloc: Global,
    shape: &Shape,
    part: &Batch,
    out: &mut Vec<u8>,
) -> Result<(), NoMemory>
    requires { FitsBatch shape.now part.now }
    ensures { AppendsPart (batch_bytes part.now) result out.old.items out.new.items }
{
    put_whole(alloc, shape, part, out)
}

/// Writes a stable certificate that fits, behind what is there.
pub fn put_stable(
    alloc: Global,
    shape: &Shape,
    part: &StableCert,
    out: &mut Vec<u8>,
) -> Result<(), NoMemory>
    requires { FitsStable shape.now part.now }
    ensures { AppendsPart (stable_bytes part.now) result out.old.items out.new.items }
{
    put_whole(alloc, shape, part, out)
}

/// Writes a floor certificate, or that there is none, behind what is there.
pub fn put_floor_cert(
    alloc: Global,
    shape: &Shape,
    part: &Option<FloorCert>,
    out: &mut Vec<u8>,
) -> Result<(), NoMemory>
    requires { IfSome part.now (FitsFloorCert shape.now) }
    ensures { AppendsPart (optional floor_cert_bytes part.now) result out.old.items out.new.items }
{
    put_whole(alloc, shape, part, out)
}

/// Writes evidence that fits, behind what is there.
pub fn put_evidence(
    alloc: Global,
    shape: &Shape,
    part: &Evidence,
    out: &mut Vec<u8>,
) -> Result<(), NoMemory>
    requires { FitsEvidence shape.now part.now }
    ensures { AppendsPart (evidence_bytes part.now) result out.old.items out.new.items }
{
    put_whole(alloc, shape, part, out)
}

/// Writes a floor, or that there is none, behind what is there.
pub fn put_floor(
    alloc: Global,
    shape: &Shape,
    part: &Option<Floor>,
    out: &mut Vec<u8>,
) -> Result<(), NoMemory>
    requires { IfSome part.now FitsFloor }
    ensures { AppendsPart (optional floor_bytes part.now) result out.old.items out.new.items }
{
    put_whole(alloc, shape, part, out)
}
