//! Reading one part of a message.
//!
//! `Malformed` comes exactly where no spelling of the part begins at the place of the fields: at the first field that is short
//! or has a value that isn't allowed, and the fields then stand there. Where memory runs out they stand where they stood.

ghost use Rattle.std.specs.Prelude.{◌+◌, ◌-◌, ◌^◌, IfSome};
ghost use Rattle.mb_base.specs.Spelling.{optional};
ghost use Rattle.mb_base.specs.Reading.{optional_at};
ghost use Rattle.mb_base.specs.Fields.{place_of};
ghost use Rattle.mb_parts.specs.Decoded.{Decodes, StaysWithoutMemory, ReadsPart};
ghost use Rattle.mb_parts.specs.Fits.{FitsRequest, FitsBatch, FitsStable, FitsFloor, FitsFloorCert, FitsEvidence};
ghost use Rattle.mb_parts.specs.Spelling.{request_bytes, batch_bytes, stable_bytes, floor_bytes, floor_cert_bytes, evidence_bytes};
ghost use Rattle.mb_parts.specs.Reading.{request_at, batch_at, stable_at, floor_at, floor_cert_at, evidence_at};

use crate::batch::Batch;
use crate::certificates::{Evidence, FloorCert, StableCert};
use crate::fault::Undecoded;
use crate::floor::Floor;
use crate::part::Readable;
use crate::request::Request;
use mb_base::{Fields, Shape};
use std::alloc::Global;

/// The part at the place of the fields.
fn read_or_stay<T: Readable>(
    alloc: Global,
    shape: &Shape,
    fields: &mut Fields<'_>,
) -> Result<T, Undecoded>
    ensures exact { Decodes result fields.new (T.reads shape.now (place_of fields.old)) }
    ensures kept { StaysWithoutMemory result fields.old fields.new }
{
    let before = *fields;
    let part = T::read(alloc, shape, fields);
    if let Err(Undecoded::NoMemory) = part {
        *fields = before;
    }
    part
}

/// The request at the place of the fields.
pub fn read_request(
    alloc: Global,
    shape: &Shape,
    fields: &mut Fields<'_>,
) -> Result<Request, Undecoded>
    ensures { ReadsPart (request_at shape.now) request_bytes (FitsRequest shape.now) result fields.old fields.new }
{
    read_or_stay(alloc, shape, fields)
}

/// The batch at the place of the fields.
pub fn read_batch(alloc: Global, shape: &Shape, fields: &mut Fields<'_>) -> Result<Batch, Undecoded>
    ensures { ReadsPart (batch_at shape.now) batch_bytes (FitsBatch shape.now) result fields.old fields.new }
{
    read_or_stay(alloc, shape, fields)
}

/// The stable certificate at the place of the fields.
pub fn read_stable(
    alloc: Global,
    shape: &Shape,
    fields: &mut Fields<'_>,
) -> Result<StableCert, Undecoded>
    ensures { ReadsPart (stable_at shape.now) stable_bytes (FitsStable shape.now) result fields.old fields.new }
{
    read_or_stay(alloc, shape, fields)
}

/// The floor certificate, or none, at the place of the fields.
pub fn read_floor_cert(
    alloc: Global,
    shape: &Shape,
    fields: &mut Fields<'_>,
) -> Result<Option<FloorCert>, Undecoded>
    ensures { ReadsPart (optional_at (floor_cert_at shape.now)) (optional floor_cert_bytes) (λ o. IfSome o (FitsFloorCert shape.now)) result fields.old fields.new }
{
    read_or_stay(alloc, shape, fields)
}

/// The evidence at the place of the fields.
pub fn read_evidence(
    alloc: Global,
    shape: &Shape,
    fields: &mut Fields<'_>,
) -> Result<Evidence, Undecoded>
    ensures { ReadsPart (evidence_at shape.now) evidence_bytes (FitsEvidence shape.now) result fields.old fields.new }
{
    read_or_stay(alloc, shape, fields)
}

/// The floor, or none, at the place of the fields.
pub fn read_floor(
    alloc: Global,
    shape: &Shape,
    fields: &mut Fields<'_>,
) -> Result<Option<Floor>, Undecoded>
    ensures { ReadsPart (optional_at floor_at) (optional floor_bytes) (λ o. IfSome o FitsFloor) result fields.old fields.new }
{
    read_or_stay(alloc, shape, fields)
}
