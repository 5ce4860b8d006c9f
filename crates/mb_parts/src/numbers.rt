//! Numbers of messages with their limits, and digests. A field that is short, or outside its limits, is the fault.

ghost use Rattle.std.specs.Prelude.{◌≡◌, ◌↔◌, ◌≤◌, ◌<◌, ◌+◌, length, IfOk, IsTrue};
ghost use Rattle.mb_base.specs.Limits.{text_limit};
ghost use Rattle.mb_base.specs.Shapes.{host_count, span};
ghost use Rattle.mb_base.specs.Reading.{multiple_in, text16_at};
ghost use Rattle.mb_base.specs.Fields.{place_of};
ghost use Rattle.mb_parts.specs.Decoded.{Decodes};
ghost use Rattle.mb_parts.specs.Fits.{IsCounter, IsPlace, IsPosition, IsBase, IsEnd, FitsText};
ghost use Rattle.mb_parts.specs.Reading.{host_at, member_host_at, client_at, counter_at, place_at, position_at, base_at, point_at, end_at, digest_at};

use crate::fault::Undecoded;
use crate::limits::{MAX_POS, TEXT_LIMIT};
use mb_base::{Client, Counter, Digest, Fields, Host, Items, Pos, Shape};
use std::alloc::Global;

/// A host of the system.
pub fn read_host(shape: &Shape, fields: &mut Fields<'_>) -> Result<Host, Undecoded>
    ensures { Decodes result fields.new (host_at shape.now (place_of fields.old)) }
{
    Ok(fields.u8_in(0, shape.n() - 1)?)
}

/// A host that is at least `least`, and not the one that is left out.
#[tactic(auto, unfolding(mb_base::specs::Reading::number_without, mb_base::specs::Reading::checked_at, mb_base::specs::Reading::number_in))]
pub(crate) fn read_member_host(
    shape: &Shape,
    left_out: Option<Host>,
    least: Host,
    fields: &mut Fields<'_>,
) -> Result<Host, Undecoded>
    ensures read { Decodes result fields.new (member_host_at shape.now left_out least (place_of fields.old)) }
    ensures host { IfOk result (λ h. h < host_count shape.now) }
{
    Ok(fields.u8_without(left_out, least, shape.n() - 1)?)
}

/// A client of the system.
pub fn read_client(shape: &Shape, fields: &mut Fields<'_>) -> Result<Client, Undecoded>
    ensures { Decodes result fields.new (client_at shape.now (place_of fields.old)) }
{
    Ok(fields.u8_in(0, shape.clients() - 1)?)
}

/// A counter, or the number of a request: at least 1.
pub fn read_counter(fields: &mut Fields<'_>) -> Result<Counter, Undecoded>
    ensures { Decodes result fields.new (counter_at (place_of fields.old)) }
{
    Ok(fields.u64_in(1, u64::MAX)?)
}

/// A view, or a position that may be 0.
pub fn read_place(fields: &mut Fields<'_>) -> Result<Pos, Undecoded>
    ensures { Decodes result fields.new (place_at (place_of fields.old)) }
{
    Ok(fields.u64_in(0, MAX_POS)?)
}

/// A position, or a view above 0.
pub fn read_position(fields: &mut Fields<'_>) -> Result<Pos, Undecoded>
    ensures { Decodes result fields.new (position_at (place_of fields.old)) }
{
    Ok(fields.u64_in(1, MAX_POS)?)
}

/// 0 or a multiple of the checkpoint interval.
#[tactic(auto, unfolding(mb_base::specs::Reading::multiple_in, mb_base::specs::Reading::checked_at, mb_base::specs::Reading::number_in))]
pub fn read_base(shape: &Shape, fields: &mut Fields<'_>) -> Result<Pos, Undecoded>
    ensures below { IfOk result IsPlace }
    ensures read { Decodes result fields.new (base_at shape.now (place_of fields.old)) }
{
    Ok(fields.multiple_in(u64::from(shape.k()), 0, MAX_POS)?)
}

/// A multiple of the checkpoint interval above 0.
pub fn read_point(shape: &Shape, fields: &mut Fields<'_>) -> Result<Pos, Undecoded>
    ensures { Decodes result fields.new (point_at shape.now (place_of fields.old)) }
{
    Ok(fields.multiple_in(u64::from(shape.k()), 1, MAX_POS)?)
}

/// Where a view ends that begins at a base: at most two checkpoint intervals above it.
#[tactic(auto, unfolding(mb_base::specs::Reading::number_in))]
pub fn read_end(shape: &Shape, base: Pos, fields: &mut Fields<'_>) -> Result<Pos, Undecoded>
    requires { IsPlace base }
    ensures above { IfOk result (λ n. base ≤ n) }
    ensures read { Decodes result fields.new (end_at shape.now base (place_of fields.old)) }
{
    let most = (base + u64::from(shape.span())).min(MAX_POS);
    Ok(fields.u64_in(base, most)?)
}

/// A digest, or a certificate.
pub fn read_digest(fields: &mut Fields<'_>) -> Result<Digest, Undecoded>
    ensures { Decodes result fields.new (digest_at (place_of fields.old)) }
{
    Ok(fields.digest()?)
}

/// An operation or a result: at most 1,024 bytes behind their number.
pub fn read_text(alloc: Global, fields: &mut Fields<'_>) -> Result<Items<u8>, Undecoded>
    ensures { Decodes result fields.new (text16_at text_limit (place_of fields.old)) }
{
    let bytes = fields.text16(TEXT_LIMIT)?;
    Ok(Items::from_vec(Vec::from_slice(alloc, bytes)?))
}

/// Whether it is a counter, or the number of a request.
pub fn is_counter(n: Counter) -> bool
    ensures { IsTrue result ↔ IsCounter n }
{
    n >= 1
}

/// Whether it is a view, or a position that may be 0.
pub fn is_place(n: Pos) -> bool
    ensures { IsTrue result ↔ IsPlace n }
{
    n <= MAX_POS
}

/// Whether it is a position, or a view above 0.
pub fn is_position(n: Pos) -> bool
    ensures { IsTrue result ↔ IsPosition n }
{
    1 <= n && n <= MAX_POS
}

/// Whether it is 0 or the position of a checkpoint.
pub fn is_base(shape: &Shape, n: Pos) -> bool
    ensures { IsTrue result ↔ IsBase shape.now n }
{
    n <= MAX_POS && n % u64::from(shape.k()) == 0
}

/// Whether a view that begins at the base may end there.
pub fn is_end(shape: &Shape, base: Pos, n: Pos) -> bool
    requires { IsPlace base }
    ensures { IsTrue result ↔ IsEnd shape.now base n }
{
    base <= n && n <= base + u64::from(shape.span()) && n <= MAX_POS
}

/// Whether it is short enough for an operation or a result: at most 1,024 bytes.
pub fn text_fits(text: &Items<u8>) -> bool
    ensures { IsTrue result ↔ FitsText text.now }
{
    text.len() <= TEXT_LIMIT as usize
}
