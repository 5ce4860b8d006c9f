//! The count as 64 parts, and back.

ghost use Rattle.std.specs.Prelude.{◌≡◌, ◌≤◌, length, IfOk};
ghost use Rattle.std.specs.Int.{w64, from_be_bytes};
ghost use Rattle.mb_service.specs.declared.service.TheConstants.{MAX_PART, PARTS};
ghost use Rattle.mb_counter.specs.Snapshots.{part_of, count_in, count_behind, Yields};

use mb_base::{Items, NoMemory, put_u64};
use mb_service::{PARTS, Restore};
use std::alloc::Global;

/// How many bytes the part has in which the count stands.
const WIDTH: usize = 8;

/// A part of a count: its eight bytes in part 0, and no bytes in the others.
#[tactic(auto, unfolding(mb_base::specs::Spelling::number))]
pub(crate) fn part_text(alloc: Global, total: u64, part: u8) -> Result<Items<u8>, NoMemory>
    ensures text { IfOk result (λ t. t ≡ part_of total part) }
    ensures short { IfOk result (λ t. length t ≤ MAX_PART) }
{
    if part != 0 {
        return Ok(Items::new(alloc));
    }
    let mut text = Vec::with_capacity(alloc, WIDTH)?;
    put_u64(&mut text, total)?;
    Ok(Items::from_vec(text))
}

/// The number that eight bytes spell.
fn number_in(part: &[u8]) -> u64
    requires { length part.now ≡ 8 }
    ensures { result ≡ from_be_bytes w64 part.now }
{
    u64::from_be_bytes([
        part[0], part[1], part[2], part[3], part[4], part[5], part[6], part[7],
    ])
}

/// The count of part 0, or the offset of its fault.
fn count_in(part: &[u8]) -> Result<u64, u32>
    ensures { result ≡ count_in part.now }
{
    if part.len() < WIDTH {
        return Err(0);
    }
    if part.len() != WIDTH {
        return Err(8);
    }
    Ok(number_in(part))
}

/// The count behind the part of this number, where the parts before it say `before`; or the offset of its fault.
fn count_behind(before: u64, number: u8, part: &[u8]) -> Result<u64, u32>
    ensures { result ≡ count_behind before number part.now }
{
    if number == 0 {
        return count_in(part);
    }
    if part.is_empty() {
        return Ok(before);
    }
    Err(0)
}

/// The count of all parts.
pub(crate) fn read_parts(parts: &[Items<u8>]) -> Result<u64, Restore>
    requires { length parts.now ≡ PARTS }
    ensures { Yields result parts.now }
{
    let mut total = 0;
    for part in 0..PARTS {
        match count_behind(total, part, parts[usize::from(part)].as_slice()) {
            Ok(next) => total = next,
            Err(at) => return Err(Restore::BadSnapshot { part, at }),
        }
    }
    Ok(total)
}
