//! How many bytes parts have. Each call takes how many there are so far and gives how many there are with the part's; the greatest
//! number where there are more.

ghost use Rattle.std.specs.Prelude.{◌≡◌};
ghost use Rattle.std.specs.Int.{w8, w16, w32, w64};
ghost use Rattle.std.specs.List.{flat_map};
ghost use Rattle.mb_base.specs.Spelling.{number, text16};
ghost use Rattle.mb_parts.specs.Counted.{counted};

use crate::part::Part;
use mb_base::Items;

/// A number of one byte.
#[tactic(auto, unfolding(mb_base::specs::Spelling::number, crate::specs::Counted::counted))]
pub fn count_u8(so_far: usize, value: u8) -> usize
    ensures { result ≡ counted so_far (number w8 value) }
{
    count_bytes(so_far, &value.to_be_bytes())
}

/// A number of two bytes.
#[tactic(auto, unfolding(mb_base::specs::Spelling::number, crate::specs::Counted::counted))]
pub fn count_u16(so_far: usize, value: u16) -> usize
    ensures { result ≡ counted so_far (number w16 value) }
{
    count_bytes(so_far, &value.to_be_bytes())
}

/// A number of four bytes.
#[tactic(auto, unfolding(mb_base::specs::Spelling::number, crate::specs::Counted::counted))]
pub fn count_u32(so_far: usize, value: u32) -> usize
    ensures { result ≡ counted so_far (number w32 value) }
{
    count_bytes(so_far, &value.to_be_bytes())
}

/// A number of eight bytes.
#[tactic(auto, unfolding(mb_base::specs::Spelling::number, crate::specs::Counted::counted))]
pub fn count_u64(so_far: usize, value: u64) -> usize
    ensures { result ≡ counted so_far (number w64 value) }
{
    count_bytes(so_far, &value.to_be_bytes())
}

/// Bytes as they are.
#[tactic(auto, unfolding(crate::specs::Counted::counted))]
pub fn count_bytes(so_far: usize, bytes: &[u8]) -> usize
    ensures { result ≡ counted so_far bytes.now }
{
    so_far.saturating_add(bytes.len())
}
