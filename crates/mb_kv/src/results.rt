//! The bytes of results. The first byte says what came of the operation.

ghost use Rattle.std.specs.Prelude.{◌≡◌, ◌≤◌, ◌∷◌, [], length, IfOk};
ghost use Rattle.mb_base.specs.Spelling.{text16};
ghost use Rattle.mb_service.specs.Parts.{IsShort};

use crate::limits::MAX_VALUE;
use mb_base::{Items, NoMemory, put_bytes, put_u8, put_u16};
use std::alloc::Global;

/// It was done.
pub(crate) const DONE: u8 = 0;

/// The value of the key stands behind it.
pub(crate) const FOUND: u8 = 1;

/// There is no such key.
pub(crate) const ABSENT: u8 = 2;

/// The key has another value, which stands behind it.
pub(crate) const OTHER: u8 = 3;

/// There is no room for a new key.
pub(crate) const FULL: u8 = 4;

/// The bytes are no operation.
pub(crate) const BAD: u8 = 5;

/// A result that is this byte alone.
pub(crate) fn plain(alloc: Global, first: u8) -> Result<Items<u8>, NoMemory>
    ensures { IfOk result (λ r. r ≡ first ∷ []) }
{
    let mut result = Items::new(alloc);
    result.push(first)?;
    Ok(result)
}

/// A result that has a value behind its first byte.
#[tactic(auto, unfolding(mb_base::specs::Spelling::number))]
pub(crate) fn with_value(alloc: Global, first: u8, value: &[u8]) -> Result<Items<u8>, NoMemory>
    requires { length value.now ≤ MAX_VALUE }
    ensures found { IfOk result (λ r. r ≡ first ∷ text16 value.now) }
    ensures short { IfOk result IsShort }
{
    let mut result = Vec::with_capacity(alloc, 3 + value.len())?;
    put_u8(&mut result, first)?;
    put_u16(&mut result, value.len() as u16)?;
    put_bytes(&mut result, value)?;
    Ok(Items::from_vec(result))
}
