//! The bytes of results. The first byte says what came of the operation.

ghost use Rattle.std.specs.Prelude.{◌≡◌, ◌∷◌, [], IfOk};
ghost use Rattle.mb_service.specs.Parts.{IsShort};
ghost use Rattle.mb_counter.specs.Operations.{count_result};

use mb_base::{Items, NoMemory, put_u8, put_u64};
use std::alloc::Global;

/// The count stands behind it.
const COUNTED: u8 = 0;

/// There is no room for so many more.
pub(crate) const FULL: u8 = 1;

/// The bytes are no operation.
pub(crate) const BAD: u8 = 2;

/// A result that is this byte alone.
pub(crate) fn plain(alloc: Global, first: u8) -> Result<Items<u8>, NoMemory>
    ensures { IfOk result (λ r. r ≡ first ∷ []) }
{
    let mut result = Items::new(alloc);
    result.push(first)?;
    Ok(result)
}

/// The result that tells this count.
#[tactic(auto, unfolding(mb_base::specs::Spelling::number))]
pub(crate) fn with_count(alloc: Global, count: u64) -> Result<Items<u8>, NoMemory>
    ensures told { IfOk result (λ r. r ≡ count_result count) }
    ensures short { IfOk result IsShort }
{
    let mut result = Vec::with_capacity(alloc, 9)?;
    put_u8(&mut result, COUNTED)?;
    put_u64(&mut result, count)?;
    Ok(Items::from_vec(result))
}
