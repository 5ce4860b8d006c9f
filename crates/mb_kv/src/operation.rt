//! Reading operations.

ghost use Rattle.std.specs.Prelude.{◌≡◌, ◌≤◌, length, IfOk};
ghost use Rattle.mb_base.specs.Fields.{GivesIn, place_of};
ghost use Rattle.mb_kv.specs.Operations.{key_at, value_at, operation_of};
ghost use Rattle.mb_kv.specs.Seen.{as_operation, kind_and_operation_at};
ghost use Rattle.mb_kv.specs.States.{OperationFits};

use crate::limits::{MAX_KEY, MAX_VALUE};
use mb_base::{BadField, Fields};

/// What the bytes of an operation ask for.
#[derive(Drop)]
pub(crate) enum Operation<'a> {
    Put {
        key: &'a [u8],
        value: &'a [u8],
    },
    Get {
        key: &'a [u8],
    },
    Delete {
        key: &'a [u8],
    },
    /// The new value in the place of the old one.
    Swap {
        key: &'a [u8],
        old: &'a [u8],
        new: &'a [u8],
    },
    /// All other bytes.
    Bad,
}

/// What these bytes ask for.
#[tactic(auto, unfolding(crate::specs::Operations::operation_of))]
pub(crate) fn read_operation(op: &[u8]) -> Operation<'_>
    ensures read { as_operation result ≡ operation_of op.now }
    ensures fits { OperationFits (as_operation result) }
{
    let mut fields = Fields::over(op);
    match next_operation(&mut fields) {
        Ok(operation) if fields.is_at_end() => operation,
        _ => Operation::Bad,
    }
}

#[tactic(auto, unfolding(crate::specs::Operations::operation_at))]
fn next_operation<'a>(fields: &mut Fields<'a>) -> Result<Operation<'a>, BadField>
    ensures read { GivesIn as_operation result fields.new (kind_and_operation_at (place_of fields.old)) }
    ensures fits { IfOk result (λ operation. OperationFits (as_operation operation)) }
{
    match fields.get_u8()? {
        1 => {
            let key = read_key(fields)?;
            let value = read_value(fields)?;
            Ok(Operation::Put { key, value })
        }
        2 => {
            let key = read_key(fields)?;
            Ok(Operation::Get { key })
        }
        3 => {
            let key = read_key(fields)?;
            Ok(Operation::Delete { key })
        }
        4 => {
            let key = read_key(fields)?;
            let old = read_value(fields)?;
            let new = read_value(fields)?;
            Ok(Operation::Swap { key, old, new })
        }
        _ => Ok(Operation::Bad),
    }
}

#[tactic(auto, unfolding(mb_base::specs::Reading::text_in))]
pub(crate) fn read_key<'a>(fields: &mut Fields<'a>) -> Result<&'a [u8], BadField>
    ensures read { GivesIn (λ x. x.now) result fields.new (key_at (place_of fields.old)) }
    ensures fits { IfOk result (λ x. (1 ≤ length x.now) × (length x.now ≤ MAX_KEY)) }
{
    let size = fields.u8_in(1, MAX_KEY)?;
    Ok(fields.take(usize::from(size))?)
}

pub(crate) fn read_value<'a>(fields: &mut Fields<'a>) -> Result<&'a [u8], BadField>
    ensures read { GivesIn (λ x. x.now) result fields.new (value_at (place_of fields.old)) }
    ensures fits { IfOk result (λ x. (0 ≤ length x.now) × (length x.now ≤ MAX_VALUE)) }
{
    fields.text16(MAX_VALUE)
}
