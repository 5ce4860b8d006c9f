//! Reading operations.

ghost use Rattle.std.specs.Prelude.{◌≡◌};
ghost use Rattle.mb_base.specs.Fields.{Gives, place_of};
ghost use Rattle.mb_counter.specs.Operations.{kind_and_operation_at, operation_of};

use mb_base::{Fields, Short};

/// What the bytes of an operation ask for.
#[derive(Clone, Copy)]
pub(crate) enum Operation {
    /// To count so many more.
    Add { amount: u64 },
    /// To tell the count.
    Tell,
    /// All other bytes.
    Bad,
}

/// What these bytes ask for.
#[tactic(auto, unfolding(crate::specs::Operations::operation_of))]
pub(crate) fn read_operation(op: &[u8]) -> Operation
    ensures { result ≡ operation_of op.now }
{
    let mut fields = Fields::over(op);
    match next_operation(&mut fields) {
        Ok(operation) if fields.is_at_end() => operation,
        _ => Operation::Bad,
    }
}

#[tactic(auto, unfolding(crate::specs::Operations::operation_at))]
fn next_operation(fields: &mut Fields<'_>) -> Result<Operation, Short>
    ensures { Gives (λ operation. operation) result fields.new (kind_and_operation_at (place_of fields.old)) }
{
    match fields.get_u8()? {
        1 => {
            let amount = fields.get_u64()?;
            Ok(Operation::Add { amount })
        }
        2 => Ok(Operation::Tell),
        _ => Ok(Operation::Bad),
    }
}
