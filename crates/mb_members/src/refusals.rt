//! The line of a refused event.

ghost use Rattle.std.specs.Prelude.{◌≡◌, Some, IfOk};
ghost use Rattle.mb_world_model.specs.Refusals.{refusal_of};

use mb_base::Items;
use mb_msg::Outcome;
use mb_schedule::{RefusedLine, Word};
use std::alloc::{AllocError, Global};

/// The line of an event, numbered from 1, at which a host answered this. None where that is no refusal. An error comes where memory runs out, and
/// only there.
pub fn outcome_line(
    alloc: Global,
    event: u64,
    outcome: Outcome,
) -> Result<Option<RefusedLine>, AllocError>
    ensures { IfOk result (λ line. line ≡ refusal_of event outcome) }
{
    match outcome {
        Outcome::Malformed { at } => refused_line(alloc, event, Word::Malformed, &[at as u64]),
        Outcome::BadUi => refused_line(alloc, event, Word::BadUi, &[]),
        Outcome::Convicted { counter } => refused_line(alloc, event, Word::Convicted, &[counter]),
        Outcome::Stale { next } => refused_line(alloc, event, Word::Stale, &[next]),
        Outcome::Ahead { next } => refused_line(alloc, event, Word::Ahead, &[next]),
        Outcome::Illegal { rule } => {
            refused_line(alloc, event, Word::Illegal, &[u64::from(rule)])
        }
        Outcome::LaterView { view } => refused_line(alloc, event, Word::LaterView, &[view]),
        Outcome::BeyondWindow { low } => refused_line(alloc, event, Word::BeyondWindow, &[low]),
        Outcome::NeedBody { view, exec } => {
            refused_line(alloc, event, Word::NeedBody, &[view, exec])
        }
        Outcome::BadTag => refused_line(alloc, event, Word::BadTag, &[]),
        Outcome::Unusable { index, reason } => {
            let numbers = [u64::from(index), u64::from(reason)];
            refused_line(alloc, event, Word::Unusable, &numbers)
        }
        Outcome::Old { last } => refused_line(alloc, event, Word::Old, &[last]),
        Outcome::WrongDigest { part } => {
            refused_line(alloc, event, Word::WrongDigest, &[u64::from(part)])
        }
        Outcome::BadState { part, at } => {
            let numbers = [u64::from(part), u64::from(at)];
            refused_line(alloc, event, Word::BadState, &numbers)
        }
        Outcome::Again | Outcome::Stopping | Outcome::Idle | Outcome::Took => Ok(None),
    }
}

/// The line of an event, numbered from 1: the word of its refusal, and the numbers behind it. It is always there. An error comes where memory runs
/// out, and only there.
pub fn refused_line(
    alloc: Global,
    event: u64,
    name: Word,
    numbers: &[u64],
) -> Result<Option<RefusedLine>, AllocError>
    ensures { IfOk result (λ line. line ≡ Some (record { event = event; name = name; numbers = numbers.now })) }
{
    Ok(Some(RefusedLine {
        event,
        name,
        numbers: Items::from_vec(Vec::from_slice(alloc, numbers)?),
    }))
}
