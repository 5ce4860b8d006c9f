//! The line of a refused event.

ghost use Rattle.std.specs.Prelude.{◌≡◌, ◌++◌, IfOk, OnOk};
ghost use Rattle.std.specs.Option.{option_to_list};
ghost use Rattle.mb_world_model.specs.Refusals.{refusal_in};
ghost use Rattle.mb_world.specs.Answers.{as_answer};

use crate::seen::Seen;
use mb_base::NoMemory;
use mb_client::Taken;
use mb_members::{outcome_line, refused_line};
use mb_schedule::{RefusedLine, Word};
use std::alloc::{AllocError, Global};

/// Appends the line of an event's answer, where that is a refusal.
pub(crate) fn note_refusal(
    alloc: Global,
    refused: &mut Vec<RefusedLine>,
    event: u64,
    seen: Seen,
) -> Result<(), NoMemory>
    ensures { OnOk result (refused.new.items ≡ refused.old.items ++ option_to_list (refusal_in event (as_answer seen))) }
{
    if let Some(line) = refusal(alloc, event, seen)? {
        refused.push(line)?;
    }
    Ok(())
}

/// The line of an event, numbered from 1, that answered this. None where that is no refusal. An error comes where memory runs out, and only there.
pub fn refusal(alloc: Global, event: u64, seen: Seen) -> Result<Option<RefusedLine>, AllocError>
    ensures { IfOk result (λ line. line ≡ refusal_in event (as_answer seen)) }
{
    match seen {
        Seen::Host(outcome) | Seen::Unread(outcome) => outcome_line(alloc, event, outcome),
        Seen::Client(Taken::BadTag) => refused_line(alloc, event, Word::BadTag, &[]),
        Seen::Client(Taken::OtherSeq { seq }) => {
            refused_line(alloc, event, Word::OtherSeq, &[seq])
        }
        Seen::Client(Taken::Waiting { .. } | Taken::Accepted { .. })
        | Seen::Made { .. }
        | Seen::Lost => Ok(None),
    }
}
