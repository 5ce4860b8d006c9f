//! What is known of each message, by its number: that nothing in it is forged, and the digest of its body.

ghost use Rattle.std.specs.Prelude.{◌≡◌, ◌++◌, ℕ, map, take, OnOk};
ghost use Rattle.mb_members.specs.Marks.{MarkedMore, lengthened, sent_mark, mark_at};

use mb_base::{Digest, NoMemory};
use mb_replica::Outgoing;

/// What is known of the message of a number.
#[derive(Clone, Copy)]
pub struct Mark {
    /// It is known that nothing in it is forged: a correct host sent it, or it was looked through.
    pub clean: bool,
    /// The digest of its body, where a correct host stamped it.
    pub body: Option<Digest>,
}

/// Of the message of a number nothing is known.
const UNMARKED: Mark = Mark {
    clean: false,
    body: None,
};

/// What is known of the message of a number, from 1: nothing where no mark stands there.
pub fn mark_of(marks: &[Mark], number: u64) -> Mark
    ensures { result ≡ mark_at marks.now number }
{
    if number < marks.len() as u64 {
        return marks[number as usize];
    }
    UNMARKED
}

/// As many marks as this, of which the new ones say nothing.
fn lengthen(marks: &mut Vec<Mark>, count: usize) -> Result<(), NoMemory>
    ensures { OnOk result (marks.new.items ≡ lengthened marks.old.items count) }
{
    let missing = count.saturating_sub(marks.len());
    for _ in 0..missing {
        marks.push(UNMARKED)?;
    }
    Ok(())
}

/// The message of a number below `count` was looked through, and nothing in it is forged. All else that is known stays. An error comes where memory
/// runs out, and only there.
pub fn note_clean(marks: &mut Vec<Mark>, count: usize, number: u64) -> Result<(), NoMemory>
    ensures { OnOk result ((n : ℕ) → MarkedMore marks.old.items marks.new.items number n) }
{
    lengthen(marks, count)?;
    if number < marks.len() as u64 {
        marks[number as usize].clean = true;
    }
    Ok(())
}

/// Behind the numbers below `count` a correct host sent these messages, in this order: nothing in them is forged, and of each the digest of its body is
/// known, where it is stamped. An error comes where memory runs out, and only there.
pub fn note_sent(marks: &mut Vec<Mark>, count: usize, sent: &[Outgoing]) -> Result<(), NoMemory>
    ensures { OnOk result (marks.new.items ≡ take count (lengthened marks.old.items count) ++ map sent_mark sent.now) }
{
    lengthen(marks, count)?;
    marks.truncate(count);
    for outgoing in sent {
        marks.push(sent_mark(outgoing))?;
    }
    Ok(())
}

/// What is known of a message that a correct host just sent. Nothing in it is forged, so nobody looks it through.
fn sent_mark(outgoing: &Outgoing) -> Mark
    ensures { result ≡ sent_mark outgoing.now }
{
    Mark {
        clean: true,
        body: match &outgoing.said {
            Some(said) => Some(said.body),
            None => None,
        },
    }
}
