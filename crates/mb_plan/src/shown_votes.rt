//! The votes that a shown log has since its last opening, or in it, for the positions behind a base: the place at index i is that of the position
//! base + 1 + i.

ghost use Rattle.std.specs.Prelude.{◌≡◌, ◌<◌, ◌≤◌, ◌-◌, ◌∷◌, ℕ, List, [], length, nat_lt, slice_set, option_map, if◌then◌else◌};
ghost use Rattle.mb_base.specs.Limits.{plan_limit};
ghost use Rattle.mb_msg.specs.declared.stamped.Shown.{Shown as TheEntry};
ghost use Rattle.mb_model.specs.UsableLogs.{newest_first};
ghost use Rattle.mb_model.specs.Plans.{vote_with, plan_vote, vote_since, lower_vote};
ghost use Rattle.mb_parts.specs.Fits.{IsPlace};
ghost use Rattle.mb_plan.specs.Lent.{vote, vote_at, AreVotes};

use mb_base::{Counter, Pos, Shape};
use mb_msg::{Batch, Body, OpenBody, Shown};

/// The most positions that a plan carries on: the greatest span of a system.
pub(crate) const MOST: usize = 2 * Shape::MAX_K as usize;

/// A vote that a log shows: the primary's counter, and the batch.
#[derive(Clone, Copy)]
pub(crate) struct ShownVote<'a> {
    pub(crate) counter: Counter,
    pub(crate) batch: &'a Batch,
}

/// A vote with this counter, where its batch is shown.
fn vote_with(counter: Counter, body: &Body<Batch>) -> Option<ShownVote<'_>>
    ensures { option_map vote result ≡ vote_with counter body.now }
{
    match body {
        Body::Whole(batch) => Some(ShownVote { counter, batch }),
        Body::Bare(_) => None,
    }
}

/// An OPEN's vote for a position behind the base of its plan.
fn plan_vote(base: Pos, counter: Counter, pos: Pos, body: &Body<OpenBody>) -> Option<ShownVote<'_>>
    ensures { option_map vote result ≡ plan_vote base counter pos body.now }
{
    let Body::Whole(body) = body else {
        return None;
    };
    if base >= pos {
        return None;
    }
    let batch = body.batches.as_slice().get((pos - base - 1) as usize)?;
    Some(ShownVote { counter, batch })
}

/// The vote for a position with one more entry.
fn vote_by<'a>(pos: Pos, entry: &'a Shown, before: Option<ShownVote<'a>>) -> Option<ShownVote<'a>>
    ensures { (l : List TheEntry) → option_map vote before.entry ≡ vote_since pos l → option_map vote result ≡ vote_since pos (entry.now ∷ l) }
{
    match entry {
        Shown::Prepare(m) if m.pos == pos => vote_with(m.ui.counter, &m.body),
        Shown::Commit(m) if m.pos == pos => vote_with(m.counter, &m.body),
        Shown::Open(m) => plan_vote(m.evidence.base, m.evidence.counter, pos, &m.body),
        Shown::Join(_) => None,
        _ => before,
    }
}

/// Puts a vote at the place of its position, where there is one. The places stand for the positions behind a base.
#[tactic(auto, using(std::proofs::lemmas::List::set_past))]
fn put<'a>(votes: &mut [Option<ShownVote<'a>>], base: Pos, pos: Pos, vote: Option<ShownVote<'a>>)
    ensures { votes.new ≡ (if nat_lt base pos then slice_set votes.old (pos - base - 1) vote.entry else votes.old) }
{
    if base < pos && pos - base - 1 < votes.len() as u64 {
        votes[(pos - base - 1) as usize] = vote;
    }
}

/// The votes with one more entry, place by place.
fn note_everywhere<'a>(votes: &mut [Option<ShownVote<'a>>], base: Pos, entry: &'a Shown)
    requires { IsPlace base × (length votes.old ≤ plan_limit) }
    ensures { (l : List TheEntry) → AreVotes votes.old base l → AreVotes votes.new base (entry.now ∷ l) }
{
    for index in 0..votes.len() {
        votes[index] = vote_by(base + 1 + index as u64, entry, votes[index]);
    }
}

/// The votes with one more entry. A vote changes its own place alone.
fn note<'a>(votes: &mut [Option<ShownVote<'a>>], base: Pos, entry: &'a Shown)
    requires { IsPlace base × (length votes.old ≤ plan_limit) }
    ensures { (l : List TheEntry) → AreVotes votes.old base l → AreVotes votes.new base (entry.now ∷ l) }
{
    match entry {
        Shown::Prepare(m) => put(votes, base, m.pos, vote_with(m.ui.counter, &m.body)),
        Shown::Commit(m) => put(votes, base, m.pos, vote_with(m.counter, &m.body)),
        Shown::Open(_) | Shown::Join(_) => note_everywhere(votes, base, entry),
        _ => {}
    }
}

/// The votes behind a base that a log has since its last opening, or in it, in one go through its entries.
pub(crate) fn votes_in<'a>(entries: &'a [Shown], base: Pos) -> [Option<ShownVote<'a>>; MOST]
    requires { IsPlace base }
    ensures { AreVotes result base (newest_first [] entries.now) }
{
    let mut votes = [None; MOST];
    for entry in entries {
        note(&mut votes, base, entry);
    }
    votes
}

/// The one with the lower counter, of equal ones the first.
fn lower_vote<'a>(
    first: Option<ShownVote<'a>>,
    second: Option<ShownVote<'a>>,
) -> Option<ShownVote<'a>>
    ensures { option_map vote result ≡ lower_vote (option_map vote first.entry) (option_map vote second.entry) }
{
    match (first, second) {
        (Some(a), Some(b)) if a.counter <= b.counter => Some(a),
        (Some(_), Some(b)) => Some(b),
        (Some(a), None) => Some(a),
        (None, b) => b,
    }
}

/// The lower of two votes, place by place.
pub(crate) fn lower_votes<'a>(lowest: &mut [Option<ShownVote<'a>>], votes: &[Option<ShownVote<'a>>])
    requires { length lowest.old ≡ length votes.now }
    ensures { (i : ℕ) → i < length lowest.new → vote_at lowest.new i ≡ lower_vote (vote_at lowest.old i) (vote_at votes.now i) }
{
    for index in 0..votes.len() {
        lowest[index] = lower_vote(lowest[index], votes[index]);
    }
}
