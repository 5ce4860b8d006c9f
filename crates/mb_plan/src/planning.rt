//! The plan that f+1 usable VIEW_CHANGEs leave to the next view.

ghost use Rattle.std.specs.Prelude.{◌≡◌, ◌≤◌, ◌<◌, ◌+◌, ◌∷◌, ◌++◌, ◌^◌, [], List, map, length, option_map, IfOk, OnOk, IsTrue};
ghost use Rattle.std.specs.List.{AllByRecursion, cons_option};
ghost use Rattle.mb_base.specs.Limits.{plan_limit};
ghost use Rattle.mb_base.specs.Shapes.{span};
ghost use Rattle.mb_parts.specs.declared.certificates.StableCert.{StableCert as TheCert};
ghost use Rattle.mb_parts.specs.Fits.{IsPlace, CanDigest};
ghost use Rattle.mb_msg.specs.Fits.{FitsChangeBody, FitsMember};
ghost use Rattle.mb_model.specs.Plans.{ShownLog as TheLog, by_host, newest, base_shown, stable_of, opening_bases, highest_view, of_view, base_of, lowest_vote, batches_from, plan_in_order};
ghost use Rattle.mb_model.specs.Held.{logs_of};
ghost use Rattle.mb_plan.specs.Lent.{shown, AreLowest};
ghost use Rattle.mb_plan.specs.Looked.{AreLooked};
ghost use Rattle.mb_plan.specs.Planned.{first_greatest, further, are_quorum, Leaves};

use crate::last_openings::base_in;
use crate::logs::{ShownLog, by_host, highest_view, of_view};
use crate::looked::{Place, digest_at};
use crate::shown_votes::{MOST, ShownVote, lower_votes, votes_in};
use mb_base::{Duplicate, Items, NoMemory, Pos, Shape};
use mb_msg::{Batch, Plan, StableCert, ViewChange};
use std::alloc::Global;

/// Why there is no plan.
#[derive(Clone, Copy, Debug, PartialEq, Eq)]
pub enum PlanFault {
    /// They are not f+1 VIEW_CHANGEs of different hosts.
    Few,
    NoMemory,
}

impl From<NoMemory> for PlanFault {
    ghost use Rattle.std.specs.Prelude.{◌≡◌};
    ghost use Rattle.mb_plan.specs.declared.planning.PlanFault.TheVariants as variants;

    ghost from_gives = { λ _ proof. proof ≡ variants.NoMemory };

    fn from(_e: NoMemory) -> PlanFault {
        PlanFault::NoMemory
    }
}

/// The one with the greater position, of equal ones the first.
fn further<'a>(first: &'a StableCert, second: &'a StableCert) -> &'a StableCert
    ensures { result.now ≡ further first.now second.now }
{
    if first.pos < second.pos {
        second
    } else {
        first
    }
}

/// The first of the greatest stable certificates that logs show.
fn stable_base<'a>(logs: &[ShownLog<'a>]) -> &'a StableCert
    requires { 0 < length logs.now }
    ensures { (more : List TheCert) → first_greatest (result.now ∷ more) ≡ first_greatest (map stable_of (map shown logs.now) ++ more) }
{
    let first = logs[0].body;
    let mut base = &first.stable;
    for log in logs {
        let body = log.body;
        base = further(base, &body.stable);
    }
    base
}

/// The base of a log's last opening where it is greater.
fn further_opening<'a>(base: &'a StableCert, log: &ShownLog<'a>) -> &'a StableCert
    ensures { (more : List TheCert) → first_greatest (result.now ∷ more) ≡ first_greatest (base.now ∷ cons_option (base_shown (newest (shown log.now))) more) }
{
    match base_in(log.body.entries.as_slice()) {
        Some(cert) => further(base, cert),
        None => base,
    }
}

/// The greatest of this certificate and, behind it, the bases of the last openings.
fn opening_base<'a>(stable: &'a StableCert, voters: &[ShownLog<'a>]) -> &'a StableCert
    ensures { result.now ≡ first_greatest (stable.now ∷ opening_bases (map shown voters.now)) }
{
    let mut base = stable;
    for log in voters {
        base = further_opening(base, log);
    }
    base
}

/// The votes behind a base that have the lowest counters. Each log is gone through once.
fn lowest_votes<'a>(voters: &[ShownLog<'a>], base: Pos) -> [Option<ShownVote<'a>>; MOST]
    requires { IsPlace base }
    ensures wide { length result ≡ plan_limit }
    ensures lowest { AreLowest result base (map shown voters.now) }
{
    let mut lowest = [None; MOST];
    for log in voters {
        let votes = votes_in(log.body.entries.as_slice(), base);
        lower_votes(&mut lowest, &votes);
    }
    lowest
}

/// The base of a plan: the greatest certificate, of equal ones the first.
fn base_of<'a>(shape: &Shape, logs: &[ShownLog<'a>], voters: &[ShownLog<'a>]) -> &'a StableCert
    requires fits { (0 < length logs.now) × AllByRecursion (λ (l : TheLog). FitsChangeBody shape.now l.body) (map shown logs.now) }
    requires of { map shown voters.now ≡ of_view (highest_view (map shown logs.now)) (map shown logs.now) }
    ensures base { result.now ≡ base_of (map shown logs.now) }
    ensures place { IsPlace result.now.pos }
{
    opening_base(stable_base(logs), voters)
}

/// A copy of one more batch at the end, which keeps its digest. `places` is what was found of the votes that logs show.
fn push_copy(
    alloc: Global,
    places: &[Place<'_>],
    batches: &mut Items<Batch>,
    pos: Pos,
    batch: &Batch,
) -> Result<(), NoMemory>
    requires { AreLooked places.now × CanDigest batch.now }
    ensures { OnOk result (batches.new ≡ batches.old ++ batch.now ∷ []) }
{
    let copy = batch.duplicate(alloc)?;
    let digest = digest_at(places, pos, batch);
    batches.push(copy.with_digest(digest))?;
    Ok(())
}

/// The batches voted for behind a base, as far as they are consecutive; at most the span. Each keeps its digest.
#[tactic(auto, using(crate::proofs::Consecutive::batches_begin))]
fn batches_from(
    alloc: Global,
    shape: &Shape,
    places: &[Place<'_>],
    voters: &[ShownLog<'_>],
    base: Pos,
) -> Result<Items<Batch>, NoMemory>
    requires fits { IsPlace base × AllByRecursion (λ (l : TheLog). FitsChangeBody shape.now l.body) (map shown voters.now) }
    requires places { AreLooked places.now }
    ensures { IfOk result (λ batches. batches ≡ batches_from (map shown voters.now) (base + 1) (span shape.now)) }
{
    let votes = lowest_votes(voters, base);
    let most = shape.span() as usize;
    let mut batches = Items::new(alloc);
    for step in 0..most {
        let lowest = votes[step];
        let pos = base + 1 + step as u64;
        match lowest {
            None => return Ok(batches),
            Some(vote) => push_copy(alloc, places, &mut batches, pos, vote.batch)?,
        }
    }
    Ok(batches)
}

/// The plan of logs that stand by rising host.
#[tactic(auto, unfolding(mb_model::specs::Plans::plan_in_order))]
fn plan_in_order(
    alloc: Global,
    shape: &Shape,
    places: &[Place<'_>],
    logs: &[ShownLog<'_>],
) -> Result<Plan, NoMemory>
    requires fits { (0 < length logs.now) × AllByRecursion (λ (l : TheLog). FitsChangeBody shape.now l.body) (map shown logs.now) }
    requires places { AreLooked places.now }
    ensures { IfOk result (λ plan. plan ≡ plan_in_order shape.now (map shown logs.now)) }
{
    let voters = of_view(alloc, highest_view(logs), logs)?;
    let base = base_of(shape, logs, voters.as_slice());
    let batches = batches_from(alloc, shape, places, voters.as_slice(), base.pos)?;
    let base = base.duplicate(alloc)?;
    Ok(Plan { base, batches })
}

/// Whether there are f+1 VIEW_CHANGEs, of f+1 hosts. The logs are theirs.
fn are_quorum(shape: &Shape, changes: &[ViewChange], logs: &[ShownLog<'_>]) -> bool
    requires { map shown logs.now ≡ by_host shape.now (logs_of changes.now) }
    ensures value { result ≡ are_quorum shape.now changes.now }
    ensures some { IsTrue result → 0 < length logs.now }
{
    let quorum = usize::from(shape.quorum());
    changes.len() == quorum && logs.len() == quorum
}

/// What VIEW_CHANGEs leave to the next view, as [`plan_of`] says. `places` is what was found of the votes that they show: a batch of which the digest
/// was found is not hashed.
#[tactic(auto, using(crate::proofs::PlanFits::by_host_fit))]
pub(crate) fn plan_beside(
    alloc: Global,
    shape: &Shape,
    places: &[Place<'_>],
    changes: &[ViewChange],
) -> Result<Plan, PlanFault>
    requires fits { AllByRecursion (FitsMember shape.now) changes.now }
    requires places { AreLooked places.now }
    ensures { Leaves shape.now changes.now result }
{
    let logs = by_host(alloc, shape, changes)?;
    if !are_quorum(shape, changes, logs.as_slice()) {
        return Err(PlanFault::Few);
    }
    Ok(plan_in_order(alloc, shape, places, logs.as_slice())?)
}

/// What VIEW_CHANGEs for one view leave to it: its base is the greatest of their stable certificates and of the bases of the last openings of the
/// highest opened view; behind it stands at each position, up to the first without a vote, the batch that was voted for in that view with the
/// primary's lowest counter. Each is whole, usable, and has an allowed value in each field. `Few` tells that they are not f+1 of different hosts,
/// `NoMemory` that memory ran out, and nothing of them. The batches keep their digests. (MinBFT's view change, where a new view goes on from f+1
/// VIEW-CHANGEs.)
pub fn plan_of(alloc: Global, shape: &Shape, changes: &[ViewChange]) -> Result<Plan, PlanFault>
    requires { AllByRecursion (FitsMember shape.now) changes.now }
    ensures { Leaves shape.now changes.now result }
{
    plan_beside(alloc, shape, &[], changes)
}
