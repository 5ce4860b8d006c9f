//! The votes in the lists of hosts, those of OPENs by their plans.

ghost use Rattle.std.specs.Prelude.{OnOk};
ghost use Rattle.mb_learn.specs.Tables.{text_of, IsLowPlan, votes_so, votes_with, by_openings, AddsVotes};

use crate::heard::{Heard, Opening};
use crate::plans::KnownPlan;
use crate::votes::{Cast, Votes};
use mb_base::{Host, NoMemory, Pos, View};
use mb_model::Vote;
use mb_msg::{Open, Stamped};
use std::alloc::Global;

impl Heard {
    ghost use Rattle.std.specs.Prelude.{◌≡◌, ◌^◌, ◌<◌, OnOk};
    ghost use Rattle.mb_msg.specs.declared.stamped.Stamped.TheVariants as stamped;
    ghost use Rattle.mb_msg.specs.Stamps.{ui_of, bare_of};
    ghost use Rattle.mb_certified.specs.Certified.{IsBareStamp};
    ghost use Rattle.mb_learn.specs.Tables.{AddsCast, AddsVotes, plan_at, by_plan};
    ghost use Rattle.mb_learn.specs.Hearing.{IsReady, CountsOnly, CountsToo};

    /// Counts the votes of a message that is in the list of its host.
    pub(crate) fn count(&mut self, alloc: Global, stamp: &Stamped) -> Result<(), NoMemory>
        requires bare { IsBareStamp self.old.shape stamp.now }
        requires ready { IsReady self.old }
        ensures counts { OnOk result (CountsToo (ui_of stamp.now).host (ui_of stamp.now).counter (bare_of stamp.now) self.old self.new) }
        ensures rest { OnOk result (CountsOnly self.old self.new) }
    {
        match stamp {
            Stamped::Prepare(m) => {
                let vote = Vote {
                    counter: m.ui.counter,
                    request: m.body.batch_digest(),
                };
                self.cast(alloc, m.ui.host, m.view, m.pos, vote)
            }
            Stamped::Commit(m) => {
                let vote = Vote {
                    counter: m.counter,
                    request: m.body.batch_digest(),
                };
                self.cast(alloc, m.ui.host, m.view, m.pos, vote)
            }
            Stamped::Open(m) => self.count_open(alloc, m),
            _ => Ok(()),
        }
    }

    fn cast(
        &mut self,
        alloc: Global,
        host: Host,
        view: View,
        pos: Pos,
        vote: Vote,
    ) -> Result<(), NoMemory>
        requires { pos < 2 ^ 63 }
        ensures adds { OnOk result (AddsCast self.old.votes pos (record { host = host; view = view; vote = vote }) self.new.votes) }
        ensures openings { self.new.openings ≡ self.old.openings }
        ensures rest { OnOk result (CountsOnly self.old self.new) }
    {
        self.votes.add(alloc, pos, Cast { host, view, vote })
    }

    /// Counts the votes of an OPEN, as far as its plan is known. If not, they are counted once it is.
    fn count_open(&mut self, alloc: Global, m: &Open) -> Result<(), NoMemory>
        requires ready { IsReady self.old }
        ensures counts { OnOk result (CountsToo m.now.ui.host m.now.ui.counter (bare_of (stamped.Open m.now)) self.old self.new) }
        ensures rest { OnOk result (CountsOnly self.old self.new) }
    {
        let opening = Opening {
            host: m.ui.host,
            view: m.evidence.view,
            counter: m.evidence.counter,
            plan: m.evidence.plan,
        };
        self.count_opening(alloc, &opening)?;
        self.openings.push(opening)?;
        Ok(())
    }

    /// Counts the votes of an opening, where its plan is known.
    fn count_opening(&mut self, alloc: Global, opening: &Opening) -> Result<(), NoMemory>
        requires ready { IsReady self.old }
        ensures votes { OnOk result (AddsVotes (by_plan opening.now (plan_at self.old.plans opening.now.plan)) self.old.votes self.new.votes) }
        ensures openings { self.new.openings ≡ self.old.openings }
        ensures rest { OnOk result (CountsOnly self.old self.new) }
    {
        match self.plans.get(&opening.plan) {
            Some(plan) => count_plan(alloc, &mut self.votes, opening, plan),
            None => Ok(()),
        }
    }
}

/// Counts the votes of all these openings that have the plan's digest.
pub(crate) fn count_all(
    alloc: Global,
    votes: &mut Votes,
    openings: &[Opening],
    plan: &KnownPlan,
) -> Result<(), NoMemory>
    requires { IsLowPlan plan.now }
    ensures { OnOk result (AddsVotes (by_openings openings.now plan.now) votes.old votes.new) }
{
    for opening in openings {
        count_one(alloc, votes, opening, plan)?;
    }
    Ok(())
}

/// Counts the votes of an OPEN, where it has the plan's digest.
fn count_one(
    alloc: Global,
    votes: &mut Votes,
    opening: &Opening,
    plan: &KnownPlan,
) -> Result<(), NoMemory>
    requires { IsLowPlan plan.now }
    ensures { OnOk result (AddsVotes (votes_with plan.now opening.now) votes.old votes.new) }
{
    if opening.plan != plan.digest {
        return Ok(());
    }
    count_plan(alloc, votes, opening, plan)
}

/// Counts the votes of an OPEN whose plan is this one.
fn count_plan(
    alloc: Global,
    votes: &mut Votes,
    opening: &Opening,
    plan: &KnownPlan,
) -> Result<(), NoMemory>
    requires { IsLowPlan plan.now }
    ensures { OnOk result (AddsVotes (votes_so opening.now (text_of plan.now)) votes.old votes.new) }
{
    let mut pos = plan.base;
    for digest in plan.batches.as_slice() {
        pos += 1;
        let vote = Vote {
            counter: opening.counter,
            request: *digest,
        };
        let cast = Cast {
            host: opening.host,
            view: opening.view,
            vote,
        };
        votes.add(alloc, pos, cast)?;
    }
    Ok(())
}
