//! The votes for positions that are not executed yet.

ghost use Rattle.std.specs.Prelude.{◌≡◌};
ghost use Rattle.mb_learn.specs.Tables.{is_among};

use mb_base::{Host, Items, NoMemory, Pos, Shape, View};
use mb_model::Vote;
use std::alloc::Global;
use std::collections::BTreeMap;

/// The vote of a host in a view.
#[derive(Clone, Copy, PartialEq, Eq)]
pub(crate) struct Cast {
    pub(crate) host: Host,
    pub(crate) view: View,
    pub(crate) vote: Vote,
}

/// For each position above the last executed one, the votes that were found for it.
#[derive(Drop)]
pub(crate) struct Votes {
    /// The last executed position.
    executed: Pos,
    by_position: BTreeMap<Pos, Items<Cast>>,
}

impl Votes {
    ghost use Rattle.std.specs.Prelude.{◌≡◌, ◌+◌, ◌<◌, ◌^◌, ℕ, [], OnOk, IsSome};
    ghost use Rattle.std.specs.Ordering.{nat_cmp};
    ghost use Rattle.std.specs.BTreeMap.{btree_map_len, get};
    ghost use Rattle.mb_base.specs.Shapes.{host_count, tally};
    ghost use Rattle.mb_learn.specs.Tables.{casts_at, is_among, AddsCast, Raises};

    /// No votes, and nothing is executed.
    pub(crate) fn make(alloc: Global) -> Votes
        ensures executed { result.executed ≡ 0 }
        ensures none { (p : ℕ) → casts_at result p ≡ [] }
    {
        Votes {
            executed: 0,
            by_position: BTreeMap::new(alloc),
        }
    }

    /// One more vote. It is passed over where its position is executed.
    pub(crate) fn add(&mut self, alloc: Global, pos: Pos, cast: Cast) -> Result<(), NoMemory>
        ensures { OnOk result (AddsCast self.old pos cast self.new) }
    {
        if pos <= self.executed {
            return Ok(());
        }
        let casts = self.by_position.entry(pos)?.or_insert(Items::new(alloc));
        casts.push(cast)?;
        Ok(())
    }

    /// The votes for the next position.
    pub(crate) fn at_next(&self) -> &[Cast]
        requires { self.now.executed + 1 < 2 ^ 64 }
        ensures { result.now ≡ casts_at self.now (self.now.executed + 1) }
    {
        match self.by_position.get(&self.next()) {
            Some(casts) => casts.as_slice(),
            None => &[],
        }
    }

    /// How many hosts have this vote for the next position.
    #[tactic(auto, using(crate::proofs::Tallies::tally_more))]
    pub(crate) fn voters(&self, shape: &Shape, view: View, vote: &Vote) -> u8
        requires { self.now.executed + 1 < 2 ^ 64 }
        ensures { result ≡ tally (λ h. is_among (casts_at self.now (self.now.executed + 1)) h view vote.now) (host_count shape.now) }
    {
        let casts = self.at_next();
        let mut count = 0;
        for host in 0..shape.n() {
            if has_vote(casts, host, view, vote) {
                count += 1;
            }
        }
        count
    }

    /// The position behind the last executed one.
    pub(crate) fn next(&self) -> Pos
        requires { self.now.executed + 1 < 2 ^ 64 }
        ensures { result ≡ self.now.executed + 1 }
    {
        self.executed + 1
    }

    /// The next position is executed. Its votes go.
    pub(crate) fn raise(&mut self)
        requires { self.old.executed + 1 < 2 ^ 64 }
        ensures raises { Raises self.old self.new }
        ensures fewer { IsSome (get nat_cmp self.old.by_position (self.old.executed + 1)) → btree_map_len self.new.by_position < btree_map_len self.old.by_position }
    {
        let next = self.next();
        let _votes = self.by_position.remove(&next);
        self.executed = next;
    }
}

/// Whether a host has this vote among these.
fn has_vote(casts: &[Cast], host: Host, view: View, vote: &Vote) -> bool
    ensures { result ≡ is_among casts.now host view vote.now }
{
    let wanted = Cast {
        host,
        view,
        vote: *vote,
    };
    casts.contains(&wanted)
}
