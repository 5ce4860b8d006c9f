//! The votes of hosts for the positions of a window.

ghost use Rattle.std.specs.Prelude.{◌≡◌, ◌<◌, ◌≤◌, ◌+◌, ◌-◌, ◌^◌, false, length, None, IsTrue};
ghost use Rattle.mb_base.specs.Limits.{most_hosts};
ghost use Rattle.mb_base.specs.Shapes.{span};
ghost use Rattle.mb_window.specs.Places.{item_at};
ghost use Rattle.mb_votes.specs.Ballots.{vote_at, with_vote, HasPlaces, AreOfHosts};

use crate::ballot::Ballot;
use mb_base::{Host, NoMemory, Pos, Shape};
use mb_model::Vote;
use mb_window::{Refused, Window};
use std::alloc::Global;

/// For each host and each position of the window, the vote that came first: the search `vote_of` in a host's history, in the view of the host.
///
/// All memory is taken as it is made.
#[derive(Drop)]
pub struct Votes {
    shape: Shape,
    ballots: Window<Ballot>,
    ghost top: { ballots.low + span shape ≤ 2 ^ 64 - 2 },
    ghost span_is: { length ballots.items ≡ span shape },
    ghost hosts_are: { AreOfHosts shape ballots },
}

impl Votes {
    ghost use Rattle.std.specs.Prelude.{◌≡◌, ◌≤◌, ◌<◌, ◌+◌, ◌-◌, ◌^◌, ℕ, Option, true, is_some, None, IfOk, OnOk, OnErr};
    ghost use Rattle.mb_base.specs.Shapes.{host_count, span};
    ghost use Rattle.mb_base.specs.declared.shape.Shape.{Shape as ShapeValue};
    ghost use Rattle.mb_model.specs.declared.known.Vote.{Vote as VoteValue};
    ghost use Rattle.mb_votes.specs.Ballots.{vote_at};
    ghost use Rattle.mb_votes.specs.Votes.{Represents, StandsWith, StandsAbove, Refuses, voters, matching, Agrees, IsReady};

    /// No votes.
    pub fn make(alloc: Global, shape: Shape, low: Pos) -> Result<Votes, NoMemory>
        requires { low + span shape ≤ 2 ^ 64 - 2 }
        ensures nothing { IfOk result (λ t. Represents shape t low (λ h p. None)) }
        ensures low { IfOk result (λ t. t.ballots.low ≡ low) }
    {
        Ok(Votes {
            shape,
            ballots: Window::make(alloc, low, shape.span())?,
        })
    }

    /// Counts the first vote of a host for a position. Where it is refused nothing changes. It takes no memory.
    pub fn add(&mut self, pos: Pos, host: Host, vote: Vote) -> Result<(), Refused<Vote>>
        requires { host < host_count self.old.shape }
        ensures refused { Refuses self.old pos host vote result }
        ensures stands { OnOk result (StandsWith self.old pos host vote self.new) }
        ensures low { self.new.ballots.low ≡ self.old.ballots.low }
        ensures err { OnErr result (self.new ≡ self.old) }
    {
        let low = self.ballots.low();
        if pos <= low {
            return Err(Refused::Below { low, item: vote });
        }
        if pos - low > u64::from(self.shape.span()) {
            return Err(Refused::Beyond { low, item: vote });
        }
        if self.has(pos, host) {
            return Err(Refused::Filled { item: vote });
        }
        count_vote(&mut self.ballots, pos, host, vote);
        Ok(())
    }

    /// Whether a host has voted for a position.
    fn has(&self, pos: Pos, host: Host) -> bool
        requires { host < host_count self.now.shape }
        ensures { result ≡ is_some (vote_at self.now.ballots host pos) }
    {
        match self.ballots.get(pos) {
            Some(ballot) => ballot.has(host),
            None => false,
        }
    }

    /// How many hosts have voted for a position.
    pub fn count(&self, pos: Pos) -> u8
        ensures { (s : ShapeValue) (low : ℕ) (search : ℕ → ℕ → Option VoteValue) → Represents s self.now low search → result ≡ voters s search pos }
    {
        match self.ballots.get(pos) {
            Some(ballot) => ballot.count(),
            None => 0,
        }
    }

    /// How many hosts have this vote for a position.
    pub fn matching(&self, pos: Pos, vote: &Vote) -> u8
        ensures { (s : ShapeValue) (low : ℕ) (search : ℕ → ℕ → Option VoteValue) → Represents s self.now low search → result ≡ matching s search pos vote.now }
    {
        match self.ballots.get(pos) {
            Some(ballot) => ballot.matching(vote),
            None => 0,
        }
    }

    /// The lowest position above the low end at which f+1 different hosts have equal votes. It takes no memory.
    pub fn ready(&self) -> Option<Pos>
        ensures { (s : ShapeValue) (low : ℕ) (search : ℕ → ℕ → Option VoteValue) → Represents s self.now low search → IsReady s search low result }
    {
        let low = self.ballots.low();
        for step in 0..u64::from(self.shape.span()) {
            if self.agrees(low + 1 + step) {
                return Some(low + 1 + step);
            }
        }
        None
    }

    /// Whether f+1 different hosts have equal votes for a position.
    fn agrees(&self, pos: Pos) -> bool
        ensures yes { result ≡ true → Agrees self.now.shape (vote_at self.now.ballots) pos }
        ensures no { Agrees self.now.shape (vote_at self.now.ballots) pos → result ≡ true }
    {
        match self.ballots.get(pos) {
            Some(ballot) => ballot.agrees(self.shape.quorum()),
            None => false,
        }
    }

    /// Raises the low end. The votes up to it are gone. It takes no memory.
    pub fn raise(&mut self, low: Pos)
        requires low { self.old.ballots.low ≤ low }
        requires top { low + span self.old.shape ≤ 2 ^ 64 - 2 }
        ensures { StandsAbove self.old low self.new }
    {
        self.ballots.raise(low);
    }

    /// No votes any more. It takes no memory.
    pub fn clear(&mut self)
        ensures { Represents self.old.shape self.new self.old.ballots.low (λ h p. None) }
    {
        self.ballots.clear();
    }
}

/// Counts the vote of a host that has none yet for a position of the window.
fn count_vote(ballots: &mut Window<Ballot>, pos: Pos, host: Host, vote: Vote)
    requires host { host < most_hosts }
    requires above { ballots.old.low < pos }
    requires within { pos ≤ ballots.old.low + length ballots.old.items }
    requires first { vote_at ballots.old host pos ≡ None }
    ensures counted { ballots.new ≡ with_vote ballots.old pos host vote }
    ensures wide { HasPlaces ballots.old pos }
{
    if mark(ballots, pos, host, vote) {
        return;
    }
    let mut ballot = Ballot::new();
    ballot.add(host, vote);
    let _put = ballots.put(pos, ballot);
}

/// Adds a vote to the ballot of a position, where there is one.
fn mark(ballots: &mut Window<Ballot>, pos: Pos, host: Host, vote: Vote) -> bool
    requires host { host < most_hosts }
    requires first { vote_at ballots.old host pos ≡ None }
    ensures marked { IsTrue result → ballots.new ≡ with_vote ballots.old pos host vote }
    ensures wide { HasPlaces ballots.old pos }
    ensures same { result ≡ false → (ballots.new ≡ ballots.old) × (item_at ballots.old pos ≡ None) }
{
    match ballots.get_mut(pos) {
        Some(ballot) => {
            ballot.add(host, vote);
            true
        }
        None => false,
    }
}
