//! The votes for one position.

ghost use Rattle.std.specs.Prelude.{◌≡◌, ◌≤◌, length, is_some, count_by};
ghost use Rattle.std.specs.List.{list_any};
ghost use Rattle.mb_base.specs.Limits.{most_hosts};
ghost use Rattle.mb_votes.specs.Counted.{rank_of, has_rank, greatest_rank};

use mb_base::{Host, Shape};
use mb_model::Vote;
use std::marker::Model;

/// The most hosts of a system, 2f+1 with the greatest f.
const MAX_HOSTS: usize = 2 * Shape::MAX_F as usize + 1;

/// A vote, and how many hosts had given it when it came, its own host among them.
#[derive(Clone, Copy)]
pub(crate) struct Counted {
    vote: Vote,
    rank: u8,
}

/// The vote of each host for one position. It is the search `vote_of` in the history of a host, for one view and position.
///
/// The greatest rank of a vote is the number of hosts that gave it.
#[derive(Drop)]
pub(crate) struct Ballot {
    by_host: [Option<Counted>; MAX_HOSTS],
}

impl Model for Ballot {
    ghost use Rattle.std.specs.Prelude.{List, Option};
    ghost use Rattle.mb_model.specs.declared.known.Vote.{Vote};
    ghost use Rattle.mb_votes.specs.Counted.{votes_of, IsCounted};

    ghost Value = { List (Option Vote) };

    ghost view = { λ b. votes_of b.by_host };

    ghost invariant = { λ b. IsCounted b.by_host };
}

impl Ballot {
    ghost use Rattle.std.specs.Prelude.{◌≡◌, ◌<◌, ◌≤◌, length, replicate, slice_set, is_some, Some, None, count_by, true};
    ghost use Rattle.mb_base.specs.Limits.{most_hosts};
    ghost use Rattle.mb_model.specs.declared.known.Vote.{Vote as VoteValue};
    ghost use Rattle.mb_model.specs.Votes.{is_vote};
    ghost use Rattle.mb_votes.specs.Ballots.{vote_in};

    /// No votes.
    pub(crate) fn new() -> Ballot
        ensures { result ≡ replicate most_hosts None }
    {
        Ballot {
            by_host: [None; MAX_HOSTS],
        }
    }

    /// Whether the host has voted.
    pub(crate) fn has(&self, host: Host) -> bool
        requires { host < most_hosts }
        ensures { result ≡ is_some (vote_in self.now host) }
    {
        self.by_host[usize::from(host)].is_some()
    }

    /// Counts the vote of a host that has none yet.
    pub(crate) fn add(&mut self, host: Host, vote: Vote)
        requires host { host < most_hosts }
        requires first { vote_in self.old host ≡ None }
        ensures wide { length self.old ≡ most_hosts }
        ensures added { self.new ≡ slice_set self.old host (Some vote) }
    {
        let rank = self.matching(&vote) + 1;
        self.by_host[usize::from(host)] = Some(Counted { vote, rank });
    }

    /// How many hosts have voted.
    pub(crate) fn count(&self) -> u8
        ensures { result ≡ count_by is_some self.now }
    {
        count_votes(&self.by_host)
    }

    /// How many hosts have this vote.
    pub(crate) fn matching(&self, vote: &Vote) -> u8
        ensures value { result ≡ count_by (λ v. is_vote v vote.now) self.now }
        ensures few { result ≤ most_hosts }
    {
        greatest_rank(&self.by_host, vote)
    }

    /// Whether so many hosts have equal votes. The number is at least 1.
    pub(crate) fn agrees(&self, quorum: u8) -> bool
        requires { 1 ≤ quorum }
        ensures yes { result ≡ true → (x : VoteValue) × (quorum ≤ count_by (λ v. is_vote v x) self.now) }
        ensures no { (x : VoteValue) → quorum ≤ count_by (λ v. is_vote v x) self.now → result ≡ true }
    {
        any_has_rank(&self.by_host, quorum)
    }
}

fn count_votes(by_host: &[Option<Counted>]) -> u8
    requires { length by_host.now ≤ most_hosts }
    ensures { result ≡ count_by is_some by_host.now }
{
    let mut count = 0;
    for counted in by_host {
        if counted.is_some() {
            count += 1;
        }
    }
    count
}

/// The greatest rank of a vote, 0 where nobody gave it.
fn greatest_rank(by_host: &[Option<Counted>], vote: &Vote) -> u8
    ensures { result ≡ greatest_rank vote.now by_host.now }
{
    let mut most = 0;
    for counted in by_host {
        most = most.max(rank_of(counted, vote));
    }
    most
}

/// Whether some vote has at least this rank.
fn any_has_rank(by_host: &[Option<Counted>], rank: u8) -> bool
    ensures { result ≡ list_any (has_rank rank) by_host.now }
{
    for counted in by_host {
        if has_rank(counted, rank) {
            return true;
        }
    }
    false
}

/// The rank of a vote that is this one, 0 of another.
fn rank_of(counted: &Option<Counted>, vote: &Vote) -> u8
    ensures { result ≡ rank_of vote.now counted.now }
{
    match counted {
        Some(counted) if counted.vote == *vote => counted.rank,
        _ => 0,
    }
}

/// Whether a vote has at least this rank.
fn has_rank(counted: &Option<Counted>, rank: u8) -> bool
    ensures { result ≡ has_rank rank counted.now }
{
    match counted {
        Some(counted) => rank <= counted.rank,
        None => false,
    }
}
