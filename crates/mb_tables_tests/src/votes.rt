ghost use Rattle.std.specs.Prelude.{◌≡◌, ◌<◌};

use crate::samples::three_hosts;
use mb_base::{Host, Pos};
use mb_votes::{Refused, Vote, Votes};
use std::process::Abort;

const R: Vote = Vote {
    counter: 1,
    request: [1; 32],
};

const S: Vote = Vote {
    counter: 1,
    request: [2; 32],
};

/// The vote of a host for a position is counted.
fn assert_adds(rt: &impl Abort, votes: &mut Votes, pos: Pos, host: Host, vote: Vote)
    requires { host < 3 }
    ensures { votes.new.ballots.low ≡ votes.old.ballots.low }
{
    assert!(rt; votes.add(pos, host, vote).is_ok());
}

/// The vote of a host for a position is refused.
fn assert_refuses(rt: &impl Abort, votes: &mut Votes, pos: Pos, host: Host, refused: Refused<Vote>)
    requires { host < 3 }
    ensures { votes.new.ballots.low ≡ votes.old.ballots.low }
{
    assert!(rt; votes.add(pos, host, R) == Err(refused));
}

fn assert_ready(rt: &impl Abort, votes: &Votes, pos: Option<Pos>) {
    assert!(rt; votes.ready() == pos);
}

#[test]
fn the_lowest_position_with_a_quorum_is_ready(rt: HostRuntime) {
    let mut votes = Votes::make(rt.alloc(), three_hosts(&rt), 0).expect(&rt, "memory");
    assert_adds(&rt, &mut votes, 2, 0, R);
    assert_ready(&rt, &votes, None);
    assert_adds(&rt, &mut votes, 2, 1, S);
    assert_ready(&rt, &votes, None);
    assert_refuses(&rt, &mut votes, 2, 1, Refused::Filled { item: R });
    assert_adds(&rt, &mut votes, 2, 2, S);
    assert_ready(&rt, &votes, Some(2));
    assert!(rt; votes.matching(2, &S) == 2);
    assert!(rt; votes.count(2) == 3);
    votes.raise(2);
    assert_ready(&rt, &votes, None);
    assert_refuses(&rt, &mut votes, 11, 0, Refused::Beyond { low: 2, item: R });
    assert_refuses(&rt, &mut votes, 2, 0, Refused::Below { low: 2, item: R });
    assert_adds(&rt, &mut votes, 10, 0, R);
    votes.clear();
    assert!(rt; votes.count(10) == 0);
}
