//! What the tables answer while a view goes its way. What is expected was read off the protocol's rules.

ghost use Rattle.std.specs.Prelude.{◌≡◌, ◌<◌, []};

use crate::samples::{are_equal, three_hosts};
use mb_base::{Client, Counter, Host, Items, Pos, Seq, Shape, Ui};
use mb_msg::{Batch, Body, Checkpoint, Request, Requests};
use mb_normal::{Due, Normal, Refused, Vote};
use mb_parts::{Floor, Phase};
use std::alloc::Global;
use std::process::Abort;
use std::test::Fail;

/// Where a host stands in the open view 0, behind its vote for this position.
fn behind(last: Pos) -> Floor
    ensures { result.last ≡ last }
{
    Floor {
        counter: 1,
        view: 0,
        phase: Phase::Open,
        last,
        top: last,
        point: 0,
    }
}

/// A request with the empty operation.
fn request(alloc: Global, client: Client, seq: Seq) -> Request
    ensures client { result.client ≡ client }
    ensures op { result.op ≡ [] }
{
    Request {
        client,
        seq,
        op: Items::new(alloc),
        tag: [0; 32],
    }
}

/// A client's request with the empty operation is pending.
#[tactic(auto, using(crate::proofs::NormalShapes::shape_kept))]
fn pend(
    rt: &impl Abort,
    alloc: Global,
    shape: &Shape,
    normal: &mut Normal,
    client: Client,
    seq: Seq,
)
    requires { normal.old.shape ≡ shape.now }
    ensures { normal.new.shape ≡ shape.now }
{
    assert!(rt; client < shape.clients());
    normal.pend(request(alloc, client, seq));
}

/// Puts a slot at a position. Whether it was put.
#[tactic(auto, using(crate::proofs::NormalShapes::shape_kept_or_same))]
fn put(normal: &mut Normal, pos: Pos, counter: Counter, batch: Option<Batch>) -> bool
    ensures { normal.new.shape ≡ normal.old.shape }
{
    let answer = normal.slot(pos, counter, [9; 32], [7; 32], batch);
    let is_put = answer.is_ok();
    drop(answer);
    is_put
}

/// Orders the primary's next batch at a position. How many requests it has.
fn order(rt: &impl Abort, alloc: Global, normal: &mut Normal, pos: Pos) -> usize
    ensures { normal.new.shape ≡ normal.old.shape }
{
    let batch = normal.batch(alloc).expect(rt, "memory");
    let count = batch.requests.as_slice().len();
    let _put = put(normal, pos, pos, Some(batch));
    count
}

/// What is due behind a vote where so much was executed. `room` says whether the log has room for a vote.
fn assert_due(rt: &impl Abort, normal: &Normal, last: u8, exec: u8, room: bool, due: Due) {
    let at = behind(Pos::from(last));
    assert!(rt; normal.due(&at, Pos::from(exec), 0, room) == due);
}

/// The request of the client with this number is pending, and is ordered at the position behind the same number.
fn order_one(rt: &impl Abort, alloc: Global, shape: &Shape, normal: &mut Normal, last: u8)
    requires { normal.old.shape ≡ shape.now }
    ensures { normal.new.shape ≡ shape.now }
{
    pend(rt, alloc, shape, normal, last, 1);
    assert_due(rt, normal, last, 0, true, Due::Prepare);
    assert!(rt; order(rt, alloc, normal, Pos::from(last) + 1) == 1);
}

/// Keeps a host's CHECKPOINT one interval above the stable position 0.
#[tactic(auto, using(crate::proofs::NormalShapes::shape_kept, crate::proofs::NormalShapes::low_kept))]
fn keep(rt: &impl Abort, shape: &Shape, normal: &mut Normal, host: Host)
    requires shape { normal.old.shape ≡ shape.now }
    requires low { normal.old.slots.window.low ≡ 0 }
    ensures shape { normal.new.shape ≡ shape.now }
    ensures low { normal.new.slots.window.low ≡ 0 }
{
    assert!(rt; host < shape.n());
    let checkpoint = Checkpoint {
        pos: Pos::from(shape.k()),
        state: [3; 32],
        body: Body::Bare([4; 32]),
        ui: Ui {
            host,
            counter: 5,
            cert: [6; 32],
        },
    };
    normal.keep(checkpoint).expect(rt, "memory");
}

/// The stable position 0 becomes the next multiple of the interval.
fn raise(shape: &Shape, normal: &mut Normal)
    requires shape { normal.old.shape ≡ shape.now }
    requires low { normal.old.slots.window.low ≡ 0 }
{
    let next = Pos::from(shape.k());
    normal.raise(next);
}

const VOTE: Vote = Vote {
    counter: 1,
    request: [7; 32],
};

/// A host's vote for position 1 is counted.
fn assert_counts(rt: &impl Abort, normal: &mut Normal, host: Host)
    requires { host < 3 }
{
    assert!(rt; normal.vote(1, host, VOTE).is_ok());
}

/// The first position above the window.
fn assert_nine_is_beyond(rt: &impl Abort, normal: &mut Normal) {
    let beyond = Refused::Beyond { low: 0, item: VOTE };
    assert!(rt; normal.vote(9, 0, VOTE) == Err(beyond));
}

fn batch_of_one(rt: &impl Abort, alloc: Global) -> Batch {
    let requests = vec![in alloc; request(alloc, 0, 1)].expect(rt, "memory");
    Batch {
        requests: Requests::from_items(Items::from_vec(requests)),
    }
}

#[test]
fn a_backup_commits_and_executes(rt: HostRuntime) {
    let mut normal = Normal::make(rt.alloc(), three_hosts(&rt), 1).expect(&rt, "memory");
    assert_due(&rt, &normal, 0, 0, true, Due::Nothing);
    assert!(rt; put(&mut normal, 1, 1, Some(batch_of_one(&rt, rt.alloc()))));
    assert_due(&rt, &normal, 0, 0, false, Due::Nothing);
    assert_due(&rt, &normal, 0, 0, true, Due::Commit { pos: 1 });
    assert_counts(&rt, &mut normal, 0);
    assert_due(&rt, &normal, 1, 0, true, Due::Nothing);
    assert_counts(&rt, &mut normal, 1);
    assert_due(&rt, &normal, 1, 0, false, Due::Execute { pos: 1 });
    assert!(rt; normal.cert_at(1) == Some((1, [9; 32])));
    assert!(rt; normal.batch_at(2).is_none());
    assert_nine_is_beyond(&rt, &mut normal);
    normal.clear();
    assert_due(&rt, &normal, 1, 0, true, Due::Nothing);
    drop(normal);
}

#[test]
fn the_primary_is_four_positions_ahead_at_most(rt: HostRuntime) -> Result<(), Fail> {
    let alloc = rt.alloc();
    let shape = Shape::new(1, 4, 6)?;
    let mut normal = Normal::make(alloc, shape, 0)?;
    order_one(&rt, alloc, &shape, &mut normal, 0);
    order_one(&rt, alloc, &shape, &mut normal, 1);
    order_one(&rt, alloc, &shape, &mut normal, 2);
    order_one(&rt, alloc, &shape, &mut normal, 3);
    pend(&rt, alloc, &shape, &mut normal, 4, 1);
    pend(&rt, alloc, &shape, &mut normal, 5, 1);
    assert_due(&rt, &normal, 4, 0, true, Due::Nothing);
    assert_due(&rt, &normal, 4, 1, true, Due::Prepare);
    assert!(rt; order(&rt, alloc, &mut normal, 5) == 2);
    assert_due(&rt, &normal, 5, 2, true, Due::Nothing);
    drop(normal);
    Ok(())
}

#[test]
fn served_numbers_settle(rt: HostRuntime) {
    let shape = three_hosts(&rt);
    let mut normal = Normal::make(rt.alloc(), shape, 0).expect(&rt, "memory");
    pend(&rt, rt.alloc(), &shape, &mut normal, 0, 2);
    normal.settle(0, 1);
    assert!(rt; normal.pending(0).is_some());
    normal.settle(0, 2);
    assert!(rt; normal.pending(0).is_none());
    drop(normal);
}

/// Where a certificate is stable, and how many members it has.
fn stable(rt: &impl Abort, alloc: Global, normal: &Normal) -> Option<(Pos, usize)> {
    let stable = normal.stable(alloc).expect(rt, "memory")?;
    Some((stable.pos, stable.members.len()))
}

/// No floor of host 0 is certified.
fn assert_no_floor(rt: &impl Abort, alloc: Global, normal: &Normal) {
    let floor = normal.floor_of(alloc, 0).expect(rt, "memory");
    assert!(rt; are_equal(floor, None));
}

/// A slot at the stable position 4 is refused.
fn assert_four_is_below(rt: &impl Abort, normal: &mut Normal) {
    let answer = normal.slot(4, 1, [9; 32], [7; 32], None);
    let below = Refused::Below { low: 4, item: None };
    assert!(rt; are_equal(answer, Err(below)));
}

#[test]
fn two_hosts_make_a_position_stable(rt: HostRuntime) -> Result<(), Fail> {
    let alloc = rt.alloc();
    let shape = three_hosts(&rt);
    let mut normal = Normal::make(alloc, shape, 0)?;
    keep(&rt, &shape, &mut normal, 0);
    assert!(rt; stable(&rt, alloc, &normal).is_none());
    keep(&rt, &shape, &mut normal, 2);
    assert!(rt; stable(&rt, alloc, &normal) == Some((4, 2)));
    assert_no_floor(&rt, alloc, &normal);
    raise(&shape, &mut normal);
    assert_four_is_below(&rt, &mut normal);
    assert!(rt; put(&mut normal, 12, 1, None));
    drop(normal);
    Ok(())
}
