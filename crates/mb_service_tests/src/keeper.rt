ghost use Rattle.std.specs.Prelude.{◌≡◌, length};
ghost use Rattle.mb_base.specs.Limits.{part_count};
ghost use Rattle.mb_base.specs.Shapes.{client_count};

use crate::samples::{bytes, request};
use mb_base::{Client, Digest, Items, Pos, Seq, Shape};
use mb_counter::Counter;
use mb_executor::{Fetched, Keeper};
use mb_fetch::Shelf;
use mb_msg::StateMsg;
use mb_parts::MAX_POS;
use sha2::{Digest as _, Sha256};
use std::alloc::Global;
use std::process::Abort;

/// 65 parts: the first has these bytes, each other of the service none, and the last is a table of one client that ends with this byte.
fn parts(rt: &impl Abort, alloc: Global, first: &[u8], last: u8) -> Items<Items<u8>> {
    let mut all = Items::new(alloc);
    all.push(bytes(rt, alloc, first)).expect(rt, "memory");
    for _ in 1..64 {
        all.push(Items::new(alloc)).expect(rt, "memory");
    }
    let mut table = [0; 18];
    table[17] = last;
    let table = bytes(rt, alloc, table.as_slice());
    all.push(table).expect(rt, "memory");
    all
}

/// A STATE of position 4 with all of these parts, and the state digest.
fn state(rt: &impl Abort, alloc: Global, parts: Items<Items<u8>>) -> (Digest, StateMsg) {
    let mut digests = Items::new(alloc);
    let mut hasher = Sha256::new();
    for part in parts.as_slice() {
        let digest = Sha256::digest(part.as_slice());
        hasher.update(digest);
        digests.push(digest).expect(rt, "memory");
    }
    let pos: Pos = 4;
    hasher.update(pos.to_be_bytes());
    let message = StateMsg {
        host: 1,
        pos,
        digests,
        first: 0,
        parts,
    };
    (hasher.finalize(), message)
}

/// What a keeper that holds no part makes of a STATE with this state digest, and the part that it lacks behind it.
fn take(rt: &impl Abort, alloc: Global, certified: &Digest, m: &StateMsg) -> (Fetched, Option<u8>) {
    let shape = Shape::new(1, 4, 1).expect(rt, "1, 4 and 1 are a shape");
    let mut keeper = Keeper::make(alloc, shape, Counter::new()).expect(rt, "memory");
    assert!(rt; m.digests.len() == 65 && m.parts.len() > 0 && m.parts.len() <= 65);
    assert!(rt; usize::from(m.first) + m.parts.len() <= 65);
    let fetched = keeper.take_state(alloc, certified, m).expect(rt, "memory");
    (fetched, keeper.missing())
}

/// What it makes of a STATE with such parts.
fn taken(rt: &impl Abort, alloc: Global, first: &[u8], last: u8) -> Fetched {
    let (certified, m) = state(rt, alloc, parts(rt, alloc, first, last));
    let (fetched, _) = take(rt, alloc, &certified, &m);
    fetched
}

/// The state digest of another keeper, which executed nothing, at position 4, and its STATE.
fn state_of_another(rt: &impl Abort, alloc: Global) -> (Digest, StateMsg) {
    let shape = Shape::new(1, 4, 1).expect(rt, "1, 4 and 1 are a shape");
    let mut other = Keeper::make(alloc, shape, Counter::new()).expect(rt, "memory");
    other.keep_snapshot(alloc, 4).expect(rt, "memory");
    let certified = other.digest(alloc, 4).expect(rt, "memory");
    let message = other.state_message(alloc, 1, 4, 0).expect(rt, "memory");
    (certified, message)
}

#[test]
fn parts_are_a_state_or_have_a_fault(rt: HostRuntime) {
    let rows: [(&[u8], u8, Fetched); 3] = [
        (&[], 0, Fetched::BadState { part: 0, at: 0 }),
        (&[], 1, Fetched::BadState { part: 64, at: 16 }),
        (b"\x00\x00\x00\x00\x00\x00\x00\x07", 0, Fetched::State),
    ];
    for (first, last, fetched) in rows {
        assert!(rt; taken(&rt, rt.alloc(), first, last) == fetched);
    }
}

#[test]
fn the_state_of_another_is_installed(rt: HostRuntime) {
    let (certified, m) = state_of_another(&rt, rt.alloc());
    assert!(rt; take(&rt, rt.alloc(), &certified, &m) == (Fetched::State, Some(0)));
}

/// Executes what a client of this system asks for, to count one more, at a position that there is. The snapshots stay as they are.
fn execute(
    rt: &impl Abort,
    alloc: Global,
    shape: &Shape,
    keeper: &mut Keeper<Counter>,
    pos: Pos,
    client: Client,
    seq: Seq,
)
    requires { length keeper.old.served.table ≡ client_count shape.now }
    ensures clients { length keeper.new.served.table ≡ client_count shape.now }
    ensures snapshots { keeper.new.snapshots ≡ keeper.old.snapshots }
{
    let request = request(
        rt,
        alloc,
        client,
        seq,
        b"\x01\x00\x00\x00\x00\x00\x00\x00\x01",
    );
    assert!(rt; client < shape.clients() && pos >= 1 && pos <= MAX_POS);
    let is_executed = keeper.execute(alloc, pos, &request).expect(rt, "memory");
    assert!(rt; is_executed);
}

/// Each of four clients asks to count one more in its request of that number, from a position on.
fn execute_of_each(
    rt: &impl Abort,
    alloc: Global,
    shape: &Shape,
    keeper: &mut Keeper<Counter>,
    first: Pos,
    seq: Seq,
)
    requires { length keeper.old.served.table ≡ client_count shape.now }
    ensures clients { length keeper.new.served.table ≡ client_count shape.now }
    ensures snapshots { keeper.new.snapshots ≡ keeper.old.snapshots }
{
    let (second, third, fourth) = (
        first.saturating_add(1),
        first.saturating_add(2),
        first.saturating_add(3),
    );
    execute(rt, alloc, shape, keeper, first, 0, seq);
    execute(rt, alloc, shape, keeper, second, 1, seq);
    execute(rt, alloc, shape, keeper, third, 2, seq);
    execute(rt, alloc, shape, keeper, fourth, 3, seq);
}

/// All parts of the snapshot of a position.
fn snapshot(rt: &impl Abort, alloc: Global, keeper: &Keeper<Counter>, pos: Pos) -> Vec<Items<u8>>
    ensures { length result.items ≡ part_count }
{
    let message = keeper.state_message(alloc, 0, pos, 0).expect(rt, "memory");
    let parts = message.parts.into_vec();
    assert!(rt; parts.len() == 65);
    parts
}

/// The snapshot of position 4 is gone, and that of position 8 has the count of all eight requests.
fn expect_second_alone(rt: &impl Abort, alloc: Global, keeper: &Keeper<Counter>) {
    let gone = keeper.state_message(alloc, 0, 4, 0).expect(rt, "memory");
    assert!(rt; !keeper.has_snapshot(4) && gone.parts.len() == 0);
    let kept = snapshot(rt, alloc, keeper, 8);
    let held: [(usize, &[u8]); 2] = [(0, b"\x00\x00\x00\x00\x00\x00\x00\x08"), (10, b"")];
    for (number, text) in held {
        assert!(rt; kept.get(number).map(|part| part.as_slice()) == Some(text));
    }
}

/// The first part is the count, each other of the service is empty, and the last is the client table. A shelf with the same snapshots tells how many
/// parts are held.
#[test]
fn snapshots_of_a_keeper_share_parts_on_a_shelf(rt: HostRuntime) {
    let alloc = rt.alloc();
    let shape = Shape::new(1, 4, 4).expect(&rt, "1, 4 and 4 are a shape");
    let mut keeper = Keeper::make(alloc, shape, Counter::new()).expect(&rt, "memory");
    let mut shelf = Shelf::make(alloc).expect(&rt, "memory");
    execute_of_each(&rt, alloc, &shape, &mut keeper, 1, 1);
    keeper.keep_snapshot(alloc, 4).expect(&rt, "memory");
    let parts = snapshot(&rt, alloc, &keeper, 4);
    shelf.keep(alloc, 4, parts).expect(&rt, "memory");
    assert!(rt; shelf.parts_held() == 3);
    execute_of_each(&rt, alloc, &shape, &mut keeper, 5, 2);
    keeper.keep_snapshot(alloc, 8).expect(&rt, "memory");
    let parts = snapshot(&rt, alloc, &keeper, 8);
    shelf.keep(alloc, 8, parts).expect(&rt, "memory");
    assert!(rt; shelf.parts_held() == 5);
    keeper.raise(8);
    shelf.drop_below(8);
    assert!(rt; shelf.parts_held() == 3);
    expect_second_alone(&rt, alloc, &keeper);
}
