//! What a log keeps and answers, as tables. What is expected was read off the protocol's rules.

ghost use Rattle.std.specs.Prelude.{◌≡◌, Some};
ghost use Rattle.mb_log.specs.Logs.{floor_counter};

use crate::samples::{FLOOR_AT_4, are_equal, three_hosts, ui};
use mb_base::{Counter, Host, Items, Pos, Shape};
use mb_cert::CheckFloor;
use mb_log::{OwnLog, Proof};
use mb_msg::{Body, Checkpoint, Commit, Shown, StableCert, Stamped};
use mb_parts::{FloorCert, FloorMember, Part};
use std::alloc::Global;
use std::process::Abort;
use std::test::Fail;

/// The host whose log is tested.
const HOST: Host = 1;

fn vote(pos: Pos, counter: Counter) -> Commit {
    Commit {
        view: 0,
        pos,
        counter: pos,
        cert: [1; 32],
        body: Body::Bare([2; 32]),
        ui: ui(HOST, counter),
    }
}

fn commit(pos: Pos, counter: Counter) -> Stamped {
    Stamped::Commit(vote(pos, counter))
}

fn checkpoint(pos: Pos, counter: Counter) -> Stamped {
    Stamped::Checkpoint(Checkpoint {
        pos,
        state: [3; 32],
        body: Body::Bare([4; 32]),
        ui: ui(HOST, counter),
    })
}

/// Appends a message, for which there is room, and whose fields have allowed values.
fn append(rt: &impl Abort, alloc: Global, shape: &Shape, log: &mut OwnLog, message: Stamped)
    requires { log.old.shape ≡ shape.now }
    ensures shape { log.new.shape ≡ shape.now }
    ensures host { log.new.host ≡ log.old.host }
{
    assert!(rt; log.room(message.kind()));
    assert!(rt; message.fits(shape));
    log.append(alloc, message).expect(rt, "memory");
}

/// Appends five votes, and a CHECKPOINT behind the fourth.
fn append_six(rt: &impl Abort, alloc: Global, shape: &Shape, log: &mut OwnLog)
    requires { log.old.shape ≡ shape.now }
    ensures shape { log.new.shape ≡ shape.now }
    ensures host { log.new.host ≡ log.old.host }
{
    append(rt, alloc, shape, log, commit(1, 1));
    append(rt, alloc, shape, log, commit(2, 2));
    append(rt, alloc, shape, log, commit(3, 3));
    append(rt, alloc, shape, log, commit(4, 4));
    append(rt, alloc, shape, log, checkpoint(4, 5));
    append(rt, alloc, shape, log, commit(5, 6));
}

/// How many entries the log has, how many it ever had at most, and the counter behind which they go on.
fn assert_extent(rt: &impl Abort, log: &OwnLog, extent: (u32, u32, Counter)) {
    assert!(rt; (log.len(), log.longest(), log.start()) == extent);
}

/// What the log gives from a counter on.
fn assert_since(
    rt: &impl Abort,
    alloc: Global,
    log: &OwnLog,
    from: Counter,
    entries: Vec<Stamped>,
) {
    let given = log.since(alloc, from).expect(rt, "memory");
    assert!(rt; are_equal(given, Items::from_vec(entries)));
}

#[test]
fn votes_and_checkpoints_fill_the_log(rt: HostRuntime) -> Result<(), Fail> {
    let shape = three_hosts(&rt);
    let mut log = OwnLog::make(rt.alloc(), shape, HOST)?;
    append_six(&rt, rt.alloc(), &shape, &mut log);
    assert_extent(&rt, &log, (6, 6, 0));
    assert!(rt; log.floor().is_none());
    assert!(rt; log.room(5) && log.room(7));
    let entries = vec![in rt.alloc(); checkpoint(4, 5), commit(5, 6)].expect(&rt, "memory");
    assert_since(&rt, rt.alloc(), &log, 5, entries);
    drop(log);
    Ok(())
}

fn floor_member(rt: &impl Abort, alloc: Global, host: Host) -> FloorMember {
    let floors = vec![in alloc; None, Some(FLOOR_AT_4), None].expect(rt, "memory");
    FloorMember {
        host,
        counter: 9,
        floors: Items::from_vec(floors),
        cert: [8; 32],
    }
}

/// A certificate of position 4, by which the log's host stood at counter 5.
fn floor_cert(rt: &impl Abort, alloc: Global) -> FloorCert {
    let members = [floor_member(rt, alloc, 0), floor_member(rt, alloc, 1)];
    let members = Vec::from_array(alloc, members).expect(rt, "memory");
    FloorCert {
        pos: 4,
        state: [3; 32],
        members: Items::from_vec(members),
    }
}

/// This host's counter in a certificate, 0 where there is none.
fn counter_for(floor: &FloorCert) -> Counter
    ensures { result ≡ floor_counter HOST (Some floor.now) }
{
    match floor.first_floor(HOST) {
        Some(floor) => floor.counter,
        None => 0,
    }
}

/// Cuts the log, which holds this host's counter in the certificate.
fn cut(rt: &impl Abort, log: &mut OwnLog, floor: FloorCert)
    requires { log.old.host ≡ HOST }
{
    let counter = counter_for(&floor);
    assert!(rt; counter >= log.start());
    assert!(rt; counter - log.start() <= u64::from(log.len()));
    log.cut(floor);
}

/// The log shows its floor certificate, this stable one, and its last vote.
fn assert_shown(rt: &impl Abort, alloc: Global, log: &OwnLog, base: StableCert) {
    let Proof {
        floor,
        stable,
        entries,
    } = log.proof(alloc, &base).expect(rt, "memory");
    assert!(rt; are_equal(floor, Some(floor_cert(rt, alloc))));
    assert!(rt; are_equal(stable, base));
    let last = vec![in alloc; Shown::Commit(vote(5, 6))].expect(rt, "memory");
    assert!(rt; are_equal(entries, Items::from_vec(last)));
}

#[test]
fn a_log_is_cut_at_its_floor_and_shown(rt: HostRuntime) -> Result<(), Fail> {
    let shape = three_hosts(&rt);
    let mut log = OwnLog::make(rt.alloc(), shape, HOST)?;
    append_six(&rt, rt.alloc(), &shape, &mut log);
    cut(&rt, &mut log, floor_cert(&rt, rt.alloc()));
    assert_extent(&rt, &log, (1, 6, 5));
    let base = StableCert {
        pos: 0,
        state: [0; 32],
        members: Items::new(rt.alloc()),
    };
    assert_shown(&rt, rt.alloc(), &log, base);
    let entries = vec![in rt.alloc(); commit(5, 6)].expect(&rt, "memory");
    assert_since(&rt, rt.alloc(), &log, 1, entries);
    drop(log);
    Ok(())
}
