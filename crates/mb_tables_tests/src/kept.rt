//! What is kept, and the certificates that come of it. What is expected was read off the protocol's rules.

ghost use Rattle.std.specs.Prelude.{◌≡◌};
ghost use Rattle.mb_checkpoints.specs.Kept.{low_of};

use crate::samples::{FLOOR_AT_4, are_equal, three_hosts};
use mb_base::{Digest, Host, Items, Pos, Shape, Ui};
use mb_checkpoints::Checkpoints;
use mb_msg::{
    Body, Checkpoint, Floor, FloorCert, FloorMember, Floors, MAX_POS, StableCert, StableMember,
};
use std::alloc::Global;
use std::process::Abort;
use std::test::Fail;

const STATE: Digest = [3; 32];

fn checkpoint(host: Host, pos: Pos, state: Digest, body: Body<Floors>) -> Checkpoint {
    Checkpoint {
        pos,
        state,
        body,
        ui: Ui {
            host,
            counter: 5,
            cert: [host; 32],
        },
    }
}

/// A CHECKPOINT that came as the digest of its floors.
fn bare(host: Host, pos: Pos, state: Digest) -> Checkpoint {
    checkpoint(host, pos, state, Body::Bare([7; 32]))
}

/// Of three hosts, a floor of host 0 alone.
fn floors(rt: &impl Abort, alloc: Global) -> Items<Option<Floor>> {
    Items::from_vec(vec![in alloc; Some(FLOOR_AT_4), None, None].expect(rt, "memory"))
}

fn whole(rt: &impl Abort, alloc: Global, host: Host, pos: Pos) -> Checkpoint {
    let floors = Floors {
        floors: floors(rt, alloc),
    };
    checkpoint(host, pos, STATE, Body::Whole(floors))
}

/// Keeps a CHECKPOINT where it has a place at or above this stable position. Tells whether it was so.
fn keep(shape: &Shape, low: Pos, kept: &mut Checkpoints, checkpoint: Checkpoint) -> bool
    requires shape { kept.old.shape ≡ shape.now }
    requires low { low_of kept.old ≡ low }
    ensures shape { kept.new.shape ≡ shape.now }
    ensures low { low_of kept.new ≡ low }
{
    let interval = u64::from(shape.k());
    if checkpoint.pos % interval != 0
        || checkpoint.pos < low
        || checkpoint.pos - low > 2 * interval
        || checkpoint.ui.host >= shape.n()
    {
        return false;
    }
    kept.keep(checkpoint);
    true
}

/// Raises the stable position to this one, to which it may be raised.
#[tactic(auto, using(crate::proofs::Multiples::multiple))]
fn raise(rt: &impl Abort, shape: &Shape, low: Pos, kept: &mut Checkpoints, above: Pos)
    requires shape { kept.old.shape ≡ shape.now }
    requires low { low_of kept.old ≡ low }
    ensures shape { kept.new.shape ≡ shape.now }
    ensures low { low_of kept.new ≡ above }
{
    assert!(rt; above % u64::from(shape.k()) == 0 && above >= low && above <= MAX_POS);
    kept.raise(above);
}

fn stable_member(host: Host) -> StableMember {
    StableMember {
        host,
        counter: 5,
        floors: [7; 32],
        cert: [host; 32],
    }
}

/// Of the hosts 0 and 1.
fn stable_cert(rt: &impl Abort, alloc: Global, pos: Pos) -> StableCert {
    let members = vec![in alloc; stable_member(0), stable_member(1)].expect(rt, "memory");
    StableCert {
        pos,
        state: STATE,
        members: Items::from_vec(members),
    }
}

fn floor_member(rt: &impl Abort, alloc: Global, host: Host) -> FloorMember {
    FloorMember {
        host,
        counter: 5,
        floors: floors(rt, alloc),
        cert: [host; 32],
    }
}

/// Of the hosts 0 and 2.
fn floor_cert(rt: &impl Abort, alloc: Global, pos: Pos) -> FloorCert {
    let members = [floor_member(rt, alloc, 0), floor_member(rt, alloc, 2)];
    let members = Vec::from_array(alloc, members).expect(rt, "memory");
    FloorCert {
        pos,
        state: STATE,
        members: Items::from_vec(members),
    }
}

/// A CHECKPOINT has a place and is kept.
fn assert_keeps(
    rt: &impl Abort,
    shape: &Shape,
    low: Pos,
    kept: &mut Checkpoints,
    checkpoint: Checkpoint,
)
    requires shape { kept.old.shape ≡ shape.now }
    requires low { low_of kept.old ≡ low }
    ensures shape { kept.new.shape ≡ shape.now }
    ensures low { low_of kept.new ≡ low }
{
    assert!(rt; keep(shape, low, kept, checkpoint));
}

fn assert_stable(rt: &impl Abort, alloc: Global, kept: &Checkpoints, stable: Option<StableCert>) {
    let found = kept.stable(alloc).expect(rt, "memory");
    assert!(rt; are_equal(found, stable));
}

fn assert_floor(rt: &impl Abort, alloc: Global, kept: &Checkpoints, floor: Option<FloorCert>) {
    let found = kept.floor_of(alloc, 0).expect(rt, "memory");
    assert!(rt; are_equal(found, floor));
}

#[test]
fn two_hosts_of_three_that_agree_make_certificates(rt: HostRuntime) -> Result<(), Fail> {
    let alloc = rt.alloc();
    let shape = three_hosts(&rt);
    let mut kept = Checkpoints::make(alloc, shape)?;
    // one says another state
    assert_keeps(&rt, &shape, 0, &mut kept, bare(0, 4, [0; 32]));
    assert_keeps(&rt, &shape, 0, &mut kept, bare(1, 4, STATE));
    assert_stable(&rt, alloc, &kept, None);
    // a newer one takes the place of its host's earlier one
    assert_keeps(&rt, &shape, 0, &mut kept, bare(0, 4, STATE));
    assert_stable(&rt, alloc, &kept, Some(stable_cert(&rt, alloc, 4)));
    assert_keeps(&rt, &shape, 0, &mut kept, bare(2, 4, STATE));
    assert_stable(&rt, alloc, &kept, Some(stable_cert(&rt, alloc, 4)));
    // for a floor they count whole alone
    assert_keeps(&rt, &shape, 0, &mut kept, whole(&rt, alloc, 2, 4));
    assert_floor(&rt, alloc, &kept, None);
    assert_keeps(&rt, &shape, 0, &mut kept, whole(&rt, alloc, 0, 4));
    assert_floor(&rt, alloc, &kept, Some(floor_cert(&rt, alloc, 4)));
    // what is stable is certified no more, but still gives a floor
    raise(&rt, &shape, 0, &mut kept, 4);
    assert_stable(&rt, alloc, &kept, None);
    assert_floor(&rt, alloc, &kept, Some(floor_cert(&rt, alloc, 4)));
    // the place of two intervals above the stable position is the last one
    assert_keeps(&rt, &shape, 4, &mut kept, bare(0, 12, STATE));
    assert!(rt; !keep(&shape, 4, &mut kept, bare(0, 16, STATE)));
    assert_keeps(&rt, &shape, 4, &mut kept, bare(1, 12, STATE));
    assert_stable(&rt, alloc, &kept, Some(stable_cert(&rt, alloc, 12)));
    raise(&rt, &shape, 4, &mut kept, 12);
    assert_floor(&rt, alloc, &kept, None);
    Ok(())
}
