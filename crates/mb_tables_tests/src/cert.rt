use crate::samples::three_hosts;
use mb_base::{Digest, Host, Items, Key, Shape};
use mb_cert::{CertFault, CheckEvidence, CheckFloor, CheckStable, Why};
use mb_parts::{
    Evidence, EvidenceMember, Floor, FloorCert, FloorMember, Phase, StableCert, StableMember,
    floors_digest,
};
use mb_usig::Usig;
use std::alloc::Global;
use std::process::Abort;

const SECRET: Key = [0; 32];

const STATE: Digest = [0x11; 32];

const PLAN: Digest = [0x22; 32];

// What follows was made with Python's hmac and hashlib: the digest of the floors of three hosts of which the second has one, the
// certificates of the three hosts' CHECKPOINTs of position 8 at counters 3, 4 and 5, that of host 1's NEW_VIEW of view 4 at counter 5, and
// those of the hosts' ENTERs at counter 6.

const FLOORS: &[u8; 32] =
    b"\xe7\x40\xc1\x43\x36\xa5\xaf\x3e\x1b\x23\xe3\x06\x72\xbf\xd0\x25\xcd\x77\x76\x46\x7b\xa5\x91\xec\x4d\x4e\x18\xd2\x8b\x3c\x50\xd5";

const CHECKPOINTS: [&[u8; 32]; 3] = [
    b"\x2f\xbd\xaf\x94\xe2\xa1\x38\xc4\x8c\xbf\x18\x32\xc8\xdb\x56\x23\x03\xd5\x54\x5d\xd8\x97\x6d\x96\x3b\x9c\xfe\xe0\x85\xbd\x64\x36",
    b"\x19\xdc\xc2\x87\x3c\xa1\x4b\x15\xe1\x81\xb5\x41\x27\x7e\xa9\x55\x8f\xd3\x82\xb1\x87\x83\x32\x71\x31\x5e\x0e\x12\xe5\x4d\xce\x24",
    b"\x91\x5e\x3a\x2b\x4a\x02\x37\x26\x96\xac\x26\x99\x67\x1f\xbf\xc8\xed\xfc\xd7\x4d\xb1\xca\x79\xfd\x73\xb0\xab\x3f\x1c\x26\x4b\xda",
];

const NEW_VIEW: &[u8; 32] =
    b"\xa2\x05\x4f\x0b\x90\xba\x53\xb5\xd5\x62\xa3\xc0\xd3\x88\xf9\xa5\x78\xa7\xc4\x00\x38\x4c\xe7\xc3\x1e\x63\xd8\xa6\x3c\x8f\xee\xb8";

const ENTERS: [&[u8; 32]; 3] = [
    b"\x06\x26\x5e\x91\xb9\x9c\x5d\xcc\x56\xcc\x64\x36\x17\x67\x67\xa1\x3f\xc9\xc8\xe7\x0b\xbd\xe1\xc0\xb0\xd3\x1d\xcc\x1c\x68\xd5\xe2",
    b"\xf7\x48\x5f\xc0\x9e\x51\xc4\xdf\xcb\x98\xa8\x7d\x28\x45\xeb\x22\xb5\x32\x67\xaf\x59\x6a\xe5\x69\xcf\xd5\x79\xcd\x55\x15\x1d\x84",
    b"\xa2\x03\x62\x06\x95\x4f\xc8\x7c\x55\xac\x10\xf4\x3d\x33\x45\x72\x31\xcc\xa3\x51\xc6\xee\x68\xe4\xea\x2b\xa1\x60\x14\xac\xf8\xbb",
];

const FLOOR: Floor = Floor {
    counter: 7,
    view: 4,
    phase: Phase::Entered,
    last: 0,
    top: 9,
    point: 4,
};

fn fault(index: u8, why: Why) -> CertFault {
    CertFault { index, why }
}

fn stable_of(rt: &impl Abort, alloc: Global, hosts: &[Host], state: Digest) -> StableCert {
    let mut members = Items::new(alloc);
    for &host in hosts {
        let member = StableMember {
            host,
            counter: 3 + u64::from(host),
            floors: *FLOORS,
            cert: *CHECKPOINTS[usize::from(host % 3)],
        };
        members.push(member).expect(rt, "memory");
    }
    StableCert {
        pos: 8,
        state,
        members,
    }
}

fn floor_of(rt: &impl Abort, alloc: Global, hosts: &[Host]) -> FloorCert {
    let mut members = Items::new(alloc);
    for &host in hosts {
        let floors = vec![in alloc; None, Some(FLOOR), None].expect(rt, "memory");
        let member = FloorMember {
            host,
            counter: 3 + u64::from(host),
            floors: Items::from_vec(floors),
            cert: *CHECKPOINTS[usize::from(host % 3)],
        };
        members.push(member).expect(rt, "memory");
    }
    FloorCert {
        pos: 8,
        state: STATE,
        members,
    }
}

fn evidence_of(rt: &impl Abort, alloc: Global, hosts: &[Host], end: u64) -> Evidence {
    let mut members = Items::new(alloc);
    for &host in hosts {
        let member = EvidenceMember {
            host,
            counter: 6,
            cert: *ENTERS[usize::from(host % 3)],
        };
        members.push(member).expect(rt, "memory");
    }
    Evidence {
        view: 4,
        base: 8,
        end,
        plan: PLAN,
        body: [0x33; 32],
        counter: 5,
        cert: *NEW_VIEW,
        members,
    }
}

fn assert_stable(
    rt: &impl Abort,
    alloc: Global,
    shape: Shape,
    hosts: &[Host],
    state: Digest,
    answer: Result<(), CertFault>,
) {
    let usig = Usig::new(shape, 0, &SECRET);
    let cert = stable_of(rt, alloc, hosts, state);
    assert!(rt; cert.members.len() <= usize::from(shape.quorum()));
    assert!(rt; cert.check(&shape, &usig) == answer);
}

fn assert_floor(
    rt: &impl Abort,
    alloc: Global,
    shape: Shape,
    hosts: &[Host],
    owner: Host,
    answer: Result<Floor, CertFault>,
) {
    let usig = Usig::new(shape, 0, &SECRET);
    let cert = floor_of(rt, alloc, hosts);
    assert!(rt; cert.members.len() <= usize::from(shape.quorum()));
    assert!(rt; cert.check(&shape, &usig, owner) == answer);
}

fn assert_first_floor(rt: &impl Abort, alloc: Global, hosts: &[Host]) {
    let cert = floor_of(rt, alloc, hosts);
    assert!(rt; cert.first_floor(1) == Some(FLOOR));
}

fn assert_evidence(
    rt: &impl Abort,
    alloc: Global,
    shape: Shape,
    hosts: &[Host],
    end: u64,
    answer: Result<(), CertFault>,
) {
    let usig = Usig::new(shape, 0, &SECRET);
    let evidence = evidence_of(rt, alloc, hosts, end);
    assert!(rt; evidence.members.len() <= usize::from(shape.f()));
    assert!(rt; evidence.check(&shape, &usig) == answer);
}

#[test]
fn stable_certificates_check(rt: HostRuntime) {
    let alloc = rt.alloc();
    let shape = three_hosts(&rt);
    let few = Err(fault(1, Why::Few));
    let same_host = Err(fault(1, Why::SameHost));
    let bad_ui = Err(fault(0, Why::BadUi));
    assert_stable(&rt, alloc, shape, &[0, 2], STATE, Ok(()));
    assert_stable(&rt, alloc, shape, &[1], STATE, few);
    assert_stable(&rt, alloc, shape, &[2, 2], STATE, same_host);
    assert_stable(&rt, alloc, shape, &[2, 1], STATE, same_host);
    assert_stable(&rt, alloc, shape, &[0, 1], PLAN, bad_ui);
}

#[test]
fn floor_certificates_check(rt: HostRuntime) {
    let alloc = rt.alloc();
    let shape = three_hosts(&rt);
    assert!(rt; floors_digest(&[None, Some(FLOOR), None]) == *FLOORS);
    let differs = Err(fault(0, Why::Differs));
    let few = Err(fault(1, Why::Few));
    let same_host = Err(fault(1, Why::SameHost));
    assert_floor(&rt, alloc, shape, &[0, 2], 1, Ok(FLOOR));
    assert_floor(&rt, alloc, shape, &[0, 2], 2, differs);
    assert_floor(&rt, alloc, shape, &[0], 1, few);
    assert_floor(&rt, alloc, shape, &[2, 0], 1, same_host);
    assert_first_floor(&rt, alloc, &[2]);
}

#[test]
fn evidence_checks(rt: HostRuntime) {
    let alloc = rt.alloc();
    let shape = three_hosts(&rt);
    let few = Err(fault(0, Why::Few));
    let same_host = Err(fault(0, Why::SameHost));
    let bad_ui = Err(fault(CertFault::NEW_VIEW, Why::BadUi));
    assert_evidence(&rt, alloc, shape, &[0], 10, Ok(()));
    assert_evidence(&rt, alloc, shape, &[2], 10, Ok(()));
    assert_evidence(&rt, alloc, shape, &[], 10, few);
    assert_evidence(&rt, alloc, shape, &[1], 10, same_host);
    assert_evidence(&rt, alloc, shape, &[0], 11, bad_ui);
}
