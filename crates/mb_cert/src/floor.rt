//! Floor certificates.

ghost use Rattle.std.specs.Prelude.{◌≡◌, ◌≤◌, ◌<◌, length, map};
ghost use Rattle.mb_base.specs.Shapes.{quorum};
ghost use Rattle.mb_parts.specs.declared.certificates.FloorCert.{FloorCert as TheCert};
ghost use Rattle.mb_parts.specs.Claims.{floor_claims};
ghost use Rattle.mb_parts.specs.Certificates.{floor_for, first_floor, same_floor};
ghost use Rattle.mb_model.specs.Verified.{verifies};
ghost use Rattle.mb_cert.specs.Faults.{rises_at, passes_at};
ghost use Rattle.mb_cert.specs.Checks.{agrees_at, floor_reason, ChecksFloor};

use crate::bare::checkpoint_bare;
use crate::fault::{CertFault, Why};
use mb_base::{Host, Shape, Ui};
use mb_parts::{Floor, FloorCert, FloorMember, floors_digest};
use mb_usig::Usig;

/// Whether a floor certificate checks for the owner of a log.
pub trait CheckFloor {
    /// What it is as a certificate.
    ghost certificate: { Self → TheCert };

    /// The owner's floor, exactly for f+1 members of rising hosts whose claims verify and which agree on it; else the first member that fails,
    /// and why. It has at most f+1 members.
    fn check(&self, shape: &Shape, usig: &Usig, owner: Host) -> Result<Floor, CertFault>
        requires { length (certificate self.now).members ≤ quorum shape.now }
        ensures { ChecksFloor shape.now (verifies usig.now.secret) owner (certificate self.now) result };

    /// The owner's floor of the first member, whatever else stands there.
    fn first_floor(&self, owner: Host) -> Option<Floor>
        ensures { result ≡ first_floor owner (certificate self.now).members };
}

/// Whether the host of a member is above the one before it.
fn rises_at(members: &[FloorMember], index: usize) -> bool
    requires { index < length members.now }
    ensures { result ≡ rises_at (map (λ m. m.host) members.now) index }
{
    index == 0 || members[index - 1].host < members[index].host
}

/// Whether the tag of a member's claim verifies.
fn verifies_at(usig: &Usig, cert: &FloorCert, index: usize) -> bool
    requires { index < length cert.now.members }
    ensures { result ≡ passes_at (verifies usig.now.secret) (floor_claims cert.now) index }
{
    let member = &cert.members.as_slice()[index];
    let floors = floors_digest(member.floors.as_slice());
    let bare = checkpoint_bare(cert.pos, &cert.state, &floors);
    let ui = Ui {
        host: member.host,
        counter: member.counter,
        cert: member.cert,
    };
    usig.verify_ui(bare.as_slice(), &ui)
}

/// A member's floor for the owner.
fn floor_for(owner: Host, member: &FloorMember) -> Option<Floor>
    ensures { result ≡ floor_for owner member.now }
{
    *member.floors.as_slice().get(usize::from(owner))?
}

/// Whether there are two floors, and they are the same.
fn are_same(first: Option<Floor>, second: Option<Floor>) -> bool
    ensures { result ≡ same_floor first second }
{
    first.is_some() && first == second
}

/// Whether a member has the floor for the owner that the first has.
fn agrees_at(cert: &FloorCert, owner: Host, index: usize) -> bool
    requires { index < length cert.now.members }
    ensures { result ≡ agrees_at owner cert.now index }
{
    let member = &cert.members.as_slice()[index];
    are_same(cert.first_floor(owner), floor_for(owner, member))
}

/// The reason for which a member fails.
fn reason(usig: &Usig, cert: &FloorCert, owner: Host, index: usize) -> Option<Why>
    requires { index < length cert.now.members }
    ensures { result ≡ floor_reason (verifies usig.now.secret) owner cert.now index }
{
    if !rises_at(cert.members.as_slice(), index) {
        return Some(Why::SameHost);
    }
    if !verifies_at(usig, cert, index) {
        return Some(Why::BadUi);
    }
    if !agrees_at(cert, owner, index) {
        return Some(Why::Differs);
    }
    None
}

impl CheckFloor for FloorCert {
    ghost certificate = { λ c. c };

    fn check(&self, shape: &Shape, usig: &Usig, owner: Host) -> Result<Floor, CertFault> {
        let count = self.members.len();
        if count != usize::from(shape.quorum()) {
            return Err(CertFault::at(count, Why::Few));
        }
        for index in 0..count {
            if let Some(why) = reason(usig, self, owner, index) {
                return Err(CertFault::at(index, why));
            }
        }
        match self.first_floor(owner) {
            Some(floor) => Ok(floor),
            None => unreachable!(),
        }
    }

    fn first_floor(&self, owner: Host) -> Option<Floor> {
        floor_for(owner, self.members.as_slice().first()?)
    }
}
