//! Stable certificates.

ghost use Rattle.std.specs.Prelude.{◌≡◌, ◌≤◌, ◌<◌, length, map};
ghost use Rattle.mb_base.specs.Shapes.{quorum};
ghost use Rattle.mb_base.specs.declared.shape.Shape.{Shape as TheShape};
ghost use Rattle.mb_parts.specs.declared.certificates.StableCert.{StableCert as TheCert};
ghost use Rattle.mb_parts.specs.Claims.{stable_claims};
ghost use Rattle.mb_model.specs.Verified.{verifies};
ghost use Rattle.mb_cert.specs.Faults.{rises_at, passes_at};
ghost use Rattle.mb_cert.specs.Checks.{members_at, stable_reason, ChecksStable};

use crate::bare::checkpoint_bare;
use crate::fault::{CertFault, Why};
use mb_base::{Pos, Shape, Ui};
use mb_parts::{StableCert, StableMember};
use mb_usig::Usig;

/// Whether a stable certificate checks.
pub trait CheckStable {
    /// What it is as a certificate.
    ghost certificate: { Self → TheCert };

    /// Yes exactly for f+1 members of rising hosts whose claims verify, or for position 0 with none; else the first member that fails, and why.
    /// It has at most f+1 members.
    fn check(&self, shape: &Shape, usig: &Usig) -> Result<(), CertFault>
        requires { length (certificate self.now).members ≤ quorum shape.now }
        ensures { ChecksStable shape.now (verifies usig.now.secret) (certificate self.now) result };
}

/// How many members a position asks for.
fn members_at(shape: &Shape, pos: Pos) -> usize
    ensures { result ≡ members_at shape.now pos }
{
    if pos == 0 {
        0
    } else {
        usize::from(shape.quorum())
    }
}

/// Whether the host of a member is above the one before it.
fn rises_at(members: &[StableMember], index: usize) -> bool
    requires { index < length members.now }
    ensures { result ≡ rises_at (map (λ m. m.host) members.now) index }
{
    index == 0 || members[index - 1].host < members[index].host
}

/// Whether the tag of a member's claim verifies.
fn verifies_at(usig: &Usig, cert: &StableCert, index: usize) -> bool
    requires { index < length cert.now.members }
    ensures { result ≡ passes_at (verifies usig.now.secret) (stable_claims cert.now) index }
{
    let member = &cert.members.as_slice()[index];
    let bare = checkpoint_bare(cert.pos, &cert.state, &member.floors);
    let ui = Ui {
        host: member.host,
        counter: member.counter,
        cert: member.cert,
    };
    usig.verify_ui(bare.as_slice(), &ui)
}

/// The reason for which a member fails.
fn reason(usig: &Usig, cert: &StableCert, index: usize) -> Option<Why>
    requires { index < length cert.now.members }
    ensures { result ≡ stable_reason (verifies usig.now.secret) cert.now index }
{
    if !rises_at(cert.members.as_slice(), index) {
        return Some(Why::SameHost);
    }
    if !verifies_at(usig, cert, index) {
        return Some(Why::BadUi);
    }
    None
}

impl CheckStable for StableCert {
    ghost certificate = { λ c. c };

    fn check(&self, shape: &Shape, usig: &Usig) -> Result<(), CertFault> {
        let count = self.members.len();
        if count != members_at(shape, self.pos) {
            return Err(CertFault::at(count, Why::Few));
        }
        for index in 0..count {
            if let Some(why) = reason(usig, self, index) {
                return Err(CertFault::at(index, why));
            }
        }
        Ok(())
    }
}
