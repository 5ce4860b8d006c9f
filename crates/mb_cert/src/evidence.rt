//! Evidence of a view.

ghost use Rattle.std.specs.Prelude.{◌≡◌, ◌≤◌, ◌<◌, suc, length, map};
ghost use Rattle.mb_base.specs.Shapes.{max_faults};
ghost use Rattle.mb_parts.specs.declared.certificates.Evidence.{Evidence as TheEvidence};
ghost use Rattle.mb_parts.specs.Claims.{new_view_claim, evidence_claims};
ghost use Rattle.mb_model.specs.Verified.{verifies};
ghost use Rattle.mb_cert.specs.Faults.{rises_at, passes_at};
ghost use Rattle.mb_cert.specs.Checks.{backs_at, evidence_reason, ChecksEvidence};

use crate::bare::{enter_bare, new_view_bare};
use crate::fault::{CertFault, Why};
use mb_base::{Shape, Ui};
use mb_parts::{Evidence, EvidenceMember};
use mb_usig::Usig;

/// Whether evidence of a view checks.
pub trait CheckEvidence {
    /// What it is as evidence.
    ghost certificate: { Self → TheEvidence };

    /// Yes exactly where the claim of the primary's NEW_VIEW verifies, and those of f members of rising hosts do, all of them backups; else the
    /// first that fails, and why. It has at most f members.
    fn check(&self, shape: &Shape, usig: &Usig) -> Result<(), CertFault>
        requires { length (certificate self.now).members ≤ max_faults shape.now }
        ensures { ChecksEvidence shape.now (verifies usig.now.secret) (certificate self.now) result };
}

/// Whether the host of a member is above the one before it.
fn rises_at(members: &[EvidenceMember], index: usize) -> bool
    requires { index < length members.now }
    ensures { result ≡ rises_at (map (λ m. m.host) members.now) index }
{
    index == 0 || members[index - 1].host < members[index].host
}

/// Whether a member is of a backup.
fn backs_at(shape: &Shape, evidence: &Evidence, index: usize) -> bool
    requires { index < length evidence.now.members }
    ensures { result ≡ backs_at shape.now evidence.now index }
{
    evidence.members.as_slice()[index].host != shape.primary(evidence.view)
}

/// Whether the tag of a member's claim verifies.
fn verifies_at(shape: &Shape, usig: &Usig, evidence: &Evidence, index: usize) -> bool
    requires { index < length evidence.now.members }
    ensures { result ≡ passes_at (verifies usig.now.secret) (evidence_claims shape.now evidence.now) (suc index) }
{
    let member = &evidence.members.as_slice()[index];
    let bare = enter_bare(evidence.view, evidence.counter, &evidence.plan);
    let ui = Ui {
        host: member.host,
        counter: member.counter,
        cert: member.cert,
    };
    usig.verify_ui(bare.as_slice(), &ui)
}

/// The reason for which a member fails.
fn reason(shape: &Shape, usig: &Usig, evidence: &Evidence, index: usize) -> Option<Why>
    requires { index < length evidence.now.members }
    ensures { result ≡ evidence_reason shape.now (verifies usig.now.secret) evidence.now index }
{
    if !rises_at(evidence.members.as_slice(), index) || !backs_at(shape, evidence, index) {
        return Some(Why::SameHost);
    }
    if !verifies_at(shape, usig, evidence, index) {
        return Some(Why::BadUi);
    }
    None
}

/// Whether the primary stamped the NEW_VIEW.
fn is_announced(shape: &Shape, usig: &Usig, evidence: &Evidence) -> bool
    ensures { result ≡ verifies usig.now.secret (new_view_claim shape.now evidence.now) }
{
    let bare = new_view_bare(
        evidence.view,
        evidence.base,
        evidence.end,
        &evidence.plan,
        &evidence.body,
    );
    let ui = Ui {
        host: shape.primary(evidence.view),
        counter: evidence.counter,
        cert: evidence.cert,
    };
    usig.verify_ui(bare.as_slice(), &ui)
}

impl CheckEvidence for Evidence {
    ghost certificate = { λ e. e };

    fn check(&self, shape: &Shape, usig: &Usig) -> Result<(), CertFault> {
        if !is_announced(shape, usig, self) {
            return Err(CertFault {
                index: CertFault::NEW_VIEW,
                why: Why::BadUi,
            });
        }
        let count = self.members.len();
        if count != usize::from(shape.f()) {
            return Err(CertFault::at(count, Why::Few));
        }
        for index in 0..count {
            if let Some(why) = reason(shape, usig, self, index) {
                return Err(CertFault::at(index, why));
            }
        }
        Ok(())
    }
}
