//! Certificates that have as many members as the grammar gives them.

ghost use Rattle.std.specs.Prelude.{◌≡◌};
ghost use Rattle.mb_parts.specs.Fits.{FitsStable, FitsEvidence, FitsFloorCert};
ghost use Rattle.mb_parts.specs.Certificates.{is_stable, is_evidence, certified_floor};
ghost use Rattle.mb_model.specs.Verified.{verifies};

use mb_base::{Host, Shape};
use mb_cert::{CheckEvidence, CheckFloor, CheckStable};
use mb_msg::{Evidence, FloorCert, StableCert};
use mb_parts::Floor;
use mb_usig::Usig;

/// Whether a stable certificate checks.
#[tactic(auto, using(crate::proofs::Counts::stable_count))]
pub(crate) fn is_stable(shape: &Shape, usig: &Usig, cert: &StableCert) -> bool
    requires { FitsStable shape.now cert.now }
    ensures { result ≡ is_stable shape.now (verifies usig.now.secret) cert.now }
{
    match cert.check(shape, usig) {
        Ok(()) => true,
        Err(_) => false,
    }
}

/// Whether evidence checks.
#[tactic(auto, using(crate::proofs::Counts::evidence_count))]
pub(crate) fn is_evidence(shape: &Shape, usig: &Usig, evidence: &Evidence) -> bool
    requires { FitsEvidence shape.now evidence.now }
    ensures { result ≡ is_evidence shape.now (verifies usig.now.secret) evidence.now }
{
    match evidence.check(shape, usig) {
        Ok(()) => true,
        Err(_) => false,
    }
}

/// The floor that a floor certificate gives its owner, where it checks.
#[tactic(auto, using(crate::proofs::Counts::floor_count))]
pub(crate) fn certified_floor(
    shape: &Shape,
    usig: &Usig,
    owner: Host,
    cert: &FloorCert,
) -> Option<Floor>
    requires { FitsFloorCert shape.now cert.now }
    ensures { result ≡ certified_floor shape.now (verifies usig.now.secret) owner cert.now }
{
    match cert.check(shape, usig, owner) {
        Ok(floor) => Some(floor),
        Err(_) => None,
    }
}
