//! What stands inside stamped messages: certificates, and the bodies of OPENs.

ghost use Rattle.std.specs.Prelude.{◌≡◌, ◌≤◌, IfOk};
ghost use Rattle.mb_parts.specs.Fits.{FitsEvidence};
ghost use Rattle.mb_parts.specs.Bares.{Open as BareOpen, Join as BareJoin, Commit as BareCommit};
ghost use Rattle.mb_parts.specs.Spelling.{batch_bytes};
ghost use Rattle.mb_parts.specs.Certificates.{inner_valid};
ghost use Rattle.mb_parts.specs.Bares.{bare_bytes};
ghost use Rattle.mb_parts.specs.Claims.{prepare_claim};
ghost use Rattle.mb_msg.specs.Bodies.{body_digest, FitsBody};
ghost use Rattle.mb_msg.specs.Fits.{FitsOpenParts, FitsOpenBody, FitsCommit, FitsJoin, FitsShown, FitsStamped};
ghost use Rattle.mb_msg.specs.AsStamped.{stamped_digest};
ghost use Rattle.mb_msg.specs.Stamps.{bare_of, bare_of_shown};
ghost use Rattle.mb_model.specs.Verified.{verifies};
ghost use Rattle.mb_model.specs.UsableLogs.{is_comparable_body, is_plan_body, is_sound_plan, is_sound_body};
ghost use Rattle.mb_plan.specs.Looked.{IsVoteFound};

use crate::certificates::{is_evidence, is_stable};
use crate::looked::FoundVote;
use crate::plan_digests::digest_beside;
use crate::tags::are_batches_tagged;
use mb_base::{Digest, NoMemory, Pos, Shape, Ui};
use mb_msg::{
    Batch, Body, Commit, Evidence, Join, OpenBody, Shown, Stamped, commit_bare, prepare_bare,
};
use mb_usig::Usig;
use std::alloc::Global;

/// Whether a body has what is asked before its digest is compared: a stable certificate of the base that checks, and rightly tagged batches, as
/// many as the plan has.
fn is_comparable(
    alloc: Global,
    shape: &Shape,
    usig: &Usig,
    evidence: &Evidence,
    body: &OpenBody,
) -> Result<bool, NoMemory>
    requires { (usig.now.shape ≡ shape.now) × FitsEvidence shape.now evidence.now × FitsOpenParts shape.now body.now }
    ensures { IfOk result (λ right. right ≡ is_comparable_body shape.now usig.now.secret (verifies usig.now.secret) evidence.now.base evidence.now.end body.now) }
{
    if !is_stable(shape, usig, &body.stable) || body.stable.pos != evidence.base {
        return Ok(false);
    }
    if body.batches.len() as u64 != evidence.end - evidence.base {
        return Ok(false);
    }
    are_batches_tagged(alloc, usig, body.batches.as_slice())
}

/// The same as [`check_open`] says. `known` are batches that may keep their digests: where one with the same index is the same, it is not hashed again.
fn check_open_beside(
    alloc: Global,
    shape: &Shape,
    usig: &Usig,
    known: &[Batch],
    evidence: &Evidence,
    body: &OpenBody,
) -> Result<bool, NoMemory>
    requires { (usig.now.shape ≡ shape.now) × FitsEvidence shape.now evidence.now × FitsOpenParts shape.now body.now }
    ensures { IfOk result (λ right. right ≡ is_plan_body shape.now usig.now.secret (verifies usig.now.secret) evidence.now.base evidence.now.end evidence.now.plan body.now) }
{
    if !is_comparable(alloc, shape, usig, evidence, body)? {
        return Ok(false);
    }
    let batches = body.batches.as_slice();
    let found = digest_beside(known, evidence.base, &body.stable.state, batches);
    Ok(evidence.plan == found)
}

/// Whether the body of an OPEN is that of the plan of its evidence. The shape is that of the trusted part, and each field of both has an allowed
/// value.
pub fn check_open(
    alloc: Global,
    shape: &Shape,
    usig: &Usig,
    evidence: &Evidence,
    body: &OpenBody,
) -> Result<bool, NoMemory>
    requires { (usig.now.shape ≡ shape.now) × FitsEvidence shape.now evidence.now × FitsOpenParts shape.now body.now }
    ensures { IfOk result (λ right. right ≡ is_plan_body shape.now usig.now.secret (verifies usig.now.secret) evidence.now.base evidence.now.end evidence.now.plan body.now) }
{
    check_open_beside(alloc, shape, usig, &[], evidence, body)
}

/// Whether the primary stamped the PREPARE that a COMMIT names. `body` is the digest of its batch.
#[tactic(auto, unfolding(mb_parts::specs::Certificates::inner_valid))]
pub(crate) fn is_prepared(
    alloc: Global,
    shape: &Shape,
    usig: &Usig,
    commit: &Commit,
    body: &Digest,
) -> Result<bool, NoMemory>
    ensures { IfOk result (λ right. right ≡ verifies usig.now.secret (prepare_claim shape.now commit.now.view commit.now.pos commit.now.counter commit.now.cert body.now)) }
{
    let bare = prepare_bare(alloc, commit.view, commit.pos, body)?;
    let ui = Ui {
        host: shape.primary(commit.view),
        counter: commit.counter,
        cert: commit.cert,
    };
    Ok(usig.verify_ui(bare.as_slice(), &ui))
}

/// Whether the certificates in a JOIN check.
#[tactic(auto, unfolding(mb_parts::specs::Certificates::inner_valid))]
fn is_joined(shape: &Shape, usig: &Usig, join: &Join) -> bool
    requires { FitsJoin shape.now join.now }
    ensures { result ≡ inner_valid shape.now (verifies usig.now.secret) (BareJoin join.now.view join.now.evidence join.now.stable) }
{
    match &join.evidence {
        None => join.view == 0 && is_stable(shape, usig, &join.stable),
        Some(evidence) => {
            evidence.view == join.view
                && is_evidence(shape, usig, evidence)
                && is_stable(shape, usig, &join.stable)
        }
    }
}

/// Whether the certificates in a stamped message verify. `body` is the digest of its body.
#[tactic(auto, unfolding(mb_parts::specs::Certificates::inner_valid))]
pub fn inner_valid(
    alloc: Global,
    shape: &Shape,
    usig: &Usig,
    message: &Stamped,
    body: &Digest,
) -> Result<bool, NoMemory>
    requires { FitsStamped shape.now message.now × (body.now ≡ stamped_digest message.now) }
    ensures { IfOk result (λ right. right ≡ inner_valid shape.now (verifies usig.now.secret) (bare_of message.now)) }
{
    match message {
        Stamped::Commit(m) => is_prepared(alloc, shape, usig, m, body),
        Stamped::Open(m) => Ok(is_evidence(shape, usig, &m.evidence)),
        Stamped::Join(m) => Ok(is_joined(shape, usig, m)),
        _ => Ok(true),
    }
}

/// What the certificate of an entry of a shown log covers. `found` is what was found of it.
#[tactic(auto, using(mb_msg::proofs::Opened::body_has_digest))]
pub(crate) fn shown_bare(
    alloc: Global,
    shape: &Shape,
    usig: &Usig,
    entry: &Shown,
    found: &FoundVote,
) -> Result<Vec<u8>, NoMemory>
    requires { FitsShown shape.now entry.now × IsVoteFound shape.now usig.now.secret entry.now found.now }
    ensures { IfOk result (λ v. v.items ≡ bare_bytes (bare_of_shown entry.now)) }
{
    match entry {
        Shown::Prepare(m) => prepare_bare(alloc, m.view, m.pos, &found.batch.digest),
        Shown::Commit(m) => {
            commit_bare(
                alloc,
                m.view,
                m.pos,
                m.counter,
                &m.cert,
                &found.batch.digest,
            )
        }
        _ => entry.bare(alloc, shape),
    }
}

/// Whether the certificates in an entry of a shown log verify. `found` is what was found of it.
#[tactic(auto, unfolding(mb_parts::specs::Certificates::inner_valid))]
pub(crate) fn shown_inner_valid(
    shape: &Shape,
    usig: &Usig,
    entry: &Shown,
    found: &FoundVote,
) -> bool
    requires { FitsShown shape.now entry.now × IsVoteFound shape.now usig.now.secret entry.now found.now }
    ensures { result ≡ inner_valid shape.now (verifies usig.now.secret) (bare_of_shown entry.now) }
{
    match entry {
        Shown::Commit(_) => found.prepared,
        Shown::Open(m) => is_evidence(shape, usig, &m.evidence),
        Shown::Join(m) => is_joined(shape, usig, m),
        _ => true,
    }
}

/// Whether the body of an OPEN is that of its plan, where it is shown. `known` are batches that may keep their digests.
fn is_sound_plan(
    alloc: Global,
    shape: &Shape,
    usig: &Usig,
    known: &[Batch],
    evidence: &Evidence,
    body: &Body<OpenBody>,
) -> Result<bool, NoMemory>
    requires { (usig.now.shape ≡ shape.now) × FitsEvidence shape.now evidence.now × FitsBody (FitsOpenBody shape.now evidence.now) body.now }
    ensures { IfOk result (λ right. right ≡ is_sound_plan shape.now usig.now.secret (verifies usig.now.secret) evidence.now.base evidence.now.end evidence.now.plan body.now) }
{
    match body {
        Body::Whole(body) => check_open_beside(alloc, shape, usig, known, evidence, body),
        Body::Bare(_) => Ok(true),
    }
}

/// Whether what an entry shows beside its digest is right. `found` is what was found of it, and `known` are batches that may keep their digests.
pub(crate) fn is_sound_body(
    alloc: Global,
    shape: &Shape,
    usig: &Usig,
    known: &[Batch],
    entry: &Shown,
    found: &FoundVote,
) -> Result<bool, NoMemory>
    requires { (usig.now.shape ≡ shape.now) × FitsShown shape.now entry.now × IsVoteFound shape.now usig.now.secret entry.now found.now }
    ensures { IfOk result (λ right. right ≡ is_sound_body shape.now usig.now.secret (verifies usig.now.secret) entry.now) }
{
    match entry {
        Shown::Prepare(_) | Shown::Commit(_) => Ok(found.batch.tagged),
        Shown::Open(m) => is_sound_plan(alloc, shape, usig, known, &m.evidence, &m.body),
        _ => Ok(true),
    }
}
