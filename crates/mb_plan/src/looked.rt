//! What was found of the votes that logs show: digests of batches, whether they are rightly tagged, and which PREPAREs were stamped. The logs of one
//! system vote for the same batches by the same PREPAREs, so what was found of them stays at the place of its position, and is taken again
//! where the same comes with another log.

ghost use Rattle.std.specs.Prelude.{◌≡◌, IfOk, IfSome, IsTrue};
ghost use Rattle.mb_base.specs.Shapes.{Bytes};
ghost use Rattle.mb_base.specs.declared.shape.Shape.{Shape as TheShape};
ghost use Rattle.mb_parts.specs.Fits.{FitsBatch, CanDigest};
ghost use Rattle.mb_parts.specs.Bares.{batch_digest};
ghost use Rattle.mb_parts.specs.Claims.{prepare_claim};
ghost use Rattle.mb_msg.specs.Bodies.{FitsBody};
ghost use Rattle.mb_msg.specs.Fits.{FitsShown};
ghost use Rattle.mb_model.specs.Verified.{verifies};
ghost use Rattle.mb_plan.specs.Looked.{IsFound, IsBodyFound, IsCommitFound, IsVoteFound, IsStamped, AreFound};

use crate::bodies::is_prepared;
use crate::tags::is_batch_tagged;
use mb_base::{Counter, Digest, NoMemory, Pos, Shape, View};
use mb_msg::{Batch, Body, Commit, Prepare, Shown};
use mb_usig::Usig;
use std::alloc::Global;

/// What was found of a batch: its digest, and whether each of its requests is rightly tagged.
#[derive(Clone, Copy)]
pub(crate) struct Found {
    pub(crate) digest: Digest,
    pub(crate) tagged: bool,
}

/// What was found of a vote: of its batch, and whether the primary stamped the PREPARE that it names, where it names one.
#[derive(Clone, Copy)]
pub(crate) struct FoundVote {
    pub(crate) batch: Found,
    pub(crate) prepared: bool,
}

/// A batch, and what was found of it.
#[derive(Clone, Copy)]
pub(crate) struct Looked<'a> {
    batch: &'a Batch,
    found: Found,
}

/// A PREPARE that a COMMIT names. `body` is the digest of its batch.
#[derive(Clone, Copy)]
pub(crate) struct Named {
    view: View,
    pos: Pos,
    counter: Counter,
    cert: Digest,
    body: Digest,
}

/// What was found at the place of a position: of a batch, and a PREPARE that was stamped.
#[derive(Clone, Copy)]
pub(crate) struct Place<'a> {
    pub(crate) looked: Option<Looked<'a>>,
    pub(crate) stamped: Option<Named>,
}

/// More places than a log has votes, so that votes of one log do not take each other's place.
pub(crate) const PLACES: usize = 8 * Shape::MAX_K as usize;

/// What is found of an entry that is no vote.
const NO_VOTE: FoundVote = FoundVote {
    batch: Found {
        digest: [0; 32],
        tagged: true,
    },
    prepared: true,
};

/// The index of the place of a position.
fn place_of(pos: Pos) -> usize {
    (pos % PLACES as u64) as usize
}

/// What was found of the same batch, where that is what stands at a place.
fn found_before(places: &[Place<'_>], place: usize, batch: &Batch) -> Option<Found>
    ensures { (shape : TheShape) (secret : Bytes) → AreFound shape secret places.now → IfSome result (IsFound secret batch.now) }
{
    let there = places.get(place)?.looked?;
    if there.batch == batch {
        Some(there.found)
    } else {
        None
    }
}

/// What a batch is found to be.
#[tactic(auto, using(mb_msg::proofs::Opened::has_digest))]
fn look(alloc: Global, usig: &Usig, batch: &Batch) -> Result<Found, NoMemory>
    requires { FitsBatch usig.now.shape batch.now }
    ensures { IfOk result (IsFound usig.now.secret batch.now) }
{
    let tagged = is_batch_tagged(alloc, usig, batch)?;
    Ok(Found {
        digest: batch.digest(),
        tagged,
    })
}

/// Keeps what was found of a batch, where there is such a place.
fn keep<'a>(places: &mut [Place<'a>], place: usize, batch: &'a Batch, found: Found)
    ensures { (shape : TheShape) (secret : Bytes) → AreFound shape secret places.old → IsFound secret batch.now found → AreFound shape secret places.new }
{
    if place < places.len() {
        places[place].looked = Some(Looked { batch, found });
    }
}

/// What a batch at a position is found to be, or was before.
fn find<'a>(
    alloc: Global,
    usig: &Usig,
    places: &mut [Place<'a>],
    pos: Pos,
    batch: &'a Batch,
) -> Result<Found, NoMemory>
    requires { FitsBatch usig.now.shape batch.now × AreFound usig.now.shape usig.now.secret places.old }
    ensures found { IfOk result (IsFound usig.now.secret batch.now) }
    ensures places { AreFound usig.now.shape usig.now.secret places.new }
{
    let place = place_of(pos);
    if let Some(found) = found_before(places, place, batch) {
        return Ok(found);
    }
    let found = look(alloc, usig, batch)?;
    keep(places, place, batch, found);
    Ok(found)
}

/// The same of a body. One that came as its digest shows no tags, and none is wrong.
fn find_body<'a>(
    alloc: Global,
    usig: &Usig,
    places: &mut [Place<'a>],
    pos: Pos,
    body: &'a Body<Batch>,
) -> Result<Found, NoMemory>
    requires { FitsBody (FitsBatch usig.now.shape) body.now × AreFound usig.now.shape usig.now.secret places.old }
    ensures found { IfOk result (IsBodyFound usig.now.shape usig.now.secret body.now) }
    ensures places { AreFound usig.now.shape usig.now.secret places.new }
{
    match body {
        Body::Whole(batch) => find(alloc, usig, places, pos, batch),
        Body::Bare(digest) => Ok(Found {
            digest: *digest,
            tagged: true,
        }),
    }
}

/// Whether two are the same.
fn is_same(first: &Named, second: &Named) -> bool
    ensures { IsTrue result → first.now ≡ second.now }
{
    first.view == second.view
        && first.pos == second.pos
        && first.counter == second.counter
        && first.cert == second.cert
        && first.body == second.body
}

/// Whether a PREPARE is the stamped one at a place.
fn was_stamped(places: &[Place<'_>], place: usize, named: &Named) -> bool
    ensures { (shape : TheShape) (secret : Bytes) → AreFound shape secret places.now → IsTrue result → IsStamped shape secret named.now }
{
    let Some(there) = places.get(place) else {
        return false;
    };
    match &there.stamped {
        Some(stamped) => is_same(stamped, named),
        None => false,
    }
}

/// Keeps a PREPARE that was stamped, where there is such a place.
fn keep_stamped(places: &mut [Place<'_>], place: usize, named: Named)
    ensures { (shape : TheShape) (secret : Bytes) → AreFound shape secret places.old → IsStamped shape secret named → AreFound shape secret places.new }
{
    if place < places.len() {
        places[place].stamped = Some(named);
    }
}

/// Whether the primary stamped the PREPARE that a COMMIT names, or did before. `body` is the digest of its batch.
fn find_prepare(
    alloc: Global,
    shape: &Shape,
    usig: &Usig,
    places: &mut [Place<'_>],
    commit: &Commit,
    body: &Digest,
) -> Result<bool, NoMemory>
    requires { AreFound shape.now usig.now.secret places.old }
    ensures found { IfOk result (λ right. right ≡ verifies usig.now.secret (prepare_claim shape.now commit.now.view commit.now.pos commit.now.counter commit.now.cert body.now)) }
    ensures places { AreFound shape.now usig.now.secret places.new }
{
    let place = place_of(commit.pos);
    let named = Named {
        view: commit.view,
        pos: commit.pos,
        counter: commit.counter,
        cert: commit.cert,
        body: *body,
    };
    if was_stamped(places, place, &named) {
        return Ok(true);
    }
    if !is_prepared(alloc, shape, usig, commit, body)? {
        return Ok(false);
    }
    keep_stamped(places, place, named);
    Ok(true)
}

/// What is found of a PREPARE.
fn find_prepared<'a>(
    alloc: Global,
    usig: &Usig,
    places: &mut [Place<'a>],
    prepare: &'a Prepare,
) -> Result<FoundVote, NoMemory>
    requires { FitsBody (FitsBatch usig.now.shape) prepare.now.body × AreFound usig.now.shape usig.now.secret places.old }
    ensures found { IfOk result (λ found. IsBodyFound usig.now.shape usig.now.secret prepare.now.body found.batch) }
    ensures places { AreFound usig.now.shape usig.now.secret places.new }
{
    let batch = find_body(alloc, usig, places, prepare.pos, &prepare.body)?;
    Ok(FoundVote {
        batch,
        prepared: true,
    })
}

/// What is found of a COMMIT.
fn find_commit<'a>(
    alloc: Global,
    shape: &Shape,
    usig: &Usig,
    places: &mut [Place<'a>],
    commit: &'a Commit,
) -> Result<FoundVote, NoMemory>
    requires { (usig.now.shape ≡ shape.now) × FitsBody (FitsBatch usig.now.shape) commit.now.body × AreFound shape.now usig.now.secret places.old }
    ensures found { IfOk result (IsCommitFound shape.now usig.now.secret commit.now) }
    ensures places { AreFound shape.now usig.now.secret places.new }
{
    let batch = find_body(alloc, usig, places, commit.pos, &commit.body)?;
    let prepared = find_prepare(alloc, shape, usig, places, commit, &batch.digest)?;
    Ok(FoundVote { batch, prepared })
}

/// What is found of an entry, where it is a vote.
pub(crate) fn find_vote<'a>(
    alloc: Global,
    shape: &Shape,
    usig: &Usig,
    places: &mut [Place<'a>],
    entry: &'a Shown,
) -> Result<FoundVote, NoMemory>
    requires { (usig.now.shape ≡ shape.now) × FitsShown shape.now entry.now × AreFound shape.now usig.now.secret places.old }
    ensures found { IfOk result (IsVoteFound shape.now usig.now.secret entry.now) }
    ensures places { AreFound shape.now usig.now.secret places.new }
{
    match entry {
        Shown::Prepare(m) => find_prepared(alloc, usig, places, m),
        Shown::Commit(m) => find_commit(alloc, shape, usig, places, m),
        _ => Ok(NO_VOTE),
    }
}

/// The digest of a batch at a position: the one that was found, where that is what stands at its place.
pub(crate) fn digest_at(places: &[Place<'_>], pos: Pos, batch: &Batch) -> Digest
    requires { CanDigest batch.now }
    ensures { (shape : TheShape) (secret : Bytes) → AreFound shape secret places.now → result ≡ batch_digest batch.now }
{
    match found_before(places, place_of(pos), batch) {
        Some(found) => found.digest,
        None => batch.digest(),
    }
}
