//! The batches and plans that a vote or an OPEN shows.

use crate::counting::count_all;
use crate::heard::Heard;
use crate::plans::{KnownPlan, digests_of};
use mb_base::{Digest, NoMemory, Ui};
use mb_msg::{Batch, Body, Commit, Open, OpenBody, Prepare, commit_bare, prepare_bare};
use mb_plan::{are_tagged, check_open};
use std::alloc::Global;

impl Heard {
    ghost use Rattle.std.specs.Prelude.{◌≡◌, ◌+◌, ◌<◌, ◌^◌, ◌∷◌, ◌||◌, [], ℕ, length, false, OnOk, IfOk};
    ghost use Rattle.mb_parts.specs.Bares.{bare_bytes};
    ghost use Rattle.mb_parts.specs.Fits.{FitsBatch};
    ghost use Rattle.mb_parts.specs.Spelling.{batch_bytes};
    ghost use Rattle.mb_msg.specs.declared.stamped.Shown.TheVariants as shown;
    ghost use Rattle.mb_msg.specs.Bodies.{body_digest};
    ghost use Rattle.mb_msg.specs.Fits.{FitsShown, FitsOpen, FitsOpenParts};
    ghost use Rattle.mb_msg.specs.Stamps.{bare_of_shown};
    ghost use Rattle.mb_model.specs.Verified.{verifies};
    ghost use Rattle.mb_model.specs.Inside.{named_claim};
    ghost use Rattle.mb_learn.specs.Held.{is_stamped};
    ghost use Rattle.mb_learn.specs.Tables.{IsLowPlan};
    ghost use Rattle.mb_learn.specs.Hearing.{IsReady, Holds};
    ghost use Rattle.mb_learn.specs.Holding.{HoldsTagged, HoldsPlan, NotesPlan, plan_by};

    /// Holds a batch with tags that verify.
    fn hold_batch(&mut self, alloc: Global, digest: Digest, batch: &Batch) -> Result<(), NoMemory>
        requires fits { FitsBatch self.old.shape batch.now }
        requires ready { IsReady self.old }
        ensures { OnOk result (HoldsTagged digest batch.now self.old self.new) }
    {
        if !are_tagged(alloc, &self.usig, batch.requests.as_slice())? {
            return Ok(());
        }
        self.batches.hold(alloc, digest, batch)
    }

    /// Holds the batch of a PREPARE that its host stamped.
    pub(crate) fn hold_prepare(&mut self, alloc: Global, m: &Prepare) -> Result<(), NoMemory>
        requires fits { FitsShown self.old.shape (shown.Prepare m.now) }
        requires ready { IsReady self.old }
        ensures { OnOk result (Holds (shown.Prepare m.now ∷ []) self.old self.new) }
    {
        let Body::Whole(batch) = &m.body else {
            return Ok(());
        };
        let digest = batch.digest();
        if self.batches.get(&digest).is_some() {
            return Ok(());
        }
        let bare = prepare_bare(alloc, m.view, m.pos, &digest)?;
        if !self.usig.verify_ui(bare.as_slice(), &m.ui) {
            return Ok(());
        }
        self.hold_batch(alloc, digest, batch)
    }

    /// Holds the batch of a COMMIT, where its host stamped it or the primary stamped the PREPARE that it names.
    pub(crate) fn hold_commit(&mut self, alloc: Global, m: &Commit) -> Result<(), NoMemory>
        requires fits { FitsShown self.old.shape (shown.Commit m.now) }
        requires ready { IsReady self.old }
        ensures { OnOk result (Holds (shown.Commit m.now ∷ []) self.old self.new) }
    {
        let Body::Whole(batch) = &m.body else {
            return Ok(());
        };
        let digest = batch.digest();
        if self.batches.get(&digest).is_some() {
            return Ok(());
        }
        if !self.is_commit_certified(alloc, m, &digest)? {
            return Ok(());
        }
        self.hold_batch(alloc, digest, batch)
    }

    fn is_commit_certified(
        &self,
        alloc: Global,
        m: &Commit,
        digest: &Digest,
    ) -> Result<bool, NoMemory>
        requires { digest.now ≡ body_digest batch_bytes m.now.body }
        ensures { IfOk result (λ right. right ≡ (is_stamped self.now.shape self.now.usig.secret (shown.Commit m.now) || verifies self.now.usig.secret (named_claim self.now.shape m.now))) }
    {
        let bare = commit_bare(alloc, m.view, m.pos, m.counter, &m.cert, digest)?;
        if self.usig.verify_ui(bare.as_slice(), &m.ui) {
            return Ok(true);
        }
        let named = prepare_bare(alloc, m.view, m.pos, digest)?;
        let ui = Ui {
            host: self.shape.primary(m.view),
            counter: m.counter,
            cert: m.cert,
        };
        Ok(self.usig.verify_ui(named.as_slice(), &ui))
    }

    /// Whether an OPEN may show a plan that isn't known, or a batch that isn't held.
    pub(crate) fn lacks_some(&self, m: &Open) -> bool
        requires fits { FitsOpen self.now.shape m.now }
        requires ready { IsReady self.now }
        ensures { result ≡ false → Holds (shown.Open m.now ∷ []) self.now self.now }
    {
        match &m.body {
            Body::Whole(body) => {
                self.plans.get(&m.evidence.plan).is_none()
                    || !self.batches.has_all(body.batches.as_slice())
            }
            Body::Bare(_) => false,
        }
    }

    /// Holds the plan and the batches of an OPEN that its host stamped, where its body is that of the plan. `bare` is what its certificate covers.
    pub(crate) fn hold_open(&mut self, alloc: Global, m: &Open, bare: &[u8]) -> Result<(), NoMemory>
        requires fits { FitsOpen self.old.shape m.now }
        requires bare { bare.now ≡ bare_bytes (bare_of_shown (shown.Open m.now)) }
        requires ready { IsReady self.old }
        ensures { OnOk result (Holds (shown.Open m.now ∷ []) self.old self.new) }
    {
        let Body::Whole(body) = &m.body else {
            return Ok(());
        };
        if !self.usig.verify_ui(bare, &m.ui) {
            return Ok(());
        }
        if !check_open(alloc, &self.shape, &self.usig, &m.evidence, body)? {
            return Ok(());
        }
        self.hold_plan(alloc, &m.evidence.plan, body)
    }

    /// Holds the batches of a plan, and notes it.
    fn hold_plan(&mut self, alloc: Global, digest: &Digest, body: &OpenBody) -> Result<(), NoMemory>
        requires fits { FitsOpenParts self.old.shape body.now }
        requires low { body.now.stable.pos + length body.now.batches < 2 ^ 63 }
        requires ready { IsReady self.old }
        ensures { OnOk result (HoldsPlan (plan_by digest.now body.now) body.now.batches self.old self.new) }
    {
        self.batches.hold_all(alloc, body.batches.as_slice())?;
        if self.plans.get(digest).is_some() {
            return Ok(());
        }
        let plan = KnownPlan {
            digest: *digest,
            base: body.stable.pos,
            batches: digests_of(alloc, body.batches.as_slice())?,
        };
        self.note_plan(alloc, plan)
    }

    /// Notes a plan of a new digest, and counts the votes of the OPENs that were waiting for it.
    fn note_plan(&mut self, alloc: Global, plan: KnownPlan) -> Result<(), NoMemory>
        requires low { IsLowPlan plan }
        ensures { OnOk result (NotesPlan plan self.old self.new) }
    {
        count_all(alloc, &mut self.votes, self.openings.as_slice(), &plan)?;
        self.plans.add(alloc, plan)
    }
}
