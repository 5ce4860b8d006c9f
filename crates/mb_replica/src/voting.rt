//! PREPARE and COMMIT: why a vote is refused, and how slots and votes are counted.

ghost use Rattle.std.specs.Prelude.{◌≡◌};
ghost use Rattle.mb_parts.specs.Spelling.{batch_bytes};
ghost use Rattle.mb_msg.specs.Bodies.{whole_body, body_digest};

use crate::state::ReplicaState;
use mb_base::{Digest, Host, NoMemory, Pos, Ui, View};
use mb_msg::{Batch, Body, Outcome};
use mb_normal::Vote;
use mb_plan::are_tagged;
use mb_service::Service;
use std::alloc::Global;

impl<V: Service + Drop> ReplicaState<V> {
    ghost use Rattle.std.specs.Prelude.{◌≡◌, IfOk, ◌<◌};
    ghost use Rattle.mb_parts.specs.Fits.{FitsBatch};
    ghost use Rattle.mb_msg.specs.declared.event.Outcome.TheVariants as outcome;
    ghost use Rattle.mb_msg.specs.Bodies.{FitsBody};
    ghost use Rattle.mb_model.specs.Histories.{Identity, History, view_of};
    ghost use Rattle.mb_model.specs.Stable.{low_of};
    ghost use Rattle.mb_model.specs.Positions.{exec_of};
    ghost use Rattle.mb_model.specs.KindChecks.{vote_refusal, body_refusal, has_bad_tag};
    ghost use Rattle.mb_base.specs.Shapes.{host_count};
    ghost use Rattle.mb_refinement.specs.Positions.{CountsVote, PutsSlot};
    ghost use Rattle.mb_replica.specs.Represents.{Represents};
    ghost use Rattle.mb_replica.specs.Between.{WritesNormal};

    // ---- view, window and body

    /// A vote of an earlier view says nothing here.
    #[tactic(auto, unfolding(mb_model::specs::KindChecks::vote_refusal))]
    pub(crate) fn vote_refusal(
        &self,
        alloc: Global,
        view: View,
        pos: Pos,
        body: &Body<Batch>,
    ) -> Result<Option<Outcome>, NoMemory>
        requires { FitsBody (FitsBatch self.now.protocol.shape) body.now }
        ensures { (me : Identity V) (d : History) → Represents me self.now d → IfOk result (λ o. o ≡ vote_refusal me d view pos body.now) }
    {
        let here = self.view();
        if view > here {
            return Ok(Some(Outcome::LaterView { view: here }));
        }
        if view < here {
            return Ok(None);
        }
        if self.is_beyond(pos) {
            return Ok(Some(self.beyond_window()));
        }
        self.body_refusal(alloc, pos, body)
    }

    pub(crate) fn beyond_window(&self) -> Outcome
        ensures { (me : Identity V) (d : History) → Represents me self.now d → result ≡ outcome.BeyondWindow (low_of me d) }
    {
        Outcome::BeyondWindow { low: self.low() }
    }

    /// A batch that came as its digest is of use only where its position is executed.
    fn body_refusal(
        &self,
        alloc: Global,
        pos: Pos,
        body: &Body<Batch>,
    ) -> Result<Option<Outcome>, NoMemory>
        requires { FitsBody (FitsBatch self.now.protocol.shape) body.now }
        ensures { (me : Identity V) (d : History) → Represents me self.now d → IfOk result (λ o. o ≡ body_refusal me d pos body.now) }
    {
        match body {
            Body::Whole(batch) => { Ok(self.has_bad_tag(alloc, batch)?.then_some(Outcome::BadTag)) }
            Body::Bare(_) => Ok((pos > self.protocol.exec).then_some(self.need_body())),
        }
    }

    fn need_body(&self) -> Outcome
        ensures { (me : Identity V) (d : History) → Represents me self.now d → result ≡ outcome.NeedBody (view_of me d) (exec_of d) }
    {
        Outcome::NeedBody {
            view: self.view(),
            exec: self.protocol.exec,
        }
    }

    /// The tag of one of its requests is not that of the client's key.
    fn has_bad_tag(&self, alloc: Global, batch: &Batch) -> Result<bool, NoMemory>
        requires { FitsBatch self.now.protocol.shape batch.now }
        ensures { (me : Identity V) (d : History) → Represents me self.now d → IfOk result (λ o. o ≡ has_bad_tag me batch.now) }
    {
        Ok(!are_tagged(alloc, &self.protocol.usig, batch.requests.as_slice())?)
    }

    // ---- counting

    /// Counts the vote of a host for a position of the window. The first one stays.
    pub fn count_vote(&mut self, pos: Pos, host: Host, counter: u64, batch: Digest)
        requires { host < host_count self.old.protocol.shape }
        ensures counts { CountsVote self.old.protocol.normal self.new.protocol.normal pos host (record { counter = counter; request = batch }) }
        ensures writes { WritesNormal self.old self.new }
    {
        let vote = Vote {
            counter,
            request: batch,
        };
        let _first = self.protocol.normal.vote(pos, host, vote);
    }

    /// Puts the slot of a position of the window, which this identifier ordered. The first one stays.
    pub fn put_slot(&mut self, pos: Pos, ui: &Ui, digest: Digest, batch: Option<Batch>)
        ensures puts { PutsSlot self.old.protocol.normal self.new.protocol.normal pos (record { counter = ui.now.counter; cert = ui.now.cert; digest = digest; batch = batch }) }
        ensures writes { WritesNormal self.old self.new }
    {
        let _first = self
            .protocol
            .normal
            .slot(pos, ui.counter, ui.cert, digest, batch);
    }
}

/// The batch of a body, where it came whole. It keeps its digest, which is that of the body.
pub(crate) fn whole_batch(body: Body<Batch>, digest: Digest) -> Option<Batch>
    requires { digest ≡ body_digest batch_bytes body }
    ensures { result ≡ whole_body body }
{
    match body {
        Body::Whole(batch) => Some(batch.with_digest(digest)),
        Body::Bare(_) => None,
    }
}
