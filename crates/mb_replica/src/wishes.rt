//! REQ_VIEW_CHANGE: the wish of a host for a view.

use crate::sending::StepOutput;
use crate::state::ReplicaState;
use mb_base::NoMemory;
use mb_msg::{Message, Outcome, ReqViewChange, To};
use mb_service::Service;
use std::alloc::Global;

impl<V: Service + Drop> ReplicaState<V> {
    ghost use Rattle.std.specs.Prelude.{OnOk, ◌≡◌};
    ghost use Rattle.mb_model.specs.Sending.{Progress, send, to_all};
    ghost use Rattle.mb_model.specs.Given.{give_wish};
    ghost use Rattle.mb_replica.specs.Represents.{StandsAt, Represents};
    ghost use Rattle.mb_replica.specs.Wishing.{Wishes};
    ghost use Rattle.mb_replica.specs.declared.sending.StepOutput.{StepOutput};
    ghost use Rattle.mb_msg.specs.Fits.{FitsWish};
    ghost use Rattle.mb_model.specs.Histories.{Identity, History};
    ghost use Rattle.mb_model.specs.PlainChecks.{wish_refusal, is_bad_wish};
    ghost use Rattle.mb_model.specs.Making.{wish};

    /// The tag, then whether it asks for more.
    #[tactic(auto, unfolding(mb_model::specs::PlainChecks::wish_refusal), using(mb_refinement::proofs::Changes::change_answers))]
    fn wish_refusal(&self, m: &ReqViewChange) -> Option<Outcome>
        requires { FitsWish self.now.protocol.shape m.now }
        ensures { (me : Identity V) (d : History) → Represents me self.now d → result ≡ wish_refusal me d m.now }
    {
        if self.is_bad_wish(m) {
            return Some(Outcome::BadTag);
        }
        (m.view <= self.protocol.change.wish_of(m.host)).then_some(Outcome::Idle)
    }

    fn is_bad_wish(&self, m: &ReqViewChange) -> bool
        ensures { (me : Identity V) (d : History) → Represents me self.now d → result ≡ is_bad_wish me m.now }
    {
        !self.protocol.usig.verify_wish(m.host, m.view, &m.tag)
    }

    /// A wish that asks for more is kept.
    pub(crate) fn give_wish(&mut self, m: &ReqViewChange) -> Outcome
        requires { FitsWish self.old.protocol.shape m.now }
        ensures { (me : Identity V) (x : Progress) → (done : StepOutput) → StandsAt me self.old done x → (result ≡ (give_wish me m.now x).outcome) × StandsAt me self.new done (give_wish me m.now x).left }
    {
        if let Some(outcome) = self.wish_refusal(m) {
            return outcome;
        }
        self.protocol.change.wish(m.host, m.view);
        Outcome::Took
    }

    /// The own wish.
    fn wish(&self) -> Message
        ensures { (me : Identity V) (d : History) → Represents me self.now d → result ≡ wish me d }
    {
        let view = self.protocol.change.wish_of(self.protocol.host);
        Message::ReqViewChange(ReqViewChange {
            host: self.protocol.host,
            view,
            tag: self.protocol.usig.tag_wish(view),
        })
    }

    /// Tells all the own wish.
    pub fn send_wish(&self, alloc: Global, done: &mut StepOutput) -> Result<(), NoMemory>
        requires { Wishes self.now }
        ensures { (me : Identity V) (x : Progress) → StandsAt me self.now done.old x → OnOk result (StandsAt me self.now done.new (send (to_all (wish me x.history)) x)) }
    {
        self.send_own(alloc, To::All, self.wish(), done)
    }
}
