//! REQUEST: what a client asks for.

use crate::sending::StepOutput;
use crate::state::ReplicaState;
use mb_base::NoMemory;
use mb_executor::Accept;
use mb_msg::{Outcome, Request};
use mb_plan::is_tagged;
use mb_service::Service;
use std::alloc::Global;

impl<V: Service + Drop> ReplicaState<V> {
    ghost use Rattle.mb_model.specs.Sending.{Progress, write};
    ghost use Rattle.mb_model.specs.Given.{give_request};
    ghost use Rattle.mb_replica.specs.Represents.{Serves, HasHistory, Represents};
    ghost use Rattle.mb_replica.specs.Steps.{Moves, AnswersAt};
    ghost use Rattle.std.specs.Prelude.{◌≡◌, None, IfOk};
    ghost use Rattle.mb_msg.specs.declared.message.Message.TheVariants as message;
    ghost use Rattle.mb_parts.specs.Fits.{FitsRequest};
    ghost use Rattle.mb_model.specs.Histories.{Accepted, Identity, History};
    ghost use Rattle.mb_model.specs.KindChecks.{is_badly_tagged};
    ghost use Rattle.mb_model.specs.PlainChecks.{request_refusal, number_refusal, is_behind_pending};
    ghost use Rattle.mb_model.specs.Execution.{pending};
    ghost use Rattle.mb_cache.specs.Answers.{Accepts};
    ghost use Rattle.mb_cache.specs.Tables.{last_of};

    /// A request becomes pending. The last executed one asks for its reply again.
    pub(crate) fn give_request(
        &mut self,
        alloc: Global,
        request: Request,
        done: &mut StepOutput,
    ) -> Result<Outcome, NoMemory>
        requires fits { FitsRequest self.old.protocol.shape request }
        requires history { HasHistory self.old }
        ensures { AnswersAt (Serves V.machine) (λ me x. give_request me request x) result self.old done.old self.new done.new }
    {
        let number = self.keeper.accept(request.client, request.seq);
        let Some(refusal) = self.request_refusal(alloc, &request, number)? else {
            self.pend(request);
            return Ok(Outcome::Took);
        };
        match refusal {
            Outcome::Again => {
                self.send_stored_reply(alloc, request.client, done)?;
                Ok(Outcome::Again)
            }
            other => Ok(other),
        }
    }

    /// A request takes the place of its client's pending one.
    fn pend(&mut self, request: Request)
        requires { FitsRequest self.old.protocol.shape request }
        ensures { (me : Identity V) (x : Progress) → Moves me x (request_refusal me x.history request ≡ None) (write (Accepted (message.Request request)) x) self.old self.new }
    {
        self.protocol.normal.pend(request);
    }

    /// The tag, then the number, of which the client table says this.
    #[tactic(auto, unfolding(mb_model::specs::PlainChecks::request_refusal))]
    fn request_refusal(
        &self,
        alloc: Global,
        request: &Request,
        number: Accept,
    ) -> Result<Option<Outcome>, NoMemory>
        requires fits { FitsRequest self.now.protocol.shape request.now }
        requires number { Accepts (last_of self.now.keeper.served.table request.now.client) request.now.seq number }
        ensures { (me : Identity V) (d : History) → Represents me self.now d → IfOk result (λ o. o ≡ request_refusal me d request.now) }
    {
        if self.is_badly_tagged(alloc, request)? {
            return Ok(Some(Outcome::BadTag));
        }
        Ok(self.number_refusal(request, number))
    }

    /// The tag is not that of the client's key.
    fn is_badly_tagged(&self, alloc: Global, request: &Request) -> Result<bool, NoMemory>
        requires { FitsRequest self.now.protocol.shape request.now }
        ensures { (me : Identity V) (d : History) → Represents me self.now d → IfOk result (λ o. o ≡ is_badly_tagged me request.now) }
    {
        Ok(!is_tagged(alloc, &self.protocol.usig, request)?)
    }

    fn number_refusal(&self, request: &Request, number: Accept) -> Option<Outcome>
        requires fits { FitsRequest self.now.protocol.shape request.now }
        requires number { Accepts (last_of self.now.keeper.served.table request.now.client) request.now.seq number }
        ensures { (me : Identity V) (d : History) → Represents me self.now d → result ≡ number_refusal me d request.now }
    {
        match number {
            Accept::Old { last } => Some(Outcome::Old { last }),
            Accept::Again { .. } => Some(Outcome::Again),
            Accept::Fresh => self.is_behind_pending(request).then_some(Outcome::Idle),
        }
    }

    /// Not above the one of its client that is pending.
    fn is_behind_pending(&self, request: &Request) -> bool
        requires { FitsRequest self.now.protocol.shape request.now }
        ensures { (me : Identity V) (d : History) → Represents me self.now d → result ≡ is_behind_pending (pending me d request.now.client) request.now }
    {
        match self.protocol.normal.pending(request.client) {
            Some(waiting) => request.seq <= waiting.seq,
            None => false,
        }
    }
}
