//! FETCH: a host asks another for the state at its stable position, and gets a STATE.

use crate::sending::StepOutput;
use crate::state::ReplicaState;
use mb_base::NoMemory;
use mb_msg::{Fetch, Message, Outcome, To};
use mb_service::Service;
use std::alloc::Global;

impl<V: Service + Drop> ReplicaState<V> {
    ghost use Rattle.std.specs.Prelude.{◌≡◌, ◌<◌, IfOk, is_some};
    ghost use Rattle.mb_fetch.specs.Parts.{first_missing};
    ghost use Rattle.mb_executor.specs.Keeping.{found};
    ghost use Rattle.mb_msg.specs.Fits.{FitsFetch};
    ghost use Rattle.mb_model.specs.Sending.{Progress, send, to_host};
    ghost use Rattle.mb_model.specs.Given.{give_fetch};
    ghost use Rattle.mb_model.specs.Execution.{asked_host, snapshot_of, missing as missing_of};
    ghost use Rattle.mb_replica.specs.Represents.{StandsAt, HasHistory, Represents};
    ghost use Rattle.mb_replica.specs.Steps.{Goes};
    ghost use Rattle.mb_model.specs.Histories.{Identity, History};
    ghost use Rattle.mb_model.specs.PlainChecks.{fetch_refusal};
    ghost use Rattle.mb_model.specs.Making.{fetch};

    /// A STATE goes to who asks.
    pub(crate) fn give_fetch(
        &self,
        alloc: Global,
        m: &Fetch,
        done: &mut StepOutput,
    ) -> Result<Outcome, NoMemory>
        requires fits { FitsFetch self.now.protocol.shape m.now }
        requires history { HasHistory self.now }
        ensures { (me : Identity V) (x : Progress) → StandsAt me self.now done.old x → IfOk result (λ o. (o ≡ (give_fetch me m.now x).outcome) × StandsAt me self.now done.new (give_fetch me m.now x).left) }
    {
        let has_snapshot = self.keeper.has_snapshot(m.pos);
        if let Some(outcome) = self.fetch_refusal(m, has_snapshot) {
            return Ok(outcome);
        }
        let state = self
            .keeper
            .state_message(alloc, self.protocol.host, m.pos, m.first)?;
        self.send_own(alloc, To::Host(m.host), Message::State(state), done)?;
        Ok(Outcome::Took)
    }

    /// Of this host, for a position of which it has a snapshot.
    fn fetch_refusal(&self, m: &Fetch, has_snapshot: bool) -> Option<Outcome>
        ensures { (me : Identity V) (d : History) → Represents me self.now d → has_snapshot ≡ is_some (snapshot_of me d m.now.pos) → result ≡ fetch_refusal me d m.now }
    {
        (m.of != self.protocol.host || !has_snapshot).then_some(Outcome::Idle)
    }

    // ---- the own one

    /// Asks the host whose turn it is for the state at the stable position, from the first missing part on.
    pub fn send_fetch(
        &self,
        alloc: Global,
        missing: Option<u8>,
        done: &mut StepOutput,
    ) -> Result<(), NoMemory>
        requires behind { self.now.protocol.exec < self.now.protocol.stable.pos }
        requires missing { missing ≡ first_missing (found self.now.keeper.fetched) }
        requires history { HasHistory self.now }
        ensures { (me : Identity V) (x : Progress) → Goes me x (missing ≡ missing_of me x.history) (send (to_host (asked_host me x.history) (fetch me x.history)) x) result self.now done.old self.now done.new }
    {
        let message = self.fetch(missing);
        self.send_own(alloc, To::Host(self.protocol.asked), message, done)
    }

    fn fetch(&self, missing: Option<u8>) -> Message
        ensures { (me : Identity V) (d : History) → Represents me self.now d → missing ≡ missing_of me d → result ≡ fetch me d }
    {
        Message::Fetch(Fetch {
            host: self.protocol.host,
            of: self.protocol.asked,
            pos: self.low(),
            first: missing.unwrap_or(0),
        })
    }
}
