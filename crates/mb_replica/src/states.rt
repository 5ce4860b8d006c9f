//! STATE: its parts are held, and with all of them the state is installed.

ghost use Rattle.std.specs.Prelude.{◌≡◌, true};
ghost use Rattle.mb_replica.specs.Answers.{is_taken};

use crate::given::Reaction;
use crate::sending::StepOutput;
use crate::state::ReplicaState;
use mb_base::{NoMemory, Pos};
use mb_executor::Fetched;
use mb_msg::{Outcome, StateMsg};
use mb_service::Service;
use std::alloc::Global;

impl<V: Service + Drop> ReplicaState<V> {
    ghost use Rattle.mb_msg.specs.Fits.{FitsState};
    ghost use Rattle.mb_msg.specs.declared.message.Message.TheVariants as message;
    ghost use Rattle.mb_model.specs.PlainChecks.{is_wanted};
    ghost use Rattle.mb_model.specs.Sending.{Progress};
    ghost use Rattle.mb_model.specs.Given.{give_state};
    ghost use Rattle.std.specs.Prelude.{length, ◌≡◌, ◌<◌};
    ghost use Rattle.mb_base.specs.Shapes.{client_count};
    ghost use Rattle.mb_cache.specs.Tables.{last_of};
    ghost use Rattle.mb_replica.specs.Represents.{Serves, StandsAt, IsInStep, Represents};
    ghost use Rattle.mb_replica.specs.Steps.{AnswersAt, Reacts};
    ghost use Rattle.mb_replica.specs.Between.{WritesNormal};
    ghost use Rattle.mb_replica.specs.Installing.{Settles, WritesInstalled, DoesInstall};
    ghost use Rattle.mb_model.specs.Histories.{Identity, History};

    /// A STATE that is not wanted is idle. Each asks for the parts that are missing still.
    pub(crate) fn give_state(
        &mut self,
        alloc: Global,
        m: &StateMsg,
        done: &mut StepOutput,
    ) -> Result<Reaction, NoMemory>
        requires fits { FitsState self.old.protocol.shape m.now }
        requires standing { IsInStep V.machine self.old done.old }
        ensures { (me : Identity V) (x : Progress) → Serves V.machine me → StandsAt me self.old done.old x → Reacts me (message.State m.now) (give_state me m.now x) result self.new done.new }
    {
        if !self.is_wanted(m.pos) {
            return Ok(answered(Outcome::Idle));
        }
        Ok(answered(self.answer_state(alloc, m, done)?))
    }

    fn answer_state(
        &mut self,
        alloc: Global,
        m: &StateMsg,
        done: &mut StepOutput,
    ) -> Result<Outcome, NoMemory>
        requires fits { FitsState self.old.protocol.shape m.now }
        requires stable { m.now.pos ≡ self.old.protocol.stable.pos }
        requires behind { self.old.protocol.exec < self.old.protocol.stable.pos }
        requires standing { IsInStep V.machine self.old done.old }
        ensures { AnswersAt (Serves V.machine) (λ me x. give_state me m.now x) result self.old done.old self.new done.new }
    {
        let certified = self.protocol.stable.state;
        match self.keeper.take_state(alloc, &certified, m)? {
            Fetched::WrongDigest { part } => Ok(Outcome::WrongDigest { part }),
            Fetched::Nothing => Ok(Outcome::Idle),
            Fetched::BadState { part, at } => Ok(Outcome::BadState { part, at }),
            Fetched::Parts => Ok(Outcome::Took),
            Fetched::State => {
                self.install(done);
                Ok(Outcome::Took)
            }
        }
    }

    /// All up to the stable position counts as executed, and pending requests that are not fresh any more go.
    fn install(&mut self, done: &mut StepOutput)
        requires { length self.old.keeper.served.table ≡ client_count self.old.protocol.shape }
        ensures writes { WritesInstalled self.old self.new }
        ensures settles { Settles self.old.protocol.normal self.new.protocol.normal (λ c. (last_of self.old.keeper.served.table c).seq) (client_count self.old.protocol.shape) }
        ensures done { DoesInstall self.old.protocol.stable.pos done.old done.new }
    {
        let low = self.low();
        self.settle_all();
        self.protocol.exec = low;
        done.installed = Some(low);
    }

    /// The pending request of each client goes where it is not above its last executed one.
    fn settle_all(&mut self)
        requires { length self.old.keeper.served.table ≡ client_count self.old.protocol.shape }
        ensures writes { WritesNormal self.old self.new }
        ensures settles { Settles self.old.protocol.normal self.new.protocol.normal (λ c. (last_of self.old.keeper.served.table c).seq) (client_count self.old.protocol.shape) }
    {
        for client in 0..self.protocol.shape.clients() {
            let last = self.keeper.last_seq(client);
            self.protocol.normal.settle(client, last);
        }
    }

    /// For the stable position, while this host is behind.
    fn is_wanted(&self, pos: Pos) -> bool
        ensures { (me : Identity V) (d : History) → Represents me self.now d → result ≡ is_wanted me d pos }
    {
        pos == self.low() && self.is_behind()
    }
}

/// What follows a STATE: the rules where it was taken, and a FETCH of the parts that are missing still.
fn answered(outcome: Outcome) -> Reaction
    ensures { result ≡ record { outcome = outcome; rules_follow = is_taken outcome; asks = true } }
{
    Reaction {
        outcome,
        rules_follow: outcome == Outcome::Took,
        asks: true,
    }
}
