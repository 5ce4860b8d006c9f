//! COMMIT: the vote of a backup for a batch that the primary ordered.

ghost use Rattle.std.specs.Prelude.{◌≡◌};
ghost use Rattle.mb_msg.specs.declared.stamped.Stamped.TheVariants as stamped;
ghost use Rattle.mb_msg.specs.Stamps.{mark_of};

use crate::identifiers::refusal_of;
use crate::state::ReplicaState;
use mb_base::{Digest, Ui};
use mb_msg::{Commit, Mark, Outcome, Prepare};
use mb_service::Service;

/// The kind of a PREPARE.
const PREPARE: u8 = 2;

impl<V: Service + Drop> ReplicaState<V> {
    ghost use Rattle.mb_model.specs.Histories.{Identity, History, Accepted};
    ghost use Rattle.std.specs.Prelude.{◌≡◌, Some, None};
    ghost use Rattle.mb_model.specs.Sending.{Progress, write};
    ghost use Rattle.mb_msg.specs.declared.stamped.Stamped.TheVariants as stamped;
    ghost use Rattle.mb_msg.specs.declared.message.Message.TheVariants as message;
    ghost use Rattle.mb_msg.specs.declared.normal.Commit.{Commit as CommitValue};
    ghost use Rattle.mb_msg.specs.Fits.{FitsCommit, FitsPrepare};
    ghost use Rattle.mb_msg.specs.Stamps.{mark_of};
    ghost use Rattle.mb_msg.specs.AsStamped.{stamped_digest};
    ghost use Rattle.mb_model.specs.KindChecks.{stamped_refusal};
    ghost use Rattle.mb_model.specs.Given.{accept, casts_vote, named_prepare, offer_prepare};
    ghost use Rattle.mb_replica.specs.declared.sending.StepOutput.{StepOutput as DoneValue};
    ghost use Rattle.mb_replica.specs.Steps.{Moves};
    ghost use Rattle.mb_replica.specs.Represents.{IsHost, Represents, StandsAt};
    ghost use Rattle.mb_replica.specs.Between.{BehindCommit};

    /// A COMMIT is its sender's vote, and one that casts a vote brings the PREPARE that it names.
    pub(crate) fn accept_commit(&mut self, m: Commit, digest: Digest, mark: &Mark)
        requires fits { FitsCommit self.old.protocol.shape m }
        requires digest { digest ≡ stamped_digest (stamped.Commit m) }
        requires mark { mark.now ≡ mark_of (stamped.Commit m) }
        ensures { (me : Identity V) (x : Progress) → Moves me x (stamped_refusal me x.history (stamped.Commit m) ≡ None) (accept me (stamped.Commit m) x) self.old self.new }
    {
        if !self.casts_vote(&m) {
            self.gate_follows(m.ui.host, mark);
            return;
        }
        self.count_vote(m.pos, m.ui.host, m.counter, digest);
        self.gate_follows(m.ui.host, mark);
        self.offer_prepare(m, digest);
    }

    /// It counts as a vote.
    fn casts_vote(&self, m: &Commit) -> bool
        ensures { (me : Identity V) (d : History) → Represents me self.now d → result ≡ casts_vote me d m.now }
    {
        self.counts_at(m.view, m.pos)
    }

    /// The PREPARE that a COMMIT names is accepted, closes its gate, or is passed over.
    fn offer_prepare(&mut self, m: Commit, digest: Digest)
        requires fits { FitsCommit self.old.protocol.shape m }
        requires digest { digest ≡ stamped_digest (stamped.Commit m) }
        ensures { (me : Identity V) (x : Progress) → (done : DoneValue) → StandsAt me self.old done x → BehindCommit me m x.history → StandsAt me self.new done (offer_prepare me (named_prepare me m) x) }
    {
        let prepare = self.named_prepare(m);
        let mark = prepare_mark(&prepare);
        match self.named_refusal(&prepare, &mark) {
            None => self.take_prepare(prepare, digest, &mark),
            Some(outcome) => self.closing(outcome, &prepare.ui),
        }
    }

    /// Why the PREPARE that a COMMIT names is refused. Its certificate and its body were checked with the COMMIT.
    fn named_refusal(&self, prepare: &Prepare, mark: &Mark) -> Option<Outcome>
        requires fits { FitsPrepare self.now.protocol.shape prepare.now }
        requires mark { mark.now ≡ mark_of (stamped.Prepare prepare.now) }
        ensures { (me : Identity V) (d : History) → (m : CommitValue) → Represents me self.now d → BehindCommit me m d → prepare.now ≡ named_prepare me m → result ≡ stamped_refusal me d (stamped.Prepare prepare.now) }
    {
        if self.is_own_future(&prepare.ui) {
            return Some(Outcome::Idle);
        }
        refusal_of(self.protocol.gates[usize::from(prepare.ui.host)].judge(mark, true))
    }

    /// A PREPARE does what it does, and the gate of the primary takes it.
    fn take_prepare(&mut self, prepare: Prepare, digest: Digest, mark: &Mark)
        requires fits { FitsPrepare self.old.protocol.shape prepare }
        requires digest { digest ≡ stamped_digest (stamped.Prepare prepare) }
        requires mark { mark.now ≡ mark_of (stamped.Prepare prepare) }
        ensures { (me : Identity V) (x : Progress) → Moves me x (stamped_refusal me x.history (stamped.Prepare prepare) ≡ None) (write (Accepted (message.Prepare prepare)) x) self.old self.new }
    {
        let host = prepare.ui.host;
        self.accept_prepare(prepare, digest);
        self.gate_follows(host, mark);
    }

    /// The PREPARE that a COMMIT names, in the form of the COMMIT.
    fn named_prepare(&self, m: Commit) -> Prepare
        requires { FitsCommit self.now.protocol.shape m }
        ensures named { (me : Identity V) → IsHost me self.now → result ≡ named_prepare me m }
        ensures fits { FitsPrepare self.now.protocol.shape result }
        ensures body { result.body ≡ m.body }
    {
        let cert = m.cert;
        let ui = Ui {
            host: self.protocol.shape.primary(m.view),
            counter: m.counter,
            cert,
        };
        Prepare {
            view: m.view,
            pos: m.pos,
            ui,
            body: m.body,
        }
    }
}

/// What a gate reads of a PREPARE.
fn prepare_mark(m: &Prepare) -> Mark
    ensures { result ≡ mark_of (stamped.Prepare m.now) }
{
    Mark {
        kind: PREPARE,
        view: m.view,
        pos: m.pos,
        end: 0,
        counter: m.ui.counter,
    }
}
