//! How a host stamps a message.

ghost use Rattle.std.specs.Prelude.{◌≡◌, IfOk, ◌<◌, ◌+◌, ◌-◌, ◌^◌, ◌++◌, ◌∷◌, [], true, OnOk};
ghost use Rattle.mb_usig.specs.Trusted.{ui_at};
ghost use Rattle.mb_model.specs.Histories.{Identity, History, Stamped as StampedEntry, counter_of};
ghost use Rattle.mb_model.specs.OwnLog.{is_unspent, has_room, has_other_room};
ghost use Rattle.mb_msg.specs.Fits.{Fits, FitsStamped};
ghost use Rattle.mb_msg.specs.Stamps.{as_message};
ghost use Rattle.mb_msg.specs.Spelling.{stamped_kind};
ghost use Rattle.mb_msg.specs.AsStamped.{stamped_digest};
ghost use Rattle.mb_log.specs.Logs.{has_room_for, appended};
ghost use Rattle.mb_model.specs.Sending.{signed, to_all};
ghost use Rattle.mb_replica.specs.Represents.{IsHost, Represents};
ghost use Rattle.mb_replica.specs.Told.{as_outgoing, said_of};
ghost use Rattle.mb_replica.specs.Between.{WritesCounter, WritesStamp};
ghost use Rattle.mb_core.specs.Steps.{GatesFollow};
ghost use Rattle.mb_core.specs.Signed.{IsSigned};

use mb_base::{Counter, Digest, Items, NoMemory, Ui};
use mb_msg::Stamped;
use mb_replica::{ReplicaState, Said, StepOutput};
use mb_service::Service;
use std::alloc::Global;

/// Stands in a message until it is stamped. Its fields have allowed values, since what is hashed has them.
pub(crate) const NO_UI: Ui = Ui {
    host: 0,
    counter: 1,
    cert: [0; 32],
};

/// PREPARE, which stands for COMMIT and CHECKPOINT too.
const NORMAL: u8 = 2;

/// VIEW_CHANGE, which stands for all the others.
const OTHER: u8 = 7;

/// A message that this host has bound to its counter, with the digest of its body.
///
/// Where what is done with it fails, `and(Ok(signed))` drops it.
#[derive(Drop)]
pub(crate) struct Signed {
    pub(crate) message: Stamped,
    pub(crate) ui: Ui,
    pub(crate) body: Digest,
}

// ---- room

/// The USIG has a counter left.
fn is_unspent<V: Service + Drop>(replica: &ReplicaState<V>) -> bool
    ensures { (me : Identity V) (d : History) → Represents me replica.now d → result ≡ is_unspent me d }
{
    replica.protocol.usig.counter() < Counter::MAX
}

/// For one more PREPARE, COMMIT or CHECKPOINT.
pub(crate) fn has_room<V: Service + Drop>(replica: &ReplicaState<V>) -> bool
    ensures { (me : Identity V) (d : History) → Represents me replica.now d → result ≡ has_room me d }
{
    replica.protocol.log.room(NORMAL) && is_unspent(replica)
}

/// For one more of the other kinds.
pub(crate) fn has_other_room<V: Service + Drop>(replica: &ReplicaState<V>) -> bool
    ensures { (me : Identity V) (d : History) → Represents me replica.now d → result ≡ has_other_room me d }
{
    replica.protocol.log.room(OTHER) && is_unspent(replica)
}

// ---- stamping

/// Binds the next counter to a message. There is one.
pub(crate) fn sign<V: Service + Drop>(
    replica: &mut ReplicaState<V>,
    alloc: Global,
    message: Stamped,
) -> Result<Signed, NoMemory>
    requires fits { FitsStamped replica.old.protocol.shape message }
    requires unspent { replica.old.protocol.usig.counter < 2 ^ 64 - 1 }
    ensures signed { (me : Identity V) (d : History) → IsHost me replica.old → replica.old.protocol.usig.counter ≡ counter_of d → IfOk result (λ s. IsSigned (signed me d message) s) }
    ensures writes { OnOk result (WritesCounter replica.old replica.new) }
{
    match said_of(replica, alloc, &message) {
        Ok(said) => {
            let ui = next_ui(replica, said.bare.as_slice());
            Ok(Signed {
                message: message.with_ui(ui),
                ui,
                body: said.body,
            })
        }
        Err(cause) => {
            drop(message);
            Err(cause)
        }
    }
}

/// What is to be stamped in a message.
fn said_of<V: Service + Drop>(
    replica: &ReplicaState<V>,
    alloc: Global,
    message: &Stamped,
) -> Result<Said, NoMemory>
    requires { FitsStamped replica.now.protocol.shape message.now }
    ensures { IfOk result (λ s. s ≡ said_of message.now) }
{
    let body = message.body_digest(alloc, &replica.protocol.shape)?;
    let bare = message.bare_with(alloc, &replica.protocol.shape, &body)?;
    Ok(Said {
        bare: Items::from_vec(bare),
        body,
    })
}

/// The identifier of the next message, of which these bytes are hashed.
fn next_ui<V: Service + Drop>(replica: &mut ReplicaState<V>, bare: &[u8]) -> Ui
    requires { replica.old.protocol.usig.counter < 2 ^ 64 - 1 }
    ensures ui { result ≡ ui_at replica.old.protocol.usig (replica.old.protocol.usig.counter + 1) bare.now }
    ensures writes { WritesCounter replica.old replica.new }
{
    match replica.protocol.usig.create_ui(bare) {
        Ok(ui) => ui,
        Err(_) => unreachable!(),
    }
}

/// Sends a signed message to all, lets the own gate take it, and puts it into the own log, which has room.
pub(crate) fn publish<V: Service + Drop>(
    replica: &mut ReplicaState<V>,
    alloc: Global,
    message: Stamped,
    body: Digest,
    done: &mut StepOutput,
) -> Result<(), NoMemory>
    requires room { has_room_for replica.old.protocol.log (stamped_kind message) ≡ true }
    requires fits { Fits replica.old.protocol.shape (as_message message) }
    requires body { body ≡ stamped_digest message }
    ensures sent { OnOk result (done.new.sent ≡ done.old.sent ++ as_outgoing (to_all (as_message message)) ∷ []) }
    ensures kept { (done.new.executed ≡ done.old.executed) × (done.new.installed ≡ done.old.installed) }
    ensures log { OnOk result (replica.new.protocol.log ≡ appended message replica.old.protocol.log) }
    ensures gates { (me : Identity V) (d : History) → GatesFollow me d (StampedEntry message) result replica.old replica.new }
    ensures writes { OnOk result (WritesStamp replica.old replica.new) }
{
    let message = replica
        .send_stamped(alloc, &message, body, done)
        .and(Ok(message))?;
    replica.gate_follows(replica.protocol.host, &message.mark());
    replica.protocol.log.append_with(message, body);
    Ok(())
}
