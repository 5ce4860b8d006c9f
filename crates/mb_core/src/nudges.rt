//! A Nudge.

ghost use Rattle.std.specs.Prelude.{OnOk, ◌≡◌, ◌<◌, ◌∷◌, nat_lt};
ghost use Rattle.mb_model.specs.Sending.{Progress};
ghost use Rattle.mb_model.specs.Histories.{Nudged, Identity, History, view_of};
ghost use Rattle.mb_model.specs.Held.{wish_of};
ghost use Rattle.mb_model.specs.HostStep.{on_nudge, wish_again};
ghost use Rattle.mb_replica.specs.Represents.{StandsAt, Represents, HasHistory};
ghost use Rattle.mb_base.specs.Shapes.{host_count};
ghost use Rattle.mb_model.specs.Execution.{next_host};

use mb_base::{Host, NoMemory};
use mb_replica::{ReplicaState, StepOutput};
use mb_service::Service;
use std::alloc::Global;

/// The host asks all for what they stamped, and tells its wish again where it isn't fulfilled. While it is behind, it goes on to the next host
/// that is asked for state.
pub(crate) fn on_nudge<V: Service + Drop>(
    replica: &mut ReplicaState<V>,
    alloc: Global,
    done: &mut StepOutput,
) -> Result<(), NoMemory>
    requires { HasHistory replica.old }
    ensures { (me : Identity V) (x : Progress) → StandsAt me replica.old done.old x → OnOk result (StandsAt me replica.new done.new ((on_nudge me x).left)) }
{
    replica.send_resend(alloc, done)?;
    ask_next(replica);
    wish_again(replica, alloc, done)
}

/// While this host is behind, the next host is asked for state.
fn ask_next<V: Service + Drop>(replica: &mut ReplicaState<V>)
    ensures { (me : Identity V) (d : History) → Represents me replica.old d → Represents me replica.new (Nudged ∷ d) }
{
    if replica.is_behind() {
        replica.protocol.asked = next_host(replica, replica.protocol.asked);
    }
}

/// The host behind another, passing over this one.
fn next_host<V: Service + Drop>(replica: &ReplicaState<V>, host: Host) -> Host
    requires { host < host_count replica.now.protocol.shape }
    ensures within { result < host_count replica.now.protocol.shape }
    ensures next { (me : Identity V) (d : History) → Represents me replica.now d → result ≡ next_host me host }
{
    let count = replica.protocol.shape.n();
    let next = (host + 1) % count;
    if next == replica.protocol.host {
        (host + 2) % count
    } else {
        next
    }
}

/// The wish is told again where it isn't fulfilled.
fn wish_again<V: Service + Drop>(
    replica: &ReplicaState<V>,
    alloc: Global,
    done: &mut StepOutput,
) -> Result<(), NoMemory>
    requires { HasHistory replica.now }
    ensures { (me : Identity V) (x : Progress) → StandsAt me replica.now done.old x → OnOk result (StandsAt me replica.now done.new (wish_again me x)) }
{
    if is_unfulfilled(replica) {
        return replica.send_wish(alloc, done);
    }
    Ok(())
}

/// The host wishes for a view above its own.
#[tactic(auto, using(mb_refinement::proofs::Changes::change_answers))]
fn is_unfulfilled<V: Service + Drop>(replica: &ReplicaState<V>) -> bool
    ensures { (me : Identity V) (d : History) → Represents me replica.now d → result ≡ nat_lt (view_of me d) (wish_of me d me.host) }
{
    replica.view() < replica.protocol.change.wish_of(replica.protocol.host)
}
