//! Lost patience.

ghost use Rattle.std.specs.Prelude.{◌≡◌, false, ◌==◌, IfOk, OnOk};
ghost use Rattle.mb_model.specs.Histories.{Identity, History, view_of};
ghost use Rattle.mb_model.specs.Sending.{Progress};
ghost use Rattle.mb_model.specs.Held.{view_limit};
ghost use Rattle.mb_model.specs.HostStep.{on_patience, wish_onward};
ghost use Rattle.mb_replica.specs.Represents.{StandsAt, Represents, HasHistory};
ghost use Rattle.mb_replica.specs.Wishing.{LosesPatience};

use mb_base::NoMemory;
use mb_msg::{MAX_VIEW, Outcome};
use mb_replica::{ReplicaState, StepOutput};
use mb_service::Service;
use std::alloc::Global;

/// The host wishes for the view behind its own, and tells it. In the greatest view there is none.
pub(crate) fn on_patience<V: Service + Drop>(
    replica: &mut ReplicaState<V>,
    alloc: Global,
    done: &mut StepOutput,
) -> Result<Outcome, NoMemory>
    requires { HasHistory replica.old }
    ensures { (me : Identity V) (x : Progress) → StandsAt me replica.old done.old x → IfOk result (λ o. (o ≡ (on_patience me x).outcome) × StandsAt me replica.new done.new (on_patience me x).left) }
{
    if is_last_view(replica) {
        return Ok(Outcome::Idle);
    }
    wish_onward(replica, alloc, done)?;
    Ok(Outcome::Took)
}

/// There is no view behind the host's.
fn is_last_view<V: Service + Drop>(replica: &ReplicaState<V>) -> bool
    ensures { (me : Identity V) (d : History) → Represents me replica.now d → result ≡ (view_of me d == view_limit) }
{
    replica.view() == MAX_VIEW
}

fn wish_onward<V: Service + Drop>(
    replica: &mut ReplicaState<V>,
    alloc: Global,
    done: &mut StepOutput,
) -> Result<(), NoMemory>
    requires { LosesPatience replica.old }
    ensures { (me : Identity V) (x : Progress) → StandsAt me replica.old done.old x → (view_of me x.history == view_limit) ≡ false → OnOk result (StandsAt me replica.new done.new (wish_onward me x)) }
{
    let next = replica.view() + 1;
    replica.protocol.change.wish(replica.protocol.host, next);
    replica.send_wish(alloc, done)
}
