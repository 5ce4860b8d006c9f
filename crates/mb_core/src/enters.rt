//! ENTER: a backup answers the NEW_VIEW of its view.

ghost use Rattle.std.specs.Prelude.{◌<◌, Some};
ghost use Rattle.mb_base.specs.Shapes.{host_count};
ghost use Rattle.mb_change.specs.Searches.{with_enter};
ghost use Rattle.mb_change.specs.Represents.{StandsWith};
ghost use Rattle.mb_model.specs.Histories.{Identity};
ghost use Rattle.mb_replica.specs.Between.{WritesChange};
ghost use Rattle.mb_core.specs.Steps.{CarriesOut};
ghost use Rattle.mb_msg.specs.declared.change.NewView.{NewView as NewViewValue};
ghost use Rattle.mb_model.specs.Sending.{Progress};
ghost use Rattle.mb_model.specs.EnabledRules as rules;
ghost use Rattle.mb_core.specs.declared.rules.Due.TheVariants as due;
ghost use Rattle.mb_core.specs.Due.{IsDue};

use crate::stamping::{NO_UI, publish, sign};
use mb_base::NoMemory;
use mb_msg::{Enter, Stamped};
use mb_replica::{ReplicaState, StepOutput};
use mb_service::Service;
use std::alloc::Global;

/// Answers the held NEW_VIEW. The own ENTER is kept as another's.
pub(crate) fn enter<V: Service + Drop>(
    replica: &mut ReplicaState<V>,
    alloc: Global,
    done: &mut StepOutput,
) -> Result<(), NoMemory>
    requires { IsDue V.machine replica.old done.old due.Enter }
    ensures { (me : Identity V) (x : Progress) (n : NewViewValue) → CarriesOut me x (rules.Enter n) result replica.old done.old replica.new done.new }
{
    let Some(new_view) = replica.protocol.change.new_view() else {
        return Ok(());
    };
    let enter = Enter {
        view: new_view.view,
        counter: new_view.ui.counter,
        plan: new_view.plan,
        ui: NO_UI,
    };
    let signed = sign(replica, alloc, Stamped::Enter(enter))?;
    hold_enter(
        replica,
        Enter {
            ui: signed.ui,
            ..enter
        },
    );
    publish(replica, alloc, signed.message, signed.body, done)
}

/// The own ENTER is kept as another's.
fn hold_enter<V: Service + Drop>(replica: &mut ReplicaState<V>, m: Enter)
    requires { m.ui.host < host_count replica.old.protocol.shape }
    ensures writes { WritesChange replica.old replica.new }
    ensures holds { StandsWith replica.old.protocol.change (with_enter m) replica.new.protocol.change }
{
    replica.protocol.change.enter(m);
}
