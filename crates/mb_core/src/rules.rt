//! What follows in the same step: eight rules, of which the first that is enabled is next, again and again.

ghost use Rattle.std.specs.Prelude.{Some, ◌≡◌};
ghost use Rattle.mb_model.specs.Sending.{Progress};
ghost use Rattle.mb_model.specs.EnabledRules.{Rule, next_rule, next_position};
ghost use Rattle.mb_model.specs.CarriedOut.{run_rules, carry_out, enough};
ghost use Rattle.mb_core.specs.Due.{IsDue, Names, change_rule, normal_rule};
ghost use Rattle.mb_replica.specs.Represents.{Serves, Represents, HasHistory, IsInStep};
ghost use Rattle.mb_replica.specs.Steps.{StepsTo};
ghost use Rattle.mb_core.specs.Steps.{CarriesNamed};
ghost use Rattle.mb_model.specs.Histories.{Identity, History};

use crate::commits::commit;
use crate::enters::enter;
use crate::executing::execute;
use crate::joins::join;
use crate::new_views::announce;
use crate::opens::open;
use crate::prepares::prepare;
use crate::stamping::{has_other_room, has_room};
use crate::view_changes::change_view;
use mb_base::{NoMemory, Pos, View};
use mb_change::ChangeDue;
use mb_normal::Due as NormalDue;
use mb_replica::{ReplicaState, StepOutput};
use mb_service::Service;
use std::alloc::Global;

/// At least as many rules as any step carries out.
const ENOUGH: u32 = 1_000_000;

/// What is to be done. What it is done with is lent from the tables when it is carried out.
#[derive(Clone, Copy)]
pub(crate) enum Due {
    /// Stamp VIEW_CHANGE to a view.
    ChangeView { view: View },
    /// Stamp NEW_VIEW of the first f+1 VIEW_CHANGEs.
    Announce,
    /// Stamp the ENTER that answers the held NEW_VIEW.
    Enter,
    /// Stamp OPEN with the evidence and the plan of the view.
    Open,
    /// Stamp JOIN at the stable position.
    Join,
    /// Stamp COMMIT of the slot of a position.
    Commit { pos: Pos },
    /// Execute the batch at a position.
    Execute { pos: Pos },
    /// Stamp PREPARE of pending requests at the next position.
    Prepare,
}

/// Carries out the next rule, until none is enabled.
pub(crate) fn run_rules<V: Service + Drop>(
    replica: &mut ReplicaState<V>,
    alloc: Global,
    done: &mut StepOutput,
) -> Result<(), NoMemory>
    requires { IsInStep V.machine replica.old done.old }
    ensures { StepsTo (Serves V.machine) (λ me x. run_rules me enough x) result replica.old done.old replica.new done.new }
{
    for _round in 0..ENOUGH {
        let Some(rule) = next_rule(replica) else {
            return Ok(());
        };
        carry_out(replica, alloc, rule, done)?;
    }
    Ok(())
}

fn carry_out<V: Service + Drop>(
    replica: &mut ReplicaState<V>,
    alloc: Global,
    rule: Due,
    done: &mut StepOutput,
) -> Result<(), NoMemory>
    requires { IsDue V.machine replica.old done.old rule }
    ensures { (me : Identity V) (x : Progress) (r : Rule) → Serves V.machine me → CarriesNamed me x rule r result replica.old done.old replica.new done.new }
{
    match rule {
        Due::ChangeView { view } => change_view(replica, alloc, view, done),
        Due::Announce => announce(replica, alloc, done),
        Due::Enter => enter(replica, alloc, done),
        Due::Open => open(replica, alloc, done),
        Due::Join => join(replica, alloc, done),
        Due::Commit { pos } => commit(replica, alloc, pos, done),
        Due::Execute { pos } => execute(replica, alloc, pos, done),
        Due::Prepare => prepare(replica, alloc, done),
    }
}

/// The first rule that is enabled. Those of view changes come before those of the normal case.
fn next_rule<V: Service + Drop>(replica: &ReplicaState<V>) -> Option<Due>
    requires { HasHistory replica.now }
    ensures { (me : Identity V) (d : History) → Represents me replica.now d → Names result (next_rule me d) }
{
    match change_rule(replica) {
        Some(rule) => Some(rule),
        None => normal_rule(replica),
    }
}

fn change_rule<V: Service + Drop>(replica: &ReplicaState<V>) -> Option<Due>
    ensures { (me : Identity V) (d : History) → Represents me replica.now d → Names result (change_rule me d) }
{
    let room = has_other_room(replica);
    match replica.protocol.change.due(&replica.here(), replica.protocol.exec, replica.low(), room) {
        ChangeDue::Nothing => None,
        ChangeDue::ViewChange { view } => Some(Due::ChangeView { view }),
        ChangeDue::NewView => Some(Due::Announce),
        ChangeDue::Enter => Some(Due::Enter),
        ChangeDue::Open => Some(Due::Open),
        ChangeDue::Join { .. } => Some(Due::Join),
    }
}

fn normal_rule<V: Service + Drop>(replica: &ReplicaState<V>) -> Option<Due>
    requires { HasHistory replica.now }
    ensures { (me : Identity V) (d : History) → Represents me replica.now d → Names result (normal_rule me d) }
{
    let room = has_room(replica);
    match replica.protocol.normal.due(&replica.here(), replica.protocol.exec, replica.low(), room) {
        NormalDue::Nothing => None,
        NormalDue::Commit { pos } => Some(Due::Commit { pos }),
        NormalDue::Execute { pos } => Some(Due::Execute { pos }),
        NormalDue::Prepare => Some(Due::Prepare),
    }
}

/// The position behind the last one.
pub(crate) fn next_position<V: Service + Drop>(replica: &ReplicaState<V>) -> Pos
    ensures { (me : Identity V) (d : History) → Represents me replica.now d → result ≡ next_position me d }
{
    replica.here().last.saturating_add(1)
}
