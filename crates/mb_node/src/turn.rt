//! One event of a node: the host's step, its lines in the record, and what it sends.

ghost use Rattle.std.specs.Prelude.{◌≡◌, ◌≤◌, ◌<◌, ◌^◌, ℕ, false, length, IfOk, IfErr, OnOk, IsErrOf};
ghost use Rattle.mb_model.specs.Histories.{Identity, History};
ghost use Rattle.mb_steps.specs.Arises.{IsWhole};
ghost use Rattle.mb_core.specs.Represents.{Represents, IsAtRest};
ghost use Rattle.mb_replica.specs.Represents.{Serves};
ghost use Rattle.mb_node.specs.Events.{is_stopping, is_again, is_patience, quiets_in};
ghost use Rattle.mb_node.specs.Messages.{AreMessages};
ghost use Rattle.mb_edge.specs.Faults.{TellsFaults};
ghost use Rattle.mb_node.specs.Stops.{IsOfDisk};
ghost use Rattle.mb_node.specs.Outside.{outside};
ghost use Rattle.mb_node.specs.Turns.{shown_of, Steps, TakesTurn};

use crate::entries::lines;
use crate::outbox::Outbox;
use crate::patience::{Shown, Standing, course_of};
use crate::stops::ServeStop;
use mb_base::NoMemory;
use mb_core::{Replica, Stop};
use mb_edge::{Link, Sink, write_all};
use mb_msg::{Event, Outcome, Step};
use mb_service::Service;
use std::alloc::Global;

/// What an event means to the node.
#[derive(Clone, Copy, Drop)]
pub(crate) struct Turn {
    /// It was a right STOP.
    pub(crate) stops: bool,
    /// What it showed.
    pub(crate) shown: Shown,
}

/// The host's step.
pub(crate) fn step_of<V: Service + Drop>(
    alloc: Global,
    replica: &mut Replica<V>,
    event: &Event,
) -> Result<Step, NoMemory>
    requires runs { replica.old.halted ≡ false }
    requires rests { IsAtRest V.machine replica.old }
    ensures stands { (me : Identity V) (d : History) → Serves V.machine me → Represents me replica.old d → IsWhole d → IfOk result (λ s. Steps me d event.now s replica.new) }
    ensures messages { IfOk result (λ s. AreMessages s.sent) }
    ensures few { IfOk result (λ s. length s.sent < 2 ^ 32) }
    ensures rests { replica.new.halted ≡ false → IsAtRest V.machine replica.new }
    ensures runs { OnOk result (replica.new.halted ≡ false) }
{
    match replica.step(alloc, event) {
        Ok(step) => Ok(step),
        Err(Stop::NoMemory) => Err(NoMemory),
        Err(Stop::Halted) => unreachable!(),
    }
}

fn is_stopping(outcome: Outcome) -> bool
    ensures { result ≡ is_stopping outcome }
{
    match outcome {
        Outcome::Stopping => true,
        _ => false,
    }
}

fn is_again(outcome: Outcome) -> bool
    ensures { result ≡ is_again outcome }
{
    match outcome {
        Outcome::Again => true,
        _ => false,
    }
}

fn is_patience(event: &Event) -> bool
    ensures { result ≡ is_patience event.now }
{
    match event {
        Event::Patience => true,
        Event::Given(_) | Event::Nudge => false,
    }
}

fn quiets_in(event: &Event) -> u64
    ensures { result ≡ quiets_in event.now }
{
    match event {
        Event::Given(_) => 0,
        Event::Patience | Event::Nudge => 1,
    }
}

/// What an event showed by its step, where the host stood before it, and where it stands behind it.
fn shown(event: &Event, step: &Step, before: &Standing, after: &Standing) -> Shown
    ensures { result ≡ shown_of event.now step.now before.now after.now }
{
    Shown {
        quiets: quiets_in(event),
        lost: is_patience(event),
        again: is_again(step.outcome),
        begins: !before.waits && after.waits,
        course: course_of(
            step.executed.as_slice(),
            step.adopted,
            &before.at,
            &after.at,
        ),
        view: after.at.view,
        waits: after.waits,
    }
}

/// One event: it is written once the step is done, and its messages are sent once it is written.
pub(crate) fn take_turn<V: Service + Drop, K: Sink, L: Link>(
    alloc: Global,
    replica: &mut Replica<V>,
    link: &mut L,
    out: &mut K,
    outbox: &mut Outbox,
    event: Event,
) -> Result<Turn, ServeStop>
    requires runs { replica.old.halted ≡ false }
    requires rests { IsAtRest V.machine replica.old }
    ensures stands { TakesTurn V.machine event replica.old outbox.old (outside (K.seen out.old) (L.seen link.old)) (outside (K.seen out.new) (L.seen link.new)) replica.new outbox.new result }
    ensures unspent { (n : ℕ) → IsErrOf result (ServeStop.Budget n) → ⊥ }
    ensures alone { IfErr result (λ s. ¬ IsOfDisk s) }
    ensures one { IfOk result (λ t. t.shown.quiets ≤ 1) }
    ensures who { (outbox.new.host ≡ outbox.old.host) × (outbox.new.hosts ≡ outbox.old.hosts) }
    ensures rests { replica.new.halted ≡ false → IsAtRest V.machine replica.new }
    ensures runs { OnOk result (replica.new.halted ≡ false) }
    ensures received { (L.seen link.new).received ≡ (L.seen link.old).received }
    ensures opens { (L.seen link.new).opens ≡ (L.seen link.old).opens }
    ensures link { TellsFaults (L.never_fails link.old) (L.never_fails link.new) (L.seen link.old).faults (L.seen link.new).faults (IsErrOf result ServeStop.LinkFault) }
    ensures sink { TellsFaults (K.never_fails out.old) (K.never_fails out.new) (K.seen out.old).faults (K.seen out.new).faults (IsErrOf result ServeStop.SinkFault) }
{
    let before = Standing::of(replica);
    let step = step_of(alloc, replica, &event)?;
    let turn = Turn {
        stops: is_stopping(step.outcome),
        shown: shown(&event, &step, &before, &Standing::of(replica)),
    };
    let sent = step.sent.as_slice();
    write_all(out, lines(alloc, event, sent, turn.stops)?.as_slice())?;
    outbox.send_all(alloc, link, sent)?;
    Ok(turn)
}
