//! One event: what it does, the rules that follow, and a FETCH at its end.

ghost use Rattle.std.specs.Prelude.{◌≡◌, ◌&&◌, ◌||◌, true, OnOk};
ghost use Rattle.mb_msg.specs.Fits.{Fits};
ghost use Rattle.mb_msg.specs.Reading.{message_of};
ghost use Rattle.mb_model.specs.Histories.{Identity, History};
ghost use Rattle.mb_model.specs.Stable.{low_of};
ghost use Rattle.mb_model.specs.Positions.{is_behind};
ghost use Rattle.mb_model.specs.Sending.{Progress, begin};
ghost use Rattle.mb_model.specs.HostStep.{transition, on_bytes, on_message, on_patience, after_patience, on_nudge, finished, finished_where, with_fetch, low_rose};
ghost use Rattle.mb_replica.specs.Represents.{Represents, Serves, StandsAt, IsInStep};
ghost use Rattle.mb_replica.specs.Told.{KnowsBytes, KnowsEvent, KnowsMessage};
ghost use Rattle.mb_replica.specs.Steps.{AnswersEvent};
ghost use Rattle.mb_core.specs.Steps.{Finishes};

use crate::nudges::on_nudge;
use crate::patience::on_patience;
use crate::rules::run_rules;
use mb_base::{Digest, NoMemory, Pos};
use mb_msg::{Event, Message, Outcome, Undecoded, decode};
use mb_replica::{Reaction, ReplicaState, StepOutput};
use mb_service::Service;
use std::alloc::Global;

pub(crate) fn on_event<V: Service + Drop>(
    replica: &mut ReplicaState<V>,
    alloc: Global,
    event: &Event,
    known: &Option<Digest>,
    done: &mut StepOutput,
) -> Result<Outcome, NoMemory>
    requires stepping { IsInStep V.machine replica.old done.old }
    requires known { KnowsEvent replica.old.protocol.shape known.now event.now }
    ensures { AnswersEvent (Serves V.machine) (λ me d. transition me d event.now) result replica.old done.old replica.new done.new }
{
    match event {
        Event::Given(bytes) => on_bytes(replica, alloc, bytes.as_slice(), known, done),
        Event::Patience => after_patience(replica, alloc, done),
        Event::Nudge => after_nudge(replica, alloc, done),
    }
}

// ---- the three sorts of events

fn on_bytes<V: Service + Drop>(
    replica: &mut ReplicaState<V>,
    alloc: Global,
    bytes: &[u8],
    known: &Option<Digest>,
    done: &mut StepOutput,
) -> Result<Outcome, NoMemory>
    requires stepping { IsInStep V.machine replica.old done.old }
    requires known { KnowsBytes replica.old.protocol.shape known.now bytes.now }
    ensures { AnswersEvent (Serves V.machine) (λ me d. on_bytes me (message_of replica.old.protocol.shape bytes.now) d) result replica.old done.old replica.new done.new }
{
    match decode(alloc, &replica.protocol.shape, bytes) {
        Ok(message) => on_message(replica, alloc, message, known, done),
        Err(Undecoded::Malformed { at }) => Ok(Outcome::Malformed { at }),
        Err(Undecoded::NoMemory) => Err(NoMemory),
    }
}

fn on_message<V: Service + Drop>(
    replica: &mut ReplicaState<V>,
    alloc: Global,
    message: Message,
    known: &Option<Digest>,
    done: &mut StepOutput,
) -> Result<Outcome, NoMemory>
    requires fits { Fits replica.old.protocol.shape message }
    requires known { KnowsMessage known.now message }
    requires stepping { IsInStep V.machine replica.old done.old }
    ensures { AnswersEvent (Serves V.machine) (λ me d. on_message me d message) result replica.old done.old replica.new done.new }
{
    let before = replica.low();
    let answer = replica.give(alloc, message, known, done)?;
    finished_where(replica, alloc, answer, before, done)?;
    Ok(answer.outcome)
}

fn after_patience<V: Service + Drop>(
    replica: &mut ReplicaState<V>,
    alloc: Global,
    done: &mut StepOutput,
) -> Result<Outcome, NoMemory>
    requires { IsInStep V.machine replica.old done.old }
    ensures { AnswersEvent (Serves V.machine) (λ me d. after_patience me d (on_patience me (begin d))) result replica.old done.old replica.new done.new }
{
    let before = replica.low();
    let outcome = on_patience(replica, alloc, done)?;
    finished_where(replica, alloc, Reaction::of(outcome), before, done)?;
    Ok(outcome)
}

fn after_nudge<V: Service + Drop>(
    replica: &mut ReplicaState<V>,
    alloc: Global,
    done: &mut StepOutput,
) -> Result<Outcome, NoMemory>
    requires { IsInStep V.machine replica.old done.old }
    ensures { AnswersEvent (Serves V.machine) (λ me d. finished me true d (on_nudge me (begin d))) result replica.old done.old replica.new done.new }
{
    let before = replica.low();
    on_nudge(replica, alloc, done)?;
    finished(replica, alloc, true, before, done)?;
    Ok(Outcome::Took)
}

// ---- what follows an event

fn finished_where<V: Service + Drop>(
    replica: &mut ReplicaState<V>,
    alloc: Global,
    answer: Reaction,
    before: Pos,
    done: &mut StepOutput,
) -> Result<(), NoMemory>
    requires { IsInStep V.machine replica.old done.old }
    ensures { Finishes (Serves V.machine) before (λ me d a. finished_where me answer.rules_follow answer.asks d a) result replica.old done.old replica.new done.new }
{
    if answer.rules_follow {
        return finished(replica, alloc, answer.asks, before, done);
    }
    Ok(())
}

/// The rules, and the FETCH.
fn finished<V: Service + Drop>(
    replica: &mut ReplicaState<V>,
    alloc: Global,
    asks: bool,
    before: Pos,
    done: &mut StepOutput,
) -> Result<(), NoMemory>
    requires { IsInStep V.machine replica.old done.old }
    ensures { Finishes (Serves V.machine) before (λ me d a. finished me asks d a) result replica.old done.old replica.new done.new }
{
    run_rules(replica, alloc, done)?;
    with_fetch(replica, alloc, asks, before, done)
}

/// The FETCH, where the host asks for state.
fn with_fetch<V: Service + Drop>(
    replica: &ReplicaState<V>,
    alloc: Global,
    asks: bool,
    before: Pos,
    done: &mut StepOutput,
) -> Result<(), NoMemory>
    requires { IsInStep V.machine replica.now done.old }
    ensures { (me : Identity V) (d : History) (x : Progress) → StandsAt me replica.now done.old x → before ≡ low_of me d → OnOk result (StandsAt me replica.now done.new (with_fetch me asks d x)) }
{
    if asks_for_state(replica, asks, before) {
        return replica.send_fetch(alloc, replica.keeper.missing(), done);
    }
    Ok(())
}

/// While the host is behind it asks for state: in the step of a Nudge or of a STATE, and where the stable position rose in this step.
fn asks_for_state<V: Service + Drop>(replica: &ReplicaState<V>, asks: bool, before: Pos) -> bool
    ensures reads { (me : Identity V) (d now : History) → Represents me replica.now now → before ≡ low_of me d → result ≡ (is_behind me now && (asks || low_rose me d now)) }
    ensures behind { (me : Identity V) (now : History) → Represents me replica.now now → result ≡ true → is_behind me now ≡ true }
{
    replica.is_behind() && (asks || before < replica.low())
}
