//! The rules of a gate, by kinds: what each needs to let a message stand where its sender stands, and where the sender stands then.

ghost use Rattle.std.specs.Prelude.{◌≡◌, [], max, IsTrue};
ghost use Rattle.mb_parts.specs.declared.floor.Phase.TheVariants as phase;
ghost use Rattle.mb_parts.specs.Ordered.{permits, phase_is_open, phase_is_entered};
ghost use Rattle.mb_gate.specs.Kinds.{message_with, StandsBehind};

use crate::kind::Kind;
use mb_base::{Host, Pos, Shape};
use mb_parts::{Floor, Mark, Phase};

/// Whether the rule of the message's kind lets it stand here. `inner` says that the certificates in it are valid.
#[tactic(auto, unfolding(mb_parts::specs::Ordered::permits, mb_parts::specs::Ordered::current_view, mb_parts::specs::Ordered::is_opened, mb_parts::specs::Ordered::is_entered, mb_parts::specs::Ordered::last_position, mb_parts::specs::Ordered::last_checkpoint))]
pub(crate) fn permits(
    shape: &Shape,
    sender: Host,
    at: &Floor,
    kind: Kind,
    mark: &Mark,
    inner: bool,
) -> bool
    ensures { result ≡ permits at.now shape.now sender (λ b. inner) [] (message_with kind mark.now) }
{
    let here = mark.view == at.view;
    let leads = shape.primary(at.view) == sender;
    let entered = is_entered(at);
    let opened = is_open(at);
    let follows = at.last.checked_add(1) == Some(mark.pos);
    let on_interval = mark.pos % u64::from(shape.k()) == 0;
    match kind {
        Kind::ViewChange => mark.view > at.view,
        Kind::NewView => here && leads && !entered && !opened,
        Kind::Enter => here && !leads && !entered && !opened,
        Kind::Open => here && !opened && (!leads || entered) && inner,
        Kind::Join => {
            here && (at.view == 0 || !leads || entered || opened)
                && mark.end <= mark.pos
                && (!opened || at.last <= mark.pos)
                && inner
        }
        Kind::Prepare => here && leads && opened && follows,
        Kind::Commit => here && !leads && opened && follows && inner,
        Kind::Checkpoint => on_interval && mark.pos > at.point,
    }
}

/// Where the sender stands behind a message that may stand here.
pub(crate) fn behind(at: &Floor, kind: Kind, mark: &Mark) -> Floor
    ensures { StandsBehind at.now kind mark.now result }
{
    let at = Floor {
        counter: mark.counter,
        ..*at
    };
    match kind {
        Kind::ViewChange => Floor {
            view: mark.view,
            phase: Phase::Changing,
            last: 0,
            ..at
        },
        Kind::NewView | Kind::Enter => Floor {
            phase: Phase::Entered,
            ..at
        },
        Kind::Open => at_position(at, mark.end),
        Kind::Join | Kind::Prepare | Kind::Commit => at_position(at, mark.pos),
        Kind::Checkpoint => Floor {
            point: mark.pos,
            ..at
        },
    }
}

/// The view is open, and its last position is this one.
fn at_position(at: Floor, pos: Pos) -> Floor
    ensures { result ≡ record at { phase = phase.Open; last = pos; top = max at.top pos } }
{
    Floor {
        phase: Phase::Open,
        last: pos,
        top: at.top.max(pos),
        ..at
    }
}

/// Whether the sender takes part in the change to its view.
fn is_entered(at: &Floor) -> bool
    ensures { result ≡ phase_is_entered at.now.phase }
{
    matches!(at.phase, Phase::Entered)
}

/// Whether the sender's view is open for it.
fn is_open(at: &Floor) -> bool
    ensures { result ≡ phase_is_open at.now.phase }
{
    matches!(at.phase, Phase::Open)
}
