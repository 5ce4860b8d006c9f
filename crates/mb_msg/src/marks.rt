//! What a gate reads of a stamped message.

ghost use Rattle.std.specs.Prelude.{◌≡◌};
ghost use Rattle.std.specs.Option.{option_map};
ghost use Rattle.mb_parts.specs.Ordered.{end_of};
ghost use Rattle.mb_msg.specs.Stamps.{as_stamped, marked, mark_of as stamped_mark, mark_of_shown};

use crate::change::{Enter, Join, Open};
use crate::kinds::{CHECKPOINT, COMMIT, ENTER, JOIN, NEW_VIEW, OPEN, PREPARE, VIEW_CHANGE};
use crate::message::Message;
use crate::stamped::{Shown, Stamped};
use mb_base::{Counter, Pos, View};
use mb_parts::{Evidence, Mark};

fn marked(kind: u8, view: View, pos: Pos, end: Pos, counter: Counter) -> Mark
    ensures { result ≡ marked kind view pos end counter }
{
    Mark {
        kind,
        view,
        pos,
        end,
        counter,
    }
}

fn end_of(evidence: &Option<Evidence>) -> Pos
    ensures { result ≡ end_of evidence.now }
{
    match evidence {
        None => 0,
        Some(evidence) => evidence.end,
    }
}

fn enter_mark(m: &Enter) -> Mark
    ensures { result ≡ marked 9 m.now.view 0 0 m.now.ui.counter }
{
    marked(ENTER, m.view, 0, 0, m.ui.counter)
}

fn open_mark(m: &Open) -> Mark
    ensures { result ≡ marked 10 m.now.evidence.view 0 m.now.evidence.end m.now.ui.counter }
{
    marked(OPEN, m.evidence.view, 0, m.evidence.end, m.ui.counter)
}

fn join_mark(m: &Join) -> Mark
    ensures { result ≡ marked 11 m.now.view m.now.stable.pos (end_of m.now.evidence) m.now.ui.counter }
{
    marked(
        JOIN,
        m.view,
        m.stable.pos,
        end_of(&m.evidence),
        m.ui.counter,
    )
}

impl Stamped {
    /// What a gate reads of the message.
    pub fn mark(&self) -> Mark
        ensures { result ≡ stamped_mark self.now }
    {
        match self {
            Stamped::Prepare(m) => marked(PREPARE, m.view, m.pos, 0, m.ui.counter),
            Stamped::Commit(m) => marked(COMMIT, m.view, m.pos, 0, m.ui.counter),
            Stamped::Checkpoint(m) => marked(CHECKPOINT, 0, m.pos, 0, m.ui.counter),
            Stamped::ViewChange(m) => marked(VIEW_CHANGE, m.view, 0, 0, m.ui.counter),
            Stamped::NewView(m) => marked(NEW_VIEW, m.view, 0, 0, m.ui.counter),
            Stamped::Enter(m) => enter_mark(m),
            Stamped::Open(m) => open_mark(m),
            Stamped::Join(m) => join_mark(m),
        }
    }
}

impl Shown {
    /// What a gate reads of the message.
    pub fn mark(&self) -> Mark
        ensures { result ≡ mark_of_shown self.now }
    {
        match self {
            Shown::Prepare(m) => marked(PREPARE, m.view, m.pos, 0, m.ui.counter),
            Shown::Commit(m) => marked(COMMIT, m.view, m.pos, 0, m.ui.counter),
            Shown::Checkpoint(m) => marked(CHECKPOINT, 0, m.pos, 0, m.ui.counter),
            Shown::ViewChange(m) => marked(VIEW_CHANGE, m.view, 0, 0, m.ui.counter),
            Shown::NewView(m) => marked(NEW_VIEW, m.view, 0, 0, m.ui.counter),
            Shown::Enter(m) => enter_mark(m),
            Shown::Open(m) => open_mark(m),
            Shown::Join(m) => join_mark(m),
        }
    }
}

/// What a gate reads of a message: None exactly for the kinds that are not stamped.
pub fn mark_of(message: &Message) -> Option<Mark>
    ensures { result ≡ option_map stamped_mark (as_stamped message.now) }
{
    match message {
        Message::Prepare(m) => Some(marked(PREPARE, m.view, m.pos, 0, m.ui.counter)),
        Message::Commit(m) => Some(marked(COMMIT, m.view, m.pos, 0, m.ui.counter)),
        Message::Checkpoint(m) => Some(marked(CHECKPOINT, 0, m.pos, 0, m.ui.counter)),
        Message::ViewChange(m) => Some(marked(VIEW_CHANGE, m.view, 0, 0, m.ui.counter)),
        Message::NewView(m) => Some(marked(NEW_VIEW, m.view, 0, 0, m.ui.counter)),
        Message::Enter(m) => Some(enter_mark(m)),
        Message::Open(m) => Some(open_mark(m)),
        Message::Join(m) => Some(join_mark(m)),
        Message::Request(_)
        | Message::Reply(_)
        | Message::ReqViewChange(_)
        | Message::Resend(_)
        | Message::Log(_)
        | Message::Fetch(_)
        | Message::State(_)
        | Message::Stop(_) => None,
    }
}
