//! Patience: how many quiets a host bears that waits for something, before it wishes for the view behind its own.
//!
//! Quiets come by the clock, 20 in a second, whatever else comes. In a view that works a host bears eight of them. Whoever stands further ahead bears twice as
//! many for each view by which it is ahead of the last one that it saw work: so it waits for those behind, and they meet in one view. That goes by the number
//! of the view, and not by how often patience was lost, since of two hosts that wait equally long none comes up to the other; and who drives a host ahead has
//! to spend as much time as he takes away. A view works in which something was executed: one that opens and brings nothing may be too slow, or led by a liar.
//!
//! A host that has executed what a client asks waits for nothing. Where another one has not, and can't, the client has too few replies and asks again: so a
//! REQUEST that is answered again is something to wait for too, until something is executed or a view opens. For that it bears five times as many quiets: a
//! client may ask again though its replies are on their way, and whoever saw a REQUEST can repeat it.

ghost use Rattle.std.specs.Prelude.{◌≡◌, ◌+◌, ◌<◌, ◌^◌};
ghost use Rattle.mb_model.specs.Histories.{Identity, History};
ghost use Rattle.mb_core.specs.Represents.{Represents};
ghost use Rattle.mb_node.specs.Patience.{standing, patience_limit, fresh, is_spent, course_of, moves_on, worked_behind, again_behind, behind};

use mb_base::{Pos, View};
use mb_core::Replica;
use mb_msg::{Floor, Phase, Slot};
use mb_service::Service;

/// How many quiets a host bears that waits for something, in a view that works.
const WAITING: u64 = 8;

/// How many one bears that waits for nothing, and was asked again for what it had executed.
const ASKED: u64 = 40;

/// How often that is doubled at most: 8,192 quiets are some seven minutes.
const MOST_DOUBLINGS: u64 = 10;

/// Where a host stands.
#[derive(Clone, Copy, Drop)]
pub(crate) struct Standing {
    pub(crate) at: Floor,
    /// It waits for something.
    pub(crate) waits: bool,
}

/// What an event showed of the view in which it left the host.
#[derive(Clone, Copy, PartialEq, Eq, Drop)]
pub(crate) enum Course {
    /// Something was executed, or a state was taken over.
    Served,
    /// Neither, and the view was opened.
    Opened,
    /// None of these.
    Neither,
}

/// What an event showed.
#[derive(Clone, Copy, Drop)]
pub(crate) struct Shown {
    /// 1 for an event of a quiet, and 0 for one of a message.
    pub(crate) quiets: u64,
    /// The host lost patience.
    pub(crate) lost: bool,
    /// A REQUEST was answered again.
    pub(crate) again: bool,
    /// The host waits for something since then.
    pub(crate) begins: bool,
    pub(crate) course: Course,
    /// The view in which the host stands behind it.
    pub(crate) view: View,
    /// Behind it the host waits for something.
    pub(crate) waits: bool,
}

/// What a node keeps of its quiets, and of what it saw work.
#[derive(Clone, Copy, Drop)]
pub(crate) struct Patience {
    /// How many quiets count.
    pub(crate) quiets: u64,
    /// The last view that was seen to work: something was executed in it, or a state was taken over.
    pub(crate) worked_in: View,
    /// A REQUEST was answered again, and since then nothing was executed or taken over, and no view opened.
    pub(crate) asked_again: bool,
}

/// How many quiets a host bears that waits for something, or was only asked again, and is so many views ahead.
fn limit(waits: bool, ahead: u64) -> u64
    ensures { result ≡ patience_limit waits ahead }
{
    let least = if waits { WAITING } else { ASKED };
    least << ahead.min(MOST_DOUBLINGS)
}

/// What an event showed of a view, by the slots that it executed and the state that it took over, where the host stood, and where it stands.
pub(crate) fn course_of(
    executed: &[Slot],
    adopted: Option<Pos>,
    before: &Floor,
    after: &Floor,
) -> Course
    ensures { result ≡ course_of executed.now adopted before.now after.now }
{
    let was_open = before.phase == Phase::Open && before.view == after.view;
    match (executed, adopted) {
        ([], None) if after.phase == Phase::Open && !was_open => Course::Opened,
        ([], None) => Course::Neither,
        _ => Course::Served,
    }
}

impl Standing {
    /// Where this host stands.
    pub(crate) fn of<V: Service + Drop>(replica: &Replica<V>) -> Standing
        ensures { (me : Identity V) (d : History) → Represents me replica.now d → result ≡ standing me d }
    {
        Standing {
            at: replica.at(),
            waits: replica.wants(),
        }
    }
}

impl Course {
    /// Something was executed or taken over, or the view was opened.
    fn moves_on(self) -> bool
        ensures { result ≡ moves_on self }
    {
        self != Course::Neither
    }

    /// The last view that was seen to work, behind an event that left the host in this view.
    fn worked_behind(self, view: View, before: View) -> View
        ensures { result ≡ worked_behind self view before }
    {
        match self {
            Course::Served => view,
            Course::Opened | Course::Neither => before,
        }
    }

    /// Whether a REQUEST was answered again, and since then nothing was executed or taken over, and no view opened.
    fn again_behind(self, again: bool, before: bool) -> bool
        ensures { result ≡ again_behind self again before }
    {
        match self {
            Course::Served | Course::Opened => false,
            Course::Neither => again || before,
        }
    }
}

impl Patience {
    /// That of a host which stands in this view, and to which nothing has happened since.
    pub(crate) fn new(view: View) -> Patience
        ensures { result ≡ fresh view }
    {
        Patience {
            quiets: 0,
            worked_in: view,
            asked_again: false,
        }
    }

    /// Whether the next quiet is the last that a host bears which stands there.
    pub(crate) fn is_spent(&self, standing: &Standing) -> bool
        ensures { result ≡ is_spent standing.now self.now }
    {
        let ahead = standing.at.view.saturating_sub(self.worked_in);
        (standing.waits || self.asked_again)
            && self.quiets.saturating_add(1) >= limit(standing.waits, ahead)
    }

    /// Patience behind an event that showed this. The count of quiets begins anew where the host lost patience, something was executed or taken over, a view
    /// opened, and where the host begins to wait or waits for nothing.
    pub(crate) fn behind(self, shown: Shown) -> Patience
        requires { self.quiets + shown.quiets < 2 ^ 64 }
        ensures { result ≡ behind shown self }
    {
        let again = shown.course.again_behind(shown.again, self.asked_again);
        let settles = shown.lost
            || shown.course.moves_on()
            || shown.begins
            || !(shown.waits || again);
        Patience {
            quiets: if settles {
                0
            } else {
                self.quiets + shown.quiets
            },
            worked_in: shown.course.worked_behind(shown.view, self.worked_in),
            asked_again: again,
        }
    }
}
