//! Where a host stands, and which positions count for it.

use crate::state::ReplicaState;
use mb_base::{Pos, View};
use mb_msg::{Floor, MAX_POS, Phase};
use mb_service::Service;

impl<V: Service + Drop> ReplicaState<V> {
    ghost use Rattle.std.specs.Prelude.{◌≡◌, ◌+◌, ◌%◌, ◌==◌};
    ghost use Rattle.mb_base.specs.Shapes.{span, interval};
    ghost use Rattle.mb_model.specs.Histories.{Identity, History, here, view_of};
    ghost use Rattle.mb_model.specs.Held.{is_current};
    ghost use Rattle.mb_model.specs.Stable.{low_of};
    ghost use Rattle.mb_model.specs.Positions.{is_behind, in_window, counts_at};
    ghost use Rattle.mb_model.specs.KindChecks.{is_beyond};
    ghost use Rattle.mb_replica.specs.Represents.{Represents};
    ghost use Rattle.mb_replica.specs.Waiting.{wants, has_pending};

    // ---- where this host stands

    /// Where the gate for its own messages stands.
    pub fn here(&self) -> Floor
        ensures { (me : Identity V) (d : History) → Represents me self.now d → result ≡ here me d }
    {
        self.protocol.gates[usize::from(self.protocol.host)].at()
    }

    /// The view in which this host stands, open or not.
    pub fn view(&self) -> View
        ensures { (me : Identity V) (d : History) → Represents me self.now d → result ≡ view_of me d }
    {
        self.here().view
    }

    /// This host has not executed all that is stable.
    pub fn is_behind(&self) -> bool
        ensures { (me : Identity V) (d : History) → Represents me self.now d → result ≡ is_behind me d }
    {
        self.protocol.exec < self.low()
    }

    /// A message of this view is not below the host's.
    pub(crate) fn is_current(&self, view: View) -> bool
        ensures { (me : Identity V) (d : History) → Represents me self.now d → result ≡ is_current me d view }
    {
        self.view() <= view
    }

    /// Whether this host waits for something: a request is pending, or its view is not open.
    pub fn wants(&self) -> bool
        ensures { (me : Identity V) (d : History) → Represents me self.now d → result ≡ wants me d }
    {
        self.here().phase != Phase::Open || self.has_pending()
    }

    fn has_pending(&self) -> bool
        ensures { (me : Identity V) (d : History) → Represents me self.now d → result ≡ has_pending me d }
    {
        for client in 0..self.protocol.shape.clients() {
            if self.protocol.normal.pending(client).is_some() {
                return true;
            }
        }
        false
    }

    // ---- positions

    /// The last position of the window.
    fn window_end(&self) -> Pos
        ensures { (me : Identity V) (d : History) → Represents me self.now d → result ≡ low_of me d + span me.shape }
    {
        self.low() + u64::from(self.protocol.shape.span())
    }

    /// Above the window.
    pub(crate) fn is_beyond(&self, pos: Pos) -> bool
        ensures { (me : Identity V) (d : History) → Represents me self.now d → result ≡ is_beyond me d pos }
    {
        pos > self.window_end()
    }

    /// A position of the window above the stable one. The greatest of all ends it too.
    pub(crate) fn in_window(&self, pos: Pos) -> bool
        ensures { (me : Identity V) (d : History) → Represents me self.now d → result ≡ in_window me d pos }
    {
        pos > self.low() && pos <= self.window_end() && pos <= MAX_POS
    }

    /// Where slots and votes count: in this host's view, at a position of the window.
    pub(crate) fn counts_at(&self, view: View, pos: Pos) -> bool
        ensures { (me : Identity V) (d : History) → Represents me self.now d → result ≡ counts_at me d view pos }
    {
        self.view() == view && self.in_window(pos)
    }

    /// A multiple of the interval.
    pub fn is_at_interval(&self, pos: Pos) -> bool
        ensures { result ≡ (pos % interval self.now.protocol.shape == 0) }
    {
        pos % u64::from(self.protocol.shape.k()) == 0
    }
}
