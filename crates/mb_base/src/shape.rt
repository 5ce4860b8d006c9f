//! How many hosts and clients a system has, and how often it takes a checkpoint.

ghost use Rattle.std.specs.Prelude.{◌≡◌, ◌≤◌};
ghost use Rattle.mb_base.specs.Limits.{most_faults, least_interval, most_interval, most_clients};

use crate::names::{Host, View};

/// The size of a system: n = 2f+1 hosts, of which f may be faulty, a checkpoint at each k-th position, and some clients.
///
/// f is 1 to 3, k is 4 to 32, and there are 1 to 64 clients.
#[derive(Clone, Copy, PartialEq, Eq)]
pub struct Shape {
    f: u8,
    k: u8,
    clients: u8,
    ghost faults_in: { (1 ≤ f) × (f ≤ most_faults) },
    ghost interval_in: { (least_interval ≤ k) × (k ≤ most_interval) },
    ghost clients_in: { (1 ≤ clients) × (clients ≤ most_clients) },
}

/// The first of the three numbers of a shape that is outside its limits.
#[derive(Clone, Copy, Debug, PartialEq, Eq)]
pub struct BadShape {
    pub number: u8,
}

impl Shape {
    ghost use Rattle.std.specs.Prelude.{◌≡◌, ◌≤◌};
    ghost use Rattle.mb_base.specs.Shapes.{max_faults, interval, client_count, host_count, quorum, span, primary, Makes};

    /// The most hosts that may be faulty.
    pub const MAX_F: u8 = 3;

    /// The fewest positions from one checkpoint to the next.
    pub const MIN_K: u8 = 4;

    /// The most positions from one checkpoint to the next.
    pub const MAX_K: u8 = 32;

    /// The most clients.
    pub const MAX_CLIENTS: u8 = 64;

    /// A shape of these numbers. `BadShape` names the first of them that is outside its limits.
    pub fn new(f: u8, k: u8, clients: u8) -> Result<Shape, BadShape>
        ensures { Makes f k clients result }
    {
        if f < 1 || f > Shape::MAX_F {
            return Err(BadShape { number: f });
        }
        if k < Shape::MIN_K || k > Shape::MAX_K {
            return Err(BadShape { number: k });
        }
        if clients < 1 || clients > Shape::MAX_CLIENTS {
            return Err(BadShape { number: clients });
        }
        Ok(Shape { f, k, clients })
    }

    /// The most hosts that may be faulty.
    pub fn f(&self) -> u8
        ensures { result ≡ max_faults self.now }
    {
        self.f
    }

    /// The checkpoint interval, in positions.
    pub fn k(&self) -> u8
        ensures { result ≡ interval self.now }
    {
        self.k
    }

    /// The number of clients.
    pub fn clients(&self) -> u8
        ensures { result ≡ client_count self.now }
    {
        self.clients
    }

    /// The number of hosts, 2f+1.
    pub fn n(&self) -> u8
        ensures { result ≡ host_count self.now }
    {
        2 * self.f + 1
    }

    /// How many hosts decide together, f+1.
    pub fn quorum(&self) -> u8
        ensures { result ≡ quorum self.now }
    {
        self.f + 1
    }

    /// The most positions above the stable one that a host votes for, 2k.
    pub fn span(&self) -> u32
        ensures { result ≡ span self.now }
    {
        2 * u32::from(self.k)
    }

    /// The host that leads a view.
    pub fn primary(&self, view: View) -> Host
        ensures { result ≡ primary self.now view }
    {
        (view % u64::from(self.n())) as Host
    }
}
