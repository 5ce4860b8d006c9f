//! What a host agrees on with others, and where it stands.

ghost use Rattle.std.specs.Prelude.{◌≡◌, ◌<◌, ◌^◌, length};
ghost use Rattle.mb_base.specs.Shapes.{host_count};
ghost use Rattle.mb_checkpoints.specs.Kept.{low_of};

use mb_base::{Host, Pos, Shape};
use mb_change::Change;
use mb_gate::Gate;
use mb_log::OwnLog;
use mb_msg::StableCert;
use mb_normal::Normal;
use mb_usig::Usig;

/// What a host agrees on with the other hosts, apart from what it executes with. Each field but the first two is a search in the host's history.
#[derive(Drop)]
pub struct Protocol {
    pub shape: Shape,
    pub host: Host,
    /// Its counter is `counter_of`.
    pub usig: Usig,
    /// For each host `gate`, `closed_at` and the last two of `gate_floors`. That of this host follows what it stamps.
    pub gates: Vec<Gate>,
    /// `own_log`, `log_floor` and `log_longest`.
    pub log: OwnLog,
    /// `stable_of`. Its position is the low end of the windows in `normal`.
    pub stable: StableCert,
    /// `exec_of`.
    pub exec: Pos,
    /// Slots, votes, pending requests and CHECKPOINTs.
    pub normal: Normal,
    /// Wishes, VIEW_CHANGEs, ENTERs, OPENs, NEW_VIEW, evidence and plan.
    pub change: Change,
    /// `asked_host`.
    pub asked: Host,
    ghost host_in: { host < host_count shape },
    ghost usig_is: { (usig.shape ≡ shape) × (usig.host ≡ host) },
    ghost gates_len: { length gates.items ≡ host_count shape },
    ghost log_is: { (log.shape ≡ shape) × (log.host ≡ host) },
    ghost normal_is: { (normal.shape ≡ shape) × (normal.host ≡ host) },
    ghost change_is: { (change.shape ≡ shape) × (change.host ≡ host) },
    ghost low_most: { stable.pos < 2 ^ 63 },
    ghost low_is: { low_of normal.checkpoints ≡ stable.pos },
    ghost asked_in: { asked < host_count shape },
}
