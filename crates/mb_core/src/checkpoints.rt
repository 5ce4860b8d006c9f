//! CHECKPOINT: the digest of the state at a position, and the floors of all hosts under it.

ghost use Rattle.mb_replica.specs.Between.{BringsCheckpoint};
ghost use Rattle.std.specs.Prelude.{◌≡◌, IfOk, ◌<◌, None};
ghost use Rattle.mb_base.specs.Shapes.{host_count};
ghost use Rattle.mb_model.specs.Histories.{Identity, History, floor_below};
ghost use Rattle.mb_model.specs.Making.{floors_under, if_covered, checkpoint};
ghost use Rattle.mb_model.specs.Sending.{Progress};
ghost use Rattle.mb_replica.specs.Represents.{Represents};
ghost use Rattle.mb_core.specs.Steps.{Certifies};

use crate::stamping::{NO_UI, publish, sign};
use mb_base::{Digest, Duplicate, Host, Items, NoMemory, Pos};
use mb_msg::{Body, Checkpoint, Floor, Floors, Stamped};
use mb_replica::{ReplicaState, StepOutput};
use mb_service::Service;
use std::alloc::Global;

/// Stamps the CHECKPOINT of a state digest at a position, which is kept as another's.
pub(crate) fn checkpoint<V: Service + Drop>(
    replica: &mut ReplicaState<V>,
    alloc: Global,
    pos: Pos,
    state: Digest,
    done: &mut StepOutput,
) -> Result<(), NoMemory>
    requires { BringsCheckpoint replica.old done.old pos state }
    ensures { (me : Identity V) (x : Progress) → Certifies me x pos state result replica.old done.old replica.new done.new }
{
    let floors = floors_under(replica, alloc, pos)?;
    let checkpoint = Checkpoint {
        pos,
        state,
        body: Body::Whole(Floors { floors }),
        ui: NO_UI,
    };
    let kept = checkpoint.duplicate(alloc)?;
    let signed = sign(replica, alloc, Stamped::Checkpoint(checkpoint))?;
    let own = Checkpoint {
        ui: signed.ui,
        ..kept
    };
    let signed = replica.keep_checkpoint(alloc, own).and(Ok(signed))?;
    publish(replica, alloc, signed.message, signed.body, done)?;
    replica.cut_log(alloc)
}

/// For each host, where its gate stood behind its last CHECKPOINT under a position.
fn floors_under<V: Service + Drop>(
    replica: &ReplicaState<V>,
    alloc: Global,
    pos: Pos,
) -> Result<Items<Option<Floor>>, NoMemory>
    ensures { (me : Identity V) (d : History) → Represents me replica.now d → IfOk result (λ o. o ≡ floors_under me d pos) }
{
    let mut floors = Items::new(alloc);
    for host in 0..replica.protocol.shape.n() {
        floors.push(floor_under(replica, host, pos))?;
    }
    Ok(floors)
}

/// That of a host, where all that it voted for or joined at lies at or below the position.
fn floor_under<V: Service + Drop>(replica: &ReplicaState<V>, host: Host, pos: Pos) -> Option<Floor>
    requires { host < host_count replica.now.protocol.shape }
    ensures { (me : Identity V) (d : History) → Represents me replica.now d → result ≡ if_covered pos (floor_below d host pos) }
{
    match replica.protocol.gates[usize::from(host)].floor(pos) {
        Some(floor) if floor.top <= pos => Some(floor),
        _ => None,
    }
}
