//! The state of a host: all that its step reads and writes.

ghost use Rattle.std.specs.Prelude.{◌≡◌, ◌<◌, [], IfOk};
ghost use Rattle.mb_base.specs.Shapes.{host_count};
ghost use Rattle.mb_model.specs.Histories.{Identity, History};
ghost use Rattle.mb_model.specs.Stable.{low_of};
ghost use Rattle.mb_replica.specs.Represents.{Represents, Serves, IsHost, IsAtRest};

use crate::protocol::Protocol;
use mb_base::{Host, Key, NoMemory, Pos, Shape};
use mb_executor::Keeper;
use mb_service::Service;
use std::alloc::Global;

/// What a host agrees on with others, and what it executes with.
#[derive(Drop)]
pub struct ReplicaState<V: Service> {
    pub protocol: Protocol,
    pub keeper: Keeper<V>,
}

impl<V: Service + Drop> ReplicaState<V> {
    /// That of a host that nothing has happened to. Its number is below the number of hosts.
    pub fn make(
        alloc: Global,
        shape: Shape,
        host: Host,
        secret: &Key,
        service: V,
    ) -> Result<ReplicaState<V>, NoMemory>
        requires { host < host_count shape }
        ensures stands { (me : Identity V) → Serves V.machine me → me.initial ≡ service → IfOk result (λ r. IsHost me r → Represents me r []) }
        ensures host { IfOk result (λ r. (r.protocol.shape ≡ shape) × (r.protocol.host ≡ host) × (r.protocol.usig.secret ≡ secret.now)) }
        ensures rests { IfOk result (λ r. IsAtRest V.machine r) }
    {
        service.known();
        Ok(ReplicaState {
            protocol: Protocol::make(alloc, shape, host, secret)?,
            keeper: Keeper::make(alloc, shape, service)?,
        })
    }

    /// The stable position.
    pub fn low(&self) -> Pos
        ensures low_is { result ≡ self.now.protocol.stable.pos }
        ensures reads { (me : Identity V) (d : History) → Represents me self.now d → result ≡ low_of me d }
    {
        self.protocol.stable.pos
    }
}
