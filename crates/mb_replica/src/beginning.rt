//! What a host agrees on that nothing has happened to.

ghost use Rattle.std.specs.Prelude.{◌≡◌, ◌<◌, IfOk};
ghost use Rattle.mb_base.specs.Shapes.{host_count};
ghost use Rattle.mb_model.specs.Plans.{no_base};
ghost use Rattle.mb_replica.specs.Beginning.{IsNew, AreNewGates};

use crate::protocol::Protocol;
use mb_base::{Host, Items, Key, NoMemory, Shape};
use mb_change::Change;
use mb_gate::Gate;
use mb_log::OwnLog;
use mb_msg::StableCert;
use mb_normal::Normal;
use mb_usig::Usig;
use std::alloc::Global;

impl Protocol {
    /// That of a host that nothing has happened to.
    pub(crate) fn make(
        alloc: Global,
        shape: Shape,
        host: Host,
        secret: &Key,
    ) -> Result<Protocol, NoMemory>
        requires { host < host_count shape }
        ensures { IfOk result (λ a. IsNew shape host secret.now a) }
    {
        Ok(Protocol {
            shape,
            host,
            usig: Usig::new(shape, host, secret).remembering(alloc),
            gates: gates(alloc, shape)?,
            log: OwnLog::make(alloc, shape, host)?,
            stable: no_base(alloc),
            exec: 0,
            normal: Normal::make(alloc, shape, host)?,
            change: Change::make(alloc, shape, host)?,
            asked: (host + 1) % shape.n(),
        })
    }
}

/// One for each host, where nothing was taken.
fn gates(alloc: Global, shape: Shape) -> Result<Vec<Gate>, NoMemory>
    ensures { IfOk result (λ v. AreNewGates shape v.items (host_count shape)) }
{
    let mut all = Vec::with_capacity(alloc, usize::from(shape.n()))?;
    for host in 0..shape.n() {
        all.push(Gate::new(shape, host))?;
    }
    Ok(all)
}

/// The certificate of position 0, whose state digest is 32 zero bytes.
fn no_base(alloc: Global) -> StableCert
    ensures { result ≡ no_base }
{
    StableCert {
        pos: 0,
        state: [0; 32],
        members: Items::new(alloc),
    }
}
