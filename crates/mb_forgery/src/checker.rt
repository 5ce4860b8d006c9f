//! What is asked while a message is looked through.

ghost use Rattle.std.specs.Prelude.{◌≡◌, length};
ghost use Rattle.mb_base.specs.Shapes.{client_count, host_count};

use crate::ledger::Ledger;
use mb_base::{Counter, Host, Shape, Ui};
use mb_usig::{Pen, Usig};

/// A certificate that verifies, and that its host did not stamp at its counter.
#[derive(Clone, Copy, PartialEq, Eq)]
pub struct ForgedClaim {
    pub host: Host,
    pub counter: Counter,
}

/// What is asked while a message is looked through.
#[derive(Clone, Copy)]
pub struct Checker<'a> {
    pub shape: &'a Shape,
    /// That of any host: certificates are verified by each alike.
    pub usig: &'a Usig,
    /// For each client, what it signs with.
    pub pens: &'a [Pen],
    pub faulty_hosts: &'a [bool],
    pub faulty_clients: &'a [bool],
    pub ledger: &'a Ledger,
    ghost hosts_len: { length faulty_hosts.now ≡ host_count shape.now },
    ghost clients_len: { length faulty_clients.now ≡ client_count shape.now },
    ghost pens_len: { length pens.now ≡ client_count shape.now },
    ghost one_shape: { (usig.now.shape ≡ shape.now) × (ledger.now.shape ≡ shape.now) },
}

impl<'a> Checker<'a> {
    ghost use Rattle.std.specs.Prelude.{◌<◌};
    ghost use Rattle.mb_base.specs.Shapes.{Bytes, host_count};
    ghost use Rattle.mb_forgery.specs.Checks.{TellsForged};

    /// A claim that verifies and is not issued. What is issued needs no verifying.
    pub(crate) fn forged(&self, ui: &Ui, bare: &[u8]) -> Option<ForgedClaim>
        requires { ui.now.host < host_count self.now.shape.now }
        ensures { TellsForged self.now ui.now bare.now result }
    {
        if self.ledger.is_issued(ui.host, ui.counter, bare) {
            return None;
        }
        if !self.usig.verify_ui(bare, ui) {
            return None;
        }
        Some(ForgedClaim {
            host: ui.host,
            counter: ui.counter,
        })
    }
}
