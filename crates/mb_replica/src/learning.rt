//! What a host knows to be stable: certificates that are learnt, and the cut of the own log.

use crate::protocol::Protocol;
use crate::state::ReplicaState;
use mb_base::{Counter, NoMemory};
use mb_cert::CheckFloor;
use mb_msg::{FloorCert, StableCert};
use mb_service::Service;
use std::alloc::Global;

impl Protocol {
    ghost use Rattle.std.specs.Prelude.{◌<◌};
    ghost use Rattle.mb_parts.specs.Fits.{IsBase};
    ghost use Rattle.mb_replica.specs.Between.{RisesTo};

    /// A certificate of a position above is the stable one: windows are raised.
    fn rise(&mut self, cert: StableCert)
        requires above { self.old.stable.pos < cert.pos }
        requires base { IsBase self.old.shape cert.pos }
        ensures { RisesTo cert self.old self.new }
    {
        self.normal.raise(cert.pos);
        self.stable = cert;
    }
}

impl<V: Service + Drop> ReplicaState<V> {
    ghost use Rattle.std.specs.Prelude.{◌≡◌, ◌∷◌, true, OnOk, Some};
    ghost use Rattle.mb_parts.specs.declared.certificates.StableCert.{StableCert as StableCertValue};
    ghost use Rattle.mb_model.specs.Histories.{Identity, Entry, History};
    ghost use Rattle.mb_refinement.specs.Positions.{AnswersStable};
    ghost use Rattle.mb_refinement.specs.Stands.{LogStands};
    ghost use Rattle.mb_log.specs.Logs.{floor_counter};
    ghost use Rattle.mb_parts.specs.Fits.{FitsStable};
    ghost use Rattle.mb_replica.specs.Between.{WritesLearnt, WritesLog, LearntAgreed, AwaitsCut, BringsCut, goes_forward, IsWithin, CutsBy};

    /// A certificate is learnt where its position is above the stable one: windows are raised.
    pub(crate) fn learn(&mut self, cert: StableCert)
        requires { FitsStable self.old.protocol.shape cert }
        ensures { WritesLearnt cert self.old self.new }
    {
        if cert.pos > self.low() {
            let pos = cert.pos;
            self.protocol.rise(cert);
            self.keeper.raise(pos);
        }
    }

    /// The certificate on which kept CHECKPOINTs agree above the stable position is learnt.
    pub(crate) fn learn_agreed(&mut self, alloc: Global) -> Result<(), NoMemory>
        requires { (c : StableCertValue) → AnswersStable self.old.protocol.normal (Some c) → FitsStable self.old.protocol.shape c }
        ensures { OnOk result (LearntAgreed self.old self.new) }
    {
        if let Some(cert) = self.protocol.normal.stable(alloc)? {
            self.learn(cert);
        }
        Ok(())
    }

    /// Cuts the own log with the certificate of the greatest position that has one for it.
    pub fn cut_log(&mut self, alloc: Global) -> Result<(), NoMemory>
        requires { BringsCut self.old }
        ensures stands { (me : Identity V) (e : Entry) (d : History) → AwaitsCut me self.old e d → OnOk result (LogStands me self.new.protocol.log (e ∷ d)) }
        ensures writes { OnOk result (WritesLog self.old self.new) }
    {
        if let Some(cert) = self.protocol.normal.floor_of(alloc, self.protocol.host)? {
            self.cut_by(cert);
        }
        Ok(())
    }

    /// A cut goes forward, and not beyond what this host stamped.
    fn cut_by(&mut self, cert: FloorCert)
        requires { goes_forward self.old cert ≡ true → IsWithin self.old cert }
        ensures cuts { CutsBy cert self.old self.new }
        ensures writes { WritesLog self.old self.new }
    {
        let counter = self.floor_counter(&cert);
        if self.protocol.log.start() < counter && counter <= self.protocol.usig.counter() {
            self.protocol.log.cut(cert);
        }
    }

    /// The counter of this host's floor in a certificate, 0 without one.
    fn floor_counter(&self, cert: &FloorCert) -> Counter
        ensures { result ≡ floor_counter self.now.protocol.host (Some cert.now) }
    {
        match cert.first_floor(self.protocol.host) {
            Some(floor) => floor.counter,
            None => 0,
        }
    }
}
