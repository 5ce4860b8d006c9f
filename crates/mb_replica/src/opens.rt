//! OPEN: a host opens its view with evidence of the plan, and the plan.

use crate::plan_digests::digested_beside;
use crate::state::ReplicaState;
use mb_base::{NoMemory, View};
use mb_msg::{Batch, Body, Evidence, Open, OpenBody, Outcome, Plan};
use mb_plan::check_open;
use mb_service::Service;
use std::alloc::Global;

/// The index and the reason of an OPEN whose body is not that of the plan of its evidence.
const OTHER_BODY: Outcome = Outcome::Unusable {
    index: 0,
    reason: 8,
};

impl<V: Service + Drop> ReplicaState<V> {
    ghost use Rattle.std.specs.Prelude.{None, ◌≡◌, ◌<◌, OnOk, IfOk};
    ghost use Rattle.mb_replica.specs.Represents.{Represents};
    ghost use Rattle.mb_msg.specs.declared.stamped.Stamped.TheVariants as stamped;
    ghost use Rattle.mb_msg.specs.Fits.{FitsOpen, FitsOpenBody, FitsOpenParts};
    ghost use Rattle.mb_model.specs.KindChecks.{stamped_refusal, open_refusal, opening_fault, unusable};
    ghost use Rattle.mb_replica.specs.Between.{AwaitsGate};
    ghost use Rattle.mb_parts.specs.Fits.{FitsEvidence};
    ghost use Rattle.mb_model.specs.Histories.{Identity, History, Accepted};
    ghost use Rattle.mb_replica.specs.Holding.{CanHold, HoldsBody, HoldsEntry};
    ghost use Rattle.mb_msg.specs.Bodies.{FitsBody};
    ghost use Rattle.mb_msg.specs.declared.message.Message.TheVariants as message;

    // ---- its digests

    /// The batches of the plan of a view, none where it is not held.
    pub(crate) fn planned(&self, view: View) -> &[Batch] {
        match self.protocol.change.plan_at(view) {
            Some(held) => held.plan().batches.as_slice(),
            None => &[],
        }
    }

    /// An OPEN of a current view, each of whose batches keeps its digest: that of the held plan, where it has the same batch there. An error is want
    /// of memory.
    pub(crate) fn with_batch_digests(&self, alloc: Global, m: Open) -> Result<Open, NoMemory>
        requires { FitsOpen self.now.protocol.shape m }
        ensures { IfOk result (λ o. o ≡ m) }
    {
        if !self.is_current(m.evidence.view) {
            return Ok(m);
        }
        let Open { evidence, body, ui } = m;
        let body = self.body_with_digests(alloc, &evidence, body)?;
        Ok(Open { evidence, body, ui })
    }

    /// The same of its body.
    fn body_with_digests(
        &self,
        alloc: Global,
        evidence: &Evidence,
        body: Body<OpenBody>,
    ) -> Result<Body<OpenBody>, NoMemory>
        requires { FitsBody (FitsOpenBody self.now.protocol.shape evidence.now) body }
        ensures { IfOk result (λ b. b ≡ body) }
    {
        match body {
            Body::Whole(OpenBody { stable, batches }) => {
                let plan = self.planned(evidence.view);
                let batches = digested_beside(alloc, batches, plan)?;
                Ok(Body::Whole(OpenBody { stable, batches }))
            }
            bare => Ok(bare),
        }
    }

    // ---- whether it is refused, and what it does

    /// Its body, where it is whole and current.
    pub(crate) fn open_refusal(&self, alloc: Global, m: &Open) -> Result<Option<Outcome>, NoMemory>
        requires { FitsOpen self.now.protocol.shape m.now }
        ensures { (me : Identity V) (d : History) → Represents me self.now d → IfOk result (λ o. o ≡ open_refusal me d m.now.evidence m.now.body) }
    {
        match &m.body {
            Body::Whole(body) if self.is_current(m.evidence.view) => {
                self.opening_fault(alloc, &m.evidence, body)
            }
            _ => Ok(None),
        }
    }

    fn opening_fault(
        &self,
        alloc: Global,
        evidence: &Evidence,
        body: &OpenBody,
    ) -> Result<Option<Outcome>, NoMemory>
        requires { FitsEvidence self.now.protocol.shape evidence.now × FitsOpenParts self.now.protocol.shape body.now }
        ensures { (me : Identity V) (d : History) → Represents me self.now d → IfOk result (λ o. o ≡ unusable (opening_fault me evidence.now body.now)) }
    {
        let is_body = check_open(
            alloc,
            &self.protocol.shape,
            &self.protocol.usig,
            evidence,
            body,
        )?;
        Ok((!is_body).then_some(OTHER_BODY))
    }

    /// What it shows is held, and then the votes of OPENs are counted.
    pub(crate) fn accept_open(&mut self, alloc: Global, m: Open) -> Result<(), NoMemory>
        requires { FitsOpen self.old.protocol.shape m }
        ensures { (me : Identity V) (d : History) → Represents me self.old d → stamped_refusal me d (stamped.Open m) ≡ None → OnOk result (AwaitsGate me self.old self.new (stamped.Open m) d) }
    {
        let here = self.view();
        self.hold_opened(alloc, m)?;
        self.count_opens(here);
        Ok(())
    }

    /// An OPEN is kept as its sender's, and shows evidence. A whole one may give the plan.
    fn hold_opened(&mut self, alloc: Global, m: Open) -> Result<(), NoMemory>
        requires { FitsOpen self.old.protocol.shape m }
        ensures { (me : Identity V) (d : History) → Represents me self.old d → OnOk result (HoldsEntry me d (Accepted (message.Open m)) self.old self.new) }
    {
        let Open { evidence, body, ui } = m;
        let gives_plan = self.gives_plan(&evidence);
        let view = evidence.view;
        let counter = evidence.counter;
        let plan = evidence.plan;
        self.hold_news(evidence);
        self.protocol.change.opened(ui.host, view, counter, plan);
        if gives_plan {
            return self.hold_body(alloc, view, body);
        }
        Ok(())
    }

    fn hold_body(&mut self, alloc: Global, view: View, body: Body<OpenBody>) -> Result<(), NoMemory>
        requires { FitsBody (CanHold self.old.protocol.shape) body }
        ensures { OnOk result (HoldsBody view body self.old self.new) }
    {
        match body {
            Body::Whole(OpenBody { stable, batches }) => {
                let plan = Plan {
                    base: stable,
                    batches,
                };
                self.hold_plan(alloc, view, plan)
            }
            Body::Bare(_) => Ok(()),
        }
    }
}
