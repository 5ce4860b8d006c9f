//! NEW_VIEW: the primary of a view announces the plan of f+1 VIEW_CHANGEs.

use crate::arrival::Finding;
use crate::state::ReplicaState;
use mb_base::{Digest, NoMemory};
use mb_msg::{NewView, Outcome, Plan, ViewChange};
use mb_plan::{NewViewFault, PlanFault, check_new_view_knowing, plan_of};
use mb_service::Service;
use std::alloc::Global;

/// The index and the reason of a NEW_VIEW that announces another plan than that of its members.
const OTHER_PLAN: Outcome = Outcome::Unusable {
    index: 255,
    reason: 11,
};

impl<V: Service + Drop> ReplicaState<V> {
    ghost use Rattle.mb_msg.specs.declared.stamped.Stamped.TheVariants as stamped;
    ghost use Rattle.mb_msg.specs.Fits.{FitsNewView, FitsMember};
    ghost use Rattle.mb_msg.specs.AsStamped.{stamped_digest};
    ghost use Rattle.mb_model.specs.KindChecks.{stamped_refusal, new_view_refusal};
    ghost use Rattle.mb_replica.specs.Between.{AwaitsGate};
    ghost use Rattle.std.specs.Prelude.{◌≡◌, true, Some, OnOk, IfOk, None};
    ghost use Rattle.mb_replica.specs.Represents.{Represents};
    ghost use Rattle.std.specs.List.{AllByRecursion};
    ghost use Rattle.mb_msg.specs.Plans.{CanHash};
    ghost use Rattle.mb_model.specs.Histories.{Accepted, Identity, History};
    ghost use Rattle.mb_model.specs.Held.{plan_from};
    ghost use Rattle.mb_plan.specs.Planned.{are_quorum};
    ghost use Rattle.std.specs.Option.{IfSome};
    ghost use Rattle.mb_parts.specs.Fits.{FitsStable};
    ghost use Rattle.mb_replica.specs.Holding.{Announces, HoldsEntry};
    ghost use Rattle.mb_msg.specs.declared.message.Message.TheVariants as message;

    /// What is found of its members one by one, then of its plan, where it is whole and current.
    pub(crate) fn new_view_finding(&self, alloc: Global, m: &NewView) -> Result<Finding, NoMemory>
        requires { FitsNewView self.now.protocol.shape m.now }
        ensures refusal { (me : Identity V) (d : History) → Represents me self.now d → IfOk result (λ f. f.refusal ≡ new_view_refusal me d m.now) }
        ensures plan { IfOk result (λ f. f.refusal ≡ None → Announces self.now (stamped.NewView m.now) f.plan) }
    {
        if !self.is_current(m.view) {
            return Ok(Finding::without_plan(None));
        }
        let known = self.planned(self.evidence_view());
        match check_new_view_knowing(alloc, &self.protocol.shape, &self.protocol.usig, known, m) {
            Ok(plan) => Ok(Finding {
                refusal: None,
                plan: Some(plan),
            }),
            Err(NewViewFault::Unusable { index, reason }) => {
                let index = u16::from(index);
                let refusal = Outcome::Unusable { index, reason };
                Ok(Finding::without_plan(Some(refusal)))
            }
            Err(NewViewFault::OtherPlan) => Ok(Finding::without_plan(Some(OTHER_PLAN))),
            // It came as the digest of its body.
            Err(NewViewFault::Few) => Ok(Finding::without_plan(None)),
            Err(NewViewFault::NoMemory) => Err(NoMemory),
        }
    }

    /// What it announces is held, and then the votes of OPENs are counted.
    pub(crate) fn accept_new_view(
        &mut self,
        alloc: Global,
        m: NewView,
        digest: Digest,
        plan: Option<Plan>,
    ) -> Result<(), NoMemory>
        requires digest { digest ≡ stamped_digest (stamped.NewView m) }
        requires plan { Announces self.old (stamped.NewView m) plan }
        ensures { (me : Identity V) (d : History) → Represents me self.old d → stamped_refusal me d (stamped.NewView m) ≡ None → OnOk result (AwaitsGate me self.old self.new (stamped.NewView m) d) }
    {
        let here = self.view();
        self.hold_announced(alloc, m, digest, plan)?;
        self.count_opens(here);
        Ok(())
    }

    /// A NEW_VIEW that announces a plan is held, and the plan.
    fn hold_announced(
        &mut self,
        alloc: Global,
        m: NewView,
        digest: Digest,
        plan: Option<Plan>,
    ) -> Result<(), NoMemory>
        requires digest { digest ≡ stamped_digest (stamped.NewView m) }
        requires plan { Announces self.old (stamped.NewView m) plan }
        ensures { (me : Identity V) (d : History) → Represents me self.old d → OnOk result (HoldsEntry me d (Accepted (message.NewView m)) self.old self.new) }
    {
        let Some(plan) = plan else {
            return Ok(());
        };
        let view = m.view;
        self.protocol.change.hold_new_view(m, digest);
        self.hold_plan(alloc, view, plan)
    }

    /// The plan of f+1 VIEW_CHANGEs of different hosts. Its batches keep their digests.
    pub fn plan_from(&self, alloc: Global, changes: &[ViewChange]) -> Result<Option<Plan>, NoMemory>
        requires { AllByRecursion (FitsMember self.now.protocol.shape) changes.now }
        ensures fits { IfOk result (λ p. IfSome p (λ plan. CanHash plan × FitsStable self.now.protocol.shape plan.base)) }
        ensures plan { (me : Identity V) (d : History) → Represents me self.now d → are_quorum me.shape changes.now ≡ true → IfOk result (λ p. p ≡ Some (plan_from me changes.now)) }
    {
        match plan_of(alloc, &self.protocol.shape, changes) {
            Ok(plan) => Ok(Some(plan)),
            Err(PlanFault::Few) => Ok(None),
            Err(PlanFault::NoMemory) => Err(NoMemory),
        }
    }
}
