//! The evidence that a host can show for a view.

ghost use Rattle.std.specs.Prelude.{◌≡◌};
ghost use Rattle.mb_model.specs.Held.{answers};

use crate::change::Change;
use crate::held_new_view::HeldNewView;
use mb_base::{Duplicate, Host, Items, NoMemory, View};
use mb_msg::{Enter, Evidence, EvidenceMember, NewView};
use std::alloc::Global;

/// Whether an ENTER answers a NEW_VIEW.
fn answers(new_view: &NewView, enter: &Enter) -> bool
    ensures { result ≡ answers new_view.now enter.now }
{
    enter.view == new_view.view
        && enter.counter == new_view.ui.counter
        && enter.plan == new_view.plan
}

impl Change {
    ghost use Rattle.std.specs.Prelude.{◌≡◌, ◌<◌, Option, map, take, filter, length, nat_le, option_copied, IfOk, Some, true};
    ghost use Rattle.mb_base.specs.Shapes.{host_count, max_faults};
    ghost use Rattle.mb_parts.specs.declared.certificates.Evidence.{Evidence as EvidenceValue};
    ghost use Rattle.mb_model.specs.Held.{evidence_in, new_view_in_view, answers, as_member};
    ghost use Rattle.mb_change.specs.Tables.{enter_at};
    ghost use Rattle.mb_change.specs.Searches.{found_in};
    ghost use Rattle.mb_change.specs.Evidences.{answer_in, enters_for, evidence_with, evidence_for, has_evidence_of_plan};
    ghost use Rattle.mb_change.specs.Represents.{Answers};

    /// The held NEW_VIEW, where it is of this view.
    pub(crate) fn new_view_in(&self, view: View) -> Option<&HeldNewView>
        ensures { option_copied result ≡ new_view_in_view view self.now.new_view }
    {
        match &self.new_view {
            Some(held) if held.message().view == view => Some(held),
            _ => None,
        }
    }

    /// The held evidence, where it is of this view.
    pub fn evidence_in(&self, view: View) -> Option<&Evidence>
        ensures { option_copied result ≡ evidence_in view self.now.evidence }
    {
        match &self.evidence {
            Some(evidence) if evidence.view == view => Some(evidence),
            _ => None,
        }
    }

    /// A host's last ENTER, where it answers a NEW_VIEW.
    fn answer_of(&self, host: Host, new_view: &NewView) -> Option<&Enter>
        requires { host < host_count self.now.shape }
        ensures { option_copied result ≡ answer_in new_view.now (enter_at self.now host) }
    {
        match self.enter_of(host) {
            Some(enter) if answers(new_view, enter) => Some(enter),
            _ => None,
        }
    }

    /// Whether f hosts answered a NEW_VIEW.
    fn is_answered(&self, new_view: &NewView) -> bool
        ensures { result ≡ nat_le (max_faults self.now.shape) (length (enters_for self.now.shape (enter_at self.now) new_view.now)) }
    {
        let mut count = 0;
        for host in 0..self.shape.n() {
            if self.answer_of(host, new_view).is_some() {
                count += 1;
            }
        }
        count >= self.shape.f()
    }

    /// The ENTERs of the f lowest hosts that answer a NEW_VIEW.
    fn members_for(
        &self,
        alloc: Global,
        new_view: &NewView,
    ) -> Result<Items<EvidenceMember>, NoMemory>
        ensures { IfOk result (λ members. members ≡ map as_member (take (max_faults self.now.shape) (enters_for self.now.shape (enter_at self.now) new_view.now))) }
    {
        let mut members = Items::new(alloc);
        for host in 0..self.shape.n() {
            if members.len() < usize::from(self.shape.f()) {
                if let Some(enter) = self.answer_of(host, new_view) {
                    members.push(EvidenceMember {
                        host: enter.ui.host,
                        counter: enter.ui.counter,
                        cert: enter.ui.cert,
                    })?;
                }
            }
        }
        Ok(members)
    }

    fn evidence_with(&self, alloc: Global, held: &HeldNewView) -> Result<Evidence, NoMemory>
        requires { nat_le (max_faults self.now.shape) (length (enters_for self.now.shape (enter_at self.now) held.now)) ≡ true }
        ensures { IfOk result (λ e. Some e ≡ evidence_with self.now.shape held.now (enters_for self.now.shape (enter_at self.now) held.now)) }
    {
        let new_view = held.message();
        Ok(Evidence {
            view: new_view.view,
            base: new_view.base,
            end: new_view.end,
            plan: new_view.plan,
            body: held.body(),
            counter: new_view.ui.counter,
            cert: new_view.ui.cert,
            members: self.members_for(alloc, new_view)?,
        })
    }

    /// The held evidence of a view, else that of the held NEW_VIEW of that view with the ENTERs of the f lowest hosts that answer it. None exactly
    /// where there is neither. An error is want of memory.
    #[tactic(auto, using(crate::proofs::Same::evidence_answers))]
    pub fn evidence_for(&self, alloc: Global, view: View) -> Result<Option<Evidence>, NoMemory>
        ensures { IfOk result (λ o. Answers self.now o (evidence_for self.now.shape view)) }
    {
        self.found_evidence(alloc, view)
    }

    fn found_evidence(&self, alloc: Global, view: View) -> Result<Option<Evidence>, NoMemory>
        ensures { IfOk result (λ o. o ≡ evidence_for self.now.shape view (found_in self.now)) }
    {
        if let Some(evidence) = self.evidence_in(view) {
            return Ok(Some(evidence.duplicate(alloc)?));
        }
        match self.new_view_in(view) {
            Some(held) if self.is_answered(held.message()) => {
                Ok(Some(self.evidence_with(alloc, held)?))
            }
            _ => Ok(None),
        }
    }

    /// Whether there is evidence for a view, and it is that of the held plan of the view.
    pub(crate) fn has_evidence_of_plan(&self, view: View) -> bool
        ensures { result ≡ has_evidence_of_plan self.now.shape view (found_in self.now) }
    {
        let Some(plan) = self.plan_at(view) else {
            return false;
        };
        if let Some(evidence) = self.evidence_in(view) {
            return plan.is_described(evidence.base, evidence.end, &evidence.plan);
        }
        match self.new_view_in(view) {
            Some(held) => {
                let new_view = held.message();
                self.is_answered(new_view)
                    && plan.is_described(new_view.base, new_view.end, &new_view.plan)
            }
            None => false,
        }
    }
}
