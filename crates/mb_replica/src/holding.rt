//! Evidence and plans that come to be held.

use crate::state::ReplicaState;
use mb_base::{Duplicate, NoMemory, View};
use mb_msg::{Evidence, Plan};
use mb_service::Service;
use std::alloc::Global;

impl<V: Service + Drop> ReplicaState<V> {
    ghost use Rattle.std.specs.Prelude.{◌≡◌, ◌&&◌, not, ◌==◌};
    ghost use Rattle.mb_model.specs.Histories.{Identity, History};
    ghost use Rattle.mb_model.specs.Held.{evidence_view, evidence_of, is_news, is_current, is_plan_of, plan_held, gives_plan};
    ghost use Rattle.std.specs.Prelude.{Some, OnOk};
    ghost use Rattle.mb_parts.specs.Fits.{FitsStable};
    ghost use Rattle.mb_msg.specs.Plans.{CanHash};
    ghost use Rattle.mb_change.specs.Searches.{with_plan};
    ghost use Rattle.mb_change.specs.Represents.{StandsWith};
    ghost use Rattle.mb_change.specs.Written.{with_shown};
    ghost use Rattle.mb_replica.specs.Represents.{Represents};
    ghost use Rattle.mb_replica.specs.Between.{WritesChange};
    ghost use Rattle.mb_replica.specs.Holding.{Holds};

    /// The view of the held evidence, 0 where there is none.
    pub(crate) fn evidence_view(&self) -> View
        ensures { (me : Identity V) (d : History) → Represents me self.now d → result ≡ evidence_view (evidence_of me d) }
    {
        match self.protocol.change.evidence() {
            Some(evidence) => evidence.view,
            None => 0,
        }
    }

    /// Evidence is news where its view is current and above that of the held one.
    fn is_news(&self, evidence: &Evidence) -> bool
        ensures { (me : Identity V) (d : History) → Represents me self.now d → result ≡ is_news me d (evidence_of me d) evidence.now }
    {
        self.is_current(evidence.view) && self.evidence_view() < evidence.view
    }

    /// Evidence that is news is held.
    pub(crate) fn hold_news(&mut self, evidence: Evidence)
        ensures writes { WritesChange self.old self.new }
        ensures holds { (me : Identity V) (d : History) → Represents me self.old d → StandsWith self.old.protocol.change (with_shown me d (Some evidence)) self.new.protocol.change }
    {
        if self.is_news(&evidence) {
            self.protocol.change.hold_evidence(evidence);
        }
    }

    /// What is shown as evidence is held where it is news.
    pub(crate) fn hold_shown(&mut self, evidence: Option<Evidence>)
        ensures writes { WritesChange self.old self.new }
        ensures holds { (me : Identity V) (d : History) → Represents me self.old d → StandsWith self.old.protocol.change (with_shown me d evidence) self.new.protocol.change }
    {
        if let Some(evidence) = evidence {
            self.hold_news(evidence);
        }
    }

    /// An OPEN gives its plan where its evidence comes to be held, and where evidence of its view is held without a plan of that view.
    pub(crate) fn gives_plan(&self, evidence: &Evidence) -> bool
        ensures { (me : Identity V) (d : History) → Represents me self.now d → result ≡ gives_plan me d (plan_held me d) evidence.now }
    {
        self.is_news(evidence) || self.lacks_plan(evidence.view)
    }

    /// Evidence of this view, which is current, is held without a plan of that view.
    fn lacks_plan(&self, view: View) -> bool
        ensures { (me : Identity V) (d : History) → Represents me self.now d → result ≡ (is_current me d view && (evidence_view (evidence_of me d) == view && not (is_plan_of view (plan_held me d)))) }
    {
        self.is_current(view)
            && self.evidence_view() == view
            && self.protocol.change.plan_at(view).is_none()
    }

    /// A plan is held, and the certificate of its base learnt.
    pub fn hold_plan(&mut self, alloc: Global, view: View, plan: Plan) -> Result<(), NoMemory>
        requires hashed { CanHash plan }
        requires base { FitsStable self.old.protocol.shape plan.base }
        ensures { OnOk result (Holds (with_plan view plan) (Some plan.base) self.old self.new) }
    {
        let base = plan.base.duplicate(alloc)?;
        self.protocol.change.hold_plan(view, plan);
        self.learn(base);
        Ok(())
    }
}
