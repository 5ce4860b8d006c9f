//! The rules of view changes.

use crate::change::Change;
use mb_base::{Host, Pos, View};
use mb_parts::{Floor, Phase};

/// What is due of view changes.
#[derive(Clone, Copy, PartialEq, Eq)]
pub enum ChangeDue {
    Nothing,
    /// VIEW_CHANGE to a view.
    ViewChange { view: View },
    /// NEW_VIEW of this host's view.
    NewView,
    /// ENTER that answers the held NEW_VIEW.
    Enter,
    /// OPEN with the evidence and the plan of this host's view.
    Open,
    /// JOIN at the stable position.
    Join { base: Pos },
}

impl Change {
    ghost use Rattle.std.specs.Prelude.{◌≡◌, ◌<◌, ◌≤◌, ◌==◌, ◌&&◌, ◌||◌, nat_lt, max, is_some, if◌then◌else◌};
    ghost use Rattle.mb_base.specs.Shapes.{host_count, primary};
    ghost use Rattle.mb_parts.specs.Ordered.{end_of, phase_is_open, phase_is_entered};
    ghost use Rattle.mb_model.specs.Held.{evidence_view};
    ghost use Rattle.mb_model.specs.EnabledRules.{new_view_number};
    ghost use Rattle.mb_change.specs.Tables.{wish_at};
    ghost use Rattle.mb_change.specs.Searches.{found_in};
    ghost use Rattle.mb_change.specs.Rules.{is_wished, quorum_wish, leads, target, may_open, lags_behind, is_past_plan, due_with, may_announce, may_enter, may_join};
    ghost use Rattle.mb_change.specs.Evidences.{has_evidence_of_plan};
    ghost use Rattle.mb_change.specs.Represents.{Answers};

    /// The first rule of view changes that is due where this host stands `at`, has executed up to `exec`, and `low` is the stable position.
    /// `room` says whether its log has room for a message of these kinds. It takes no memory.
    #[tactic(auto, using(crate::proofs::Same::due_answers))]
    pub fn due(&self, at: &Floor, exec: Pos, low: Pos, room: bool) -> ChangeDue
        ensures due { Answers self.now result (λ s. due_with self.now.shape self.now.host at.now s exec low room) }
    {
        self.first_due(at, exec, low, room)
    }

    #[tactic(auto, unfolding(crate::specs::Rules::due_with))]
    fn first_due(&self, at: &Floor, exec: Pos, low: Pos, room: bool) -> ChangeDue
        ensures { result ≡ due_with self.now.shape self.now.host at.now (found_in self.now) exec low room }
    {
        if !room {
            return ChangeDue::Nothing;
        }
        let target = self.target();
        if target > at.view {
            return ChangeDue::ViewChange { view: target };
        }
        if self.may_announce(at) {
            return ChangeDue::NewView;
        }
        if self.may_enter(at) {
            return ChangeDue::Enter;
        }
        if self.may_open(at) {
            return ChangeDue::Open;
        }
        if self.may_join(at, exec, low) {
            return ChangeDue::Join { base: low };
        }
        ChangeDue::Nothing
    }

    fn leads(&self, at: &Floor) -> bool
        ensures { result ≡ (self.now.host == primary self.now.shape at.now.view) }
    {
        self.host == self.shape.primary(at.view)
    }

    // ---- a greater view is asked for, announced, or entered

    /// The greatest view that f+1 hosts wish for, that was announced, or that has evidence.
    fn target(&self) -> View
        ensures { result ≡ max (quorum_wish self.now.shape (wish_at self.now) (host_count self.now.shape)) (max (new_view_number self.now.new_view) (evidence_view self.now.evidence)) }
    {
        let announced = self.announced_view();
        self.quorum_wish().max(announced.max(self.evidence_view()))
    }

    fn announced_view(&self) -> View
        ensures { result ≡ new_view_number self.now.new_view }
    {
        match &self.new_view {
            Some(held) => held.message().view,
            None => 0,
        }
    }

    fn evidence_view(&self) -> View
        ensures { result ≡ evidence_view self.now.evidence }
    {
        match &self.evidence {
            Some(evidence) => evidence.view,
            None => 0,
        }
    }

    /// The greatest of the wishes that f+1 hosts reach.
    #[tactic(auto, unfolding(crate::specs::Rules::quorum_wish))]
    fn quorum_wish(&self) -> View
        ensures { result ≡ quorum_wish self.now.shape (wish_at self.now) (host_count self.now.shape) }
    {
        let mut greatest = 0;
        for host in 0..self.shape.n() {
            greatest = greatest.max(self.reached_wish(host));
        }
        greatest
    }

    /// A host's wish, where f+1 hosts reach it, and else 0. Where it wishes for nothing, none are counted.
    fn reached_wish(&self, host: Host) -> View
        requires { host < host_count self.now.shape }
        ensures { result ≡ (if is_wished self.now.shape (wish_at self.now) (wish_at self.now host) then wish_at self.now host else 0) }
    {
        let wish = self.wish_of(host);
        if wish > 0 && self.is_wished(wish) {
            wish
        } else {
            0
        }
    }

    /// Whether f+1 hosts wish for a view that is not below this one.
    fn is_wished(&self, view: View) -> bool
        ensures { result ≡ is_wished self.now.shape (wish_at self.now) view }
    {
        let mut count = 0;
        for host in 0..self.shape.n() {
            if self.wish_of(host) >= view {
                count += 1;
            }
        }
        count >= self.shape.quorum()
    }

    // ---- the change to this host's view

    fn may_announce(&self, at: &Floor) -> bool
        ensures { result ≡ may_announce self.now.shape self.now.host at.now (found_in self.now) }
    {
        self.leads(at) && at.phase == Phase::Changing && self.has_quorum(at.view)
    }

    fn may_enter(&self, at: &Floor) -> bool
        ensures { result ≡ may_enter self.now.shape self.now.host at.now (found_in self.now) }
    {
        !self.leads(at) && at.phase == Phase::Changing && self.new_view_in(at.view).is_some()
    }

    fn may_open(&self, at: &Floor) -> bool
        ensures { result ≡ (may_open self.now.shape self.now.host at.now (found_in self.now) && has_evidence_of_plan self.now.shape at.now.view (found_in self.now)) }
    {
        at.view > 0
            && at.phase != Phase::Open
            && (!self.leads(at) || at.phase == Phase::Entered)
            && self.has_evidence_of_plan(at.view)
    }

    // ---- what is stable and executed reaches beyond what was ordered in the view

    fn may_join(&self, at: &Floor, exec: Pos, low: Pos) -> bool
        ensures { result ≡ may_join self.now.shape self.now.host at.now (found_in self.now) exec low }
    {
        (self.lags_behind(at, low) || self.is_past_plan(at, low))
            && (at.view == 0 || self.evidence_view() == at.view)
            && low <= exec
    }

    /// The view is open, and its last position fell behind the stable one.
    fn lags_behind(&self, at: &Floor, low: Pos) -> bool
        ensures { result ≡ (phase_is_open at.now.phase && nat_lt at.now.last low) }
    {
        at.phase == Phase::Open && at.last < low
    }

    /// The view is not open, and all of its plan is at or below the stable position; the primary only behind its NEW_VIEW.
    fn is_past_plan(&self, at: &Floor, low: Pos) -> bool
        ensures { result ≡ is_past_plan self.now.shape self.now.host at.now (found_in self.now) low low }
    {
        let end = self.end();
        at.view > 0
            && at.phase != Phase::Open
            && !(self.leads(at) && at.phase == Phase::Changing)
            && low > 0
            && end <= low
    }

    /// The end of the evidence that is held, 0 without any.
    fn end(&self) -> Pos
        ensures { result ≡ end_of self.now.evidence }
    {
        match &self.evidence {
            Some(evidence) => evidence.end,
            None => 0,
        }
    }
}
