//! The votes of OPENs: an OPEN is its sender's vote for each position of the plan.

use crate::state::ReplicaState;
use mb_base::{Counter, Digest, Host, View};
use mb_msg::MAX_POS;
use mb_service::Service;

impl<V: Service + Drop> ReplicaState<V> {
    ghost use Rattle.std.specs.Prelude.{◌≡◌, ◌+◌, ◌<◌, ℕ, Some};
    ghost use Rattle.mb_base.specs.Shapes.{host_count};
    ghost use Rattle.mb_msg.specs.declared.change.Plan.{Plan as PlanValue};
    ghost use Rattle.mb_model.specs.Held.{plan_of_view};
    ghost use Rattle.mb_refinement.specs.Positions.{hosts_below};
    ghost use Rattle.mb_replica.specs.Between.{WritesNormal};
    ghost use Rattle.mb_replica.specs.Waiting.{is_of_plan};
    ghost use Rattle.mb_replica.specs.Holding.{CountsOpens, CountsMore, CountsVoteOf, is_for_plan, length_in};

    /// Counts the votes of each host's last OPEN, where it is of this host's view and the plan that has its digest is held.
    pub fn count_opens(&mut self, here: View)
        ensures writes { WritesNormal self.old self.new }
        ensures counts { CountsOpens here self.old self.new }
    {
        for host in 0..self.protocol.shape.n() {
            self.count_open(host, here);
        }
    }

    fn count_open(&mut self, host: Host, here: View)
        requires { host < host_count self.old.protocol.shape }
        ensures writes { WritesNormal self.old self.new }
        ensures counts { CountsMore (hosts_below host) (hosts_below (host + 1)) here self.old self.new }
    {
        let (view, counter, plan) = self.protocol.change.opened_by(host);
        if !self.is_counted(here, view, &plan) {
            return;
        }
        for index in 0..self.plan_length(here) {
            self.count_open_at(host, counter, here, index);
        }
    }

    /// An OPEN of a view and a plan is one for the plan of this host's view.
    fn is_counted(&self, here: View, view: View, plan: &Digest) -> bool
        ensures { (counter : ℕ) → result ≡ is_for_plan here (plan_of_view here self.now.protocol.change.plan) (record { view = view; counter = counter; plan = plan.now }) }
    {
        view != 0 && view == here && self.holds_plan(here, plan)
    }

    /// The plan of a view that has this digest is held.
    fn holds_plan(&self, view: View, plan: &Digest) -> bool
        ensures { result ≡ is_of_plan plan.now (plan_of_view view self.now.protocol.change.plan) }
    {
        match self.protocol.change.plan_at(view) {
            Some(held) => held.digest() == *plan,
            None => false,
        }
    }

    /// How many batches the plan of a view has.
    pub fn plan_length(&self, view: View) -> usize
        ensures { result ≡ length_in (plan_of_view view self.now.protocol.change.plan) }
    {
        match self.protocol.change.plan_at(view) {
            Some(held) => held.batches().len(),
            None => 0,
        }
    }

    /// The vote of a host for the batch of the plan with this index, at a position of the window: elsewhere it is refused.
    fn count_open_at(&mut self, host: Host, counter: Counter, view: View, index: usize)
        requires host { host < host_count self.old.protocol.shape }
        requires index { index < length_in (plan_of_view view self.old.protocol.change.plan) }
        ensures writes { WritesNormal self.old self.new }
        ensures counts { (plan : PlanValue) → plan_of_view view self.old.protocol.change.plan ≡ Some plan → CountsVoteOf plan host counter (plan.base.pos + index) view self.old self.new }
    {
        let Some(held) = self.protocol.change.plan_at(view) else {
            return;
        };
        let pos = held.plan().base.pos + index as u64 + 1;
        let batch = held.batches()[index];
        if pos <= MAX_POS {
            self.count_vote(pos, host, counter, batch);
        }
    }
}
