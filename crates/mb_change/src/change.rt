//! The table of view changes.

use crate::held_new_view::HeldNewView;
use crate::held_plan::HeldPlan;
use crate::opened::Opened;
use indexmap::IndexMap;
use mb_base::{Counter, Digest, Host, NoMemory, Shape, View};
use mb_msg::{Enter, Evidence, NewView, Plan, ViewChange};
use std::alloc::Global;
use std::marker::Model;

/// What a host holds of view changes. It stands for searches in the host's history: for each host the greatest view that it asked for, its last
/// ENTER and its last OPEN that was taken; the VIEW_CHANGEs that are stored, in the order of arrival; the NEW_VIEW, the evidence and the plan
/// that are held.
#[derive(Drop)]
pub struct Change {
    pub(crate) shape: Shape,
    pub(crate) host: Host,
    /// By host.
    wishes: Vec<View>,
    /// By host, in the order of arrival.
    pub(crate) changes: IndexMap<Host, ViewChange>,
    /// By host.
    enters: Vec<Option<Enter>>,
    /// By host.
    opens: Vec<Opened>,
    pub(crate) new_view: Option<HeldNewView>,
    pub(crate) evidence: Option<Evidence>,
    pub(crate) plan: Option<HeldPlan>,
}

impl Model for Change {
    ghost use Rattle.mb_change.specs.Tables.{Table};

    ghost Value = { Table };

    ghost use Rattle.mb_change.specs.Inside.{seen, IsTable};

    ghost view = { seen };

    ghost invariant = { IsTable };
}

impl Change {
    ghost use Rattle.std.specs.Prelude.{◌≡◌, ◌<◌, ℕ, Some, length, max, slice_set, option_copied, IfOk, IfSome, OnOk, OnErr};
    ghost use Rattle.std.specs.Option.{option_map};
    ghost use Rattle.mb_base.specs.Shapes.{host_count};
    ghost use Rattle.mb_msg.specs.Bodies.{body_digest};
    ghost use Rattle.mb_msg.specs.Spelling.{new_view_body_bytes};
    ghost use Rattle.mb_msg.specs.Plans.{CanHash};
    ghost use Rattle.mb_model.specs.Held.{plan_of_view};
    ghost use Rattle.mb_change.specs.Tables.{empty_table, wish_at, enter_at, opened_at};
    ghost use Rattle.mb_change.specs.Searches.{nothing_found, with_wish, with_change, with_enter, with_opened, with_new_view, with_evidence, with_plan};
    ghost use Rattle.mb_change.specs.Represents.{Represents, StandsWith, SameHost};

    /// Every wish is 0, and nothing is stored. Room for what is kept of each host is taken here.
    #[tactic(auto, using(crate::proofs::Standing::made_stands))]
    pub fn make(alloc: Global, shape: Shape, host: Host) -> Result<Change, NoMemory>
        ensures empty { IfOk result (λ t. t ≡ empty_table shape host) }
        ensures stands { IfOk result (λ t. Represents t nothing_found) }
    {
        Ok(Change {
            shape,
            host,
            wishes: no_wishes(alloc, shape.n())?,
            changes: IndexMap::new(alloc),
            enters: no_enters(alloc, shape.n())?,
            opens: none_opened(alloc, shape.n())?,
            new_view: None,
            evidence: None,
            plan: None,
        })
    }

    /// A host's wish becomes the greater of itself and this view. It takes no memory.
    #[tactic(auto, using(crate::proofs::Standing::wish_stands))]
    pub fn wish(&mut self, host: Host, view: View)
        requires { host < host_count self.old.shape }
        ensures same { SameHost self.old self.new }
        ensures stands { StandsWith self.old (with_wish host view) self.new }
    {
        let wish = self.wish_of(host).max(view);
        self.wishes[usize::from(host)] = wish;
    }

    /// The greatest view that a host asked for, 0 without any.
    pub fn wish_of(&self, host: Host) -> View
        requires { host < host_count self.now.shape }
        ensures { result ≡ wish_at self.now host }
    {
        self.wishes[usize::from(host)]
    }

    /// Stores a usable VIEW_CHANGE. It takes the place of its host's earlier one, and goes last. An error is want of memory: then nothing changes.
    #[tactic(auto, using(crate::proofs::Standing::of_hosts_pushed))]
    pub fn store(&mut self, change: ViewChange) -> Result<(), NoMemory>
        requires { change.ui.host < host_count self.old.shape }
        ensures same { SameHost self.old self.new }
        ensures stands { OnOk result (StandsWith self.old (with_change change) self.new) }
        ensures err { OnErr result (self.new ≡ self.old) }
    {
        put_last(&mut self.changes, change)
    }

    /// Stores an ENTER in the place of its host's earlier one. It takes no memory.
    #[tactic(auto, using(crate::proofs::Standing::enter_stands))]
    pub fn enter(&mut self, enter: Enter)
        requires { enter.ui.host < host_count self.old.shape }
        ensures same { SameHost self.old self.new }
        ensures stands { StandsWith self.old (with_enter enter) self.new }
    {
        self.enters[usize::from(enter.ui.host)] = Some(enter);
    }

    /// The last ENTER of a host.
    pub(crate) fn enter_of(&self, host: Host) -> Option<&Enter>
        requires { host < host_count self.now.shape }
        ensures { option_copied result ≡ enter_at self.now host }
    {
        self.enters[usize::from(host)].as_ref()
    }

    /// Keeps view, NEW_VIEW's counter and plan digest of a host's last OPEN that was taken. It takes no memory.
    #[tactic(auto, using(crate::proofs::Standing::opened_stands))]
    pub fn opened(&mut self, host: Host, view: View, counter: Counter, plan: Digest)
        requires { host < host_count self.old.shape }
        ensures same { SameHost self.old self.new }
        ensures stands { StandsWith self.old (with_opened host (record { view = view; counter = counter; plan = plan })) self.new }
    {
        self.opens[usize::from(host)] = Opened {
            view,
            counter,
            plan,
        };
    }

    /// View, NEW_VIEW's counter and plan digest of a host's last OPEN that was taken, all zero without one.
    pub fn opened_by(&self, host: Host) -> (View, Counter, Digest)
        requires { host < host_count self.now.shape }
        ensures { record { view = result.0; counter = result.1; plan = result.2 } ≡ opened_at self.now host }
    {
        let opened = &self.opens[usize::from(host)];
        (opened.view, opened.counter, opened.plan)
    }

    /// Holds a NEW_VIEW, in the place of what was held. `body` is the digest of its body. It takes no memory.
    #[tactic(auto, using(crate::proofs::Standing::new_view_stands))]
    pub fn hold_new_view(&mut self, new_view: NewView, body: Digest)
        requires { body ≡ body_digest new_view_body_bytes new_view.body }
        ensures same { SameHost self.old self.new }
        ensures stands { StandsWith self.old (with_new_view new_view) self.new }
    {
        self.new_view = Some(HeldNewView::of(new_view, body));
    }

    /// Holds evidence, in the place of what was held. It takes no memory.
    #[tactic(auto, using(crate::proofs::Standing::evidence_stands))]
    pub fn hold_evidence(&mut self, evidence: Evidence)
        ensures same { SameHost self.old self.new }
        ensures stands { StandsWith self.old (with_evidence evidence) self.new }
    {
        self.evidence = Some(evidence);
    }

    /// Holds a plan, in the place of what was held, and hashes it once. It has at most 64 batches, each of 1 to 16 requests with an operation of
    /// at most 1,024 bytes. It takes no memory.
    #[tactic(auto, using(crate::proofs::Standing::plan_stands))]
    pub fn hold_plan(&mut self, view: View, plan: Plan)
        requires { CanHash plan }
        ensures same { SameHost self.old self.new }
        ensures stands { StandsWith self.old (with_plan view plan) self.new }
    {
        self.plan = Some(HeldPlan::of(view, plan));
    }

    /// The NEW_VIEW that is held, None exactly where there is none.
    pub fn new_view(&self) -> Option<&NewView>
        ensures { option_copied result ≡ self.now.new_view }
    {
        match &self.new_view {
            Some(held) => Some(held.message()),
            None => None,
        }
    }

    /// The evidence that is held, None exactly where there is none.
    pub fn evidence(&self) -> Option<&Evidence>
        ensures { option_copied result ≡ self.now.evidence }
    {
        self.evidence.as_ref()
    }

    /// The plan that is held, with its view, None exactly where there is none.
    pub fn plan(&self) -> Option<(View, &Plan)>
        ensures { option_map (λ p. (p.0, p.1.now)) result ≡ self.now.plan }
    {
        match &self.plan {
            Some(held) => Some((held.view(), held.plan())),
            None => None,
        }
    }

    /// The plan of a view, with what was hashed of it, where it is the one that is held.
    pub fn plan_at(&self, view: View) -> Option<&HeldPlan>
        ensures plan { option_map (λ p. p.now.1) result ≡ plan_of_view view self.now.plan }
        ensures view { IfSome result (λ p. p.now.0 ≡ view) }
    {
        match &self.plan {
            Some(held) if held.view() == view => Some(held),
            _ => None,
        }
    }
}

ghost use Rattle.std.specs.Prelude.{◌≡◌, ◌++◌, [], ◌∷◌, nat_eq, replicate, None, IfOk, OnOk, OnErr};
ghost use Rattle.indexmap.specs.IndexMap.{shift_remove_entry, IsUnique};
ghost use Rattle.mb_change.specs.Tables.{none_opened};

/// Puts a VIEW_CHANGE behind those of the other hosts, in the place of its host's earlier one.
fn put_last(changes: &mut IndexMap<Host, ViewChange>, change: ViewChange) -> Result<(), NoMemory>
    ensures ok { OnOk result (changes.new.entries ≡ shift_remove_entry (nat_eq change.ui.host) changes.old.entries ++ (change.ui.host, change) ∷ []) }
    ensures unique { IsUnique nat_eq changes.new }
    ensures err { OnErr result (changes.new.entries ≡ changes.old.entries) }
{
    changes.reserve(1)?;
    let host = change.ui.host;
    changes.shift_remove(&host);
    changes.insert(host, change)?;
    Ok(())
}

fn no_wishes(alloc: Global, count: u8) -> Result<Vec<View>, NoMemory>
    ensures { IfOk result (λ all. all.items ≡ replicate count 0) }
{
    let mut all = Vec::with_capacity(alloc, usize::from(count))?;
    for _ in 0..count {
        all.push(0)?;
    }
    Ok(all)
}

fn no_enters(alloc: Global, count: u8) -> Result<Vec<Option<Enter>>, NoMemory>
    ensures { IfOk result (λ all. all.items ≡ replicate count None) }
{
    let mut all = Vec::with_capacity(alloc, usize::from(count))?;
    for _ in 0..count {
        all.push(None)?;
    }
    Ok(all)
}

fn none_opened(alloc: Global, count: u8) -> Result<Vec<Opened>, NoMemory>
    ensures { IfOk result (λ all. all.items ≡ replicate count none_opened) }
{
    let mut all = Vec::with_capacity(alloc, usize::from(count))?;
    for _ in 0..count {
        all.push(Opened {
            view: 0,
            counter: 0,
            plan: [0; 32],
        })?;
    }
    Ok(all)
}
