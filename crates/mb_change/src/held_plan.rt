//! A plan with what was hashed of it.

use mb_base::{Digest, Pos, Shape, View};
use mb_msg::{Batch, Plan};
use sha2::{Digest as Hasher, Sha256};
use std::marker::Model;

/// The most batches of a plan: two of the longest intervals.
const MAX_BATCHES: usize = 2 * Shape::MAX_K as usize;

/// A plan that is held, with its view. Its digest and those of its batches are hashed once, as it comes.
#[derive(Drop)]
pub struct HeldPlan {
    view: View,
    plan: Plan,
    digest: Digest,
    batches: [Digest; MAX_BATCHES],
}

impl Model for HeldPlan {
    ghost use Rattle.std.specs.Prelude.{ℕ};
    ghost use Rattle.mb_msg.specs.declared.change.Plan.{Plan};

    ghost Value = { ℕ × Plan };

    ghost use Rattle.mb_change.specs.Inside.{plan_seen, IsPlan};

    ghost view = { plan_seen };

    ghost invariant = { IsPlan };
}

impl HeldPlan {
    ghost use Rattle.std.specs.Prelude.{◌≡◌, map};
    ghost use Rattle.mb_parts.specs.Bares.{batch_digest};
    ghost use Rattle.mb_msg.specs.Plans.{CanHash, plan_digest};
    ghost use Rattle.mb_model.specs.Plans.{are_of_plan};

    /// Each batch of the plan has 1 to 16 requests, each with an operation of at most 1,024 bytes, and there are at most 64 batches.
    pub(crate) fn of(view: View, plan: Plan) -> HeldPlan
        requires { CanHash plan }
        ensures { result ≡ (view, plan) }
    {
        let batches = digests_of(plan.batches.as_slice());
        HeldPlan {
            view,
            digest: digest_with(&plan, &batches[..plan.batches.len()]),
            batches,
            plan,
        }
    }

    /// The view that carries the plan on.
    pub fn view(&self) -> View
        ensures { result ≡ self.now.0 }
    {
        self.view
    }

    /// The plan itself: its base, and the batches behind it.
    pub fn plan(&self) -> &Plan
        ensures plan { result.now ≡ self.now.1 }
        ensures hashed { CanHash result.now }
    {
        &self.plan
    }

    /// The digest of the plan.
    pub fn digest(&self) -> Digest
        ensures { result ≡ plan_digest self.now.1 }
    {
        self.digest
    }

    /// The digests of the batches, in order.
    pub fn batches(&self) -> &[Digest]
        ensures { result.now ≡ map batch_digest self.now.1.batches }
    {
        &self.batches[..self.plan.batches.len()]
    }

    /// Whether base, end and digest are those of the plan.
    pub fn is_described(&self, base: Pos, end: Pos, digest: &Digest) -> bool
        ensures { result ≡ are_of_plan base end digest.now self.now.1 }
    {
        base == self.plan.base.pos && end == self.plan.end() && *digest == self.digest
    }
}

ghost use Rattle.std.specs.Prelude.{◌≡◌, ◌≤◌, ◌++◌, ℕ, List, length, map, take};
ghost use Rattle.std.specs.List.{AllByRecursion, flat_map};
ghost use Rattle.mb_base.specs.Limits.{plan_limit};
ghost use Rattle.mb_base.specs.Shapes.{Bytes};
ghost use Rattle.mb_parts.specs.Bares.{batch_digest};
ghost use Rattle.mb_parts.specs.Fits.{CanDigest};
ghost use Rattle.mb_msg.specs.Plans.{CanHash, plan_digest};

fn digests_of(batches: &[Batch]) -> [Digest; MAX_BATCHES]
    requires few { length batches.now ≤ plan_limit }
    requires hashed { AllByRecursion CanDigest batches.now }
    ensures { take (length batches.now) result ≡ map batch_digest batches.now }
{
    let mut digests = [[0; 32]; MAX_BATCHES];
    for index in 0..batches.len() {
        digests[index] = batches[index].digest();
    }
    digests
}

/// The digest of a plan whose batches have these digests.
fn digest_with(plan: &Plan, batches: &[Digest]) -> Digest
    requires hashed { CanHash plan.now }
    requires batches { batches.now ≡ map batch_digest plan.now.batches }
    ensures { result ≡ plan_digest plan.now }
{
    let mut hasher = Sha256::new();
    hasher.update(b"P");
    hasher.update(plan.base.pos.to_be_bytes());
    hasher.update(plan.base.state);
    feed(&mut hasher, batches);
    hasher.finalize()
}

/// Feeds a hasher with digests.
fn feed<H: Hasher>(hasher: &mut H, digests: &[Digest])
    ensures { (m : List ℕ) → H.holds hasher.old m → H.holds hasher.new (m ++ flat_map (λ (d : Bytes). d) digests.now) }
{
    for digest in digests {
        hasher.update(*digest);
    }
}
