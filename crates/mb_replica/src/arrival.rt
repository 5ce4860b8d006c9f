//! A given stamped message, with what is hashed and read of it once.

ghost use Rattle.std.specs.Prelude.{◌≡◌, IfOk};
ghost use Rattle.mb_msg.specs.Fits.{FitsStamped};
ghost use Rattle.mb_msg.specs.AsStamped.{stamped_digest};
ghost use Rattle.mb_replica.specs.Told.{KnowsBody};

use mb_base::{Digest, NoMemory, Shape, Ui};
use mb_msg::{Mark, Outcome, Plan, Stamped};
use std::alloc::Global;

/// A given stamped message.
#[derive(Drop)]
pub(crate) struct Arrival {
    pub(crate) message: Stamped,
    pub(crate) ui: Ui,
    pub(crate) mark: Mark,
    /// The digest of its body, 32 zero bytes where it has none.
    pub(crate) body: Digest,
}

/// What is found of a given stamped message.
#[derive(Drop)]
pub(crate) struct Finding {
    /// Why it is refused, where it is.
    pub(crate) refusal: Option<Outcome>,
    /// The plan that it announces, where it is not refused: that of the members of a whole NEW_VIEW of a current view.
    pub(crate) plan: Option<Plan>,
}

/// A given stamped message, and what was found of it.
#[derive(Drop)]
pub(crate) struct Checked {
    pub(crate) arrival: Arrival,
    pub(crate) finding: Finding,
}

impl Finding {
    ghost use Rattle.std.specs.Prelude.{◌≡◌, None};

    /// That of a message that announces no plan.
    pub(crate) fn without_plan(refusal: Option<Outcome>) -> Finding
        ensures refusal { result.refusal ≡ refusal }
        ensures plan { result.plan ≡ None }
    {
        Finding {
            refusal,
            plan: None,
        }
    }
}

impl Arrival {
    ghost use Rattle.std.specs.Prelude.{◌≡◌, IfOk, IfErr, Ok, Err};
    ghost use Rattle.mb_parts.specs.Bares.{bare_bytes};
    ghost use Rattle.mb_msg.specs.Fits.{FitsStamped};
    ghost use Rattle.mb_msg.specs.Stamps.{bare_of};
    ghost use Rattle.mb_replica.specs.Arrivals.{IsArrival};
    ghost use Rattle.mb_replica.specs.Told.{KnowsBody};

    /// Where the digest of its body is known, it is not hashed.
    pub(crate) fn of(
        alloc: Global,
        shape: &Shape,
        message: Stamped,
        known: &Option<Digest>,
    ) -> Result<Arrival, NoMemory>
        requires fits { FitsStamped shape.now message }
        requires known { KnowsBody known.now message }
        ensures { IfOk result (λ a. IsArrival shape.now a × (a.message ≡ message)) }
    {
        match body_of(alloc, shape, &message, known) {
            Ok(body) => Ok(Arrival {
                ui: message.ui(),
                mark: message.mark(),
                body,
                message,
            }),
            Err(cause) => {
                drop(message);
                Err(cause)
            }
        }
    }

    /// This message, and what was found of it. Where memory ran out, it is dropped.
    pub(crate) fn with_finding(
        self,
        finding: Result<Finding, NoMemory>,
    ) -> Result<Checked, NoMemory>
        ensures arrival { IfOk result (λ c. c.arrival ≡ self) }
        ensures finding { IfOk result (λ c. finding ≡ Ok c.finding) }
        ensures error { IfErr result (λ e. finding ≡ Err e) }
    {
        match finding {
            Ok(finding) => Ok(Checked {
                arrival: self,
                finding,
            }),
            Err(cause) => {
                drop(self);
                Err(cause)
            }
        }
    }

    /// This message, with the digests that `Stamped::with_digests` has it keep. An error is want of memory.
    pub(crate) fn with_digests(self, alloc: Global, shape: &Shape) -> Result<Arrival, NoMemory>
        requires { FitsStamped shape.now self.message }
        ensures { IfOk result (λ a. a ≡ self) }
    {
        let Arrival {
            message,
            ui,
            mark,
            body,
        } = self;
        Ok(Arrival {
            message: message.with_digests(alloc, shape)?,
            ui,
            mark,
            body,
        })
    }

    /// What its certificate covers.
    pub(crate) fn bare(&self, alloc: Global, shape: &Shape) -> Result<Vec<u8>, NoMemory>
        requires { IsArrival shape.now self.now }
        ensures { IfOk result (λ v. v.items ≡ bare_bytes (bare_of self.now.message)) }
    {
        self.message.bare_with(alloc, shape, &self.body)
    }
}

/// The digest of a message's body, hashed where it is not known.
fn body_of(
    alloc: Global,
    shape: &Shape,
    message: &Stamped,
    known: &Option<Digest>,
) -> Result<Digest, NoMemory>
    requires fits { FitsStamped shape.now message.now }
    requires known { KnowsBody known.now message.now }
    ensures { IfOk result (λ d. d ≡ stamped_digest message.now) }
{
    match known {
        Some(body) => Ok(*body),
        None => message.body_digest(alloc, shape),
    }
}
