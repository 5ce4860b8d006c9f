//! Shown logs: whether what a VIEW_CHANGE shows is usable, the plan that f+1 of them leave to the next view, and whether a NEW_VIEW announces it.
//!
//! A VIEW_CHANGE shows all that its host stamped since a floor that f+1 hosts certified, or since its start. It is usable where nothing is left
//! out, altered or out of order. The reasons for which it may not be are looked for in this order; the first three stand before all entries,
//! and the next six are asked of each entry before the next one:
//!
//! | Reason | What fails |
//! |---|---|
//! | 1 | the floor certificate does not check for the host |
//! | 2 | the stable certificate does not check, or is below the floor certificate |
//! | 9 | more entries than allowed, of one sort or the other |
//! | 3 | the counter is not the next one |
//! | 4 | the entry is not the host's, or its tag does not verify |
//! | 5 | the entry may not stand there |
//! | 6 | a body is shown that isn't asked for, or isn't shown where it is |
//! | 7 | a vote, or an OPEN's end, is more than 2K above the stable position |
//! | 8 | a request's tag does not verify, or the body of an OPEN is not that of its plan |
//!
//! Behind the last entry 3 and 5 are asked of the VIEW_CHANGE itself: it has the next counter, and goes to a later view.
//!
//! The plan of f+1 usable VIEW_CHANGEs is a base and batches behind it, position by position. The base is the greatest of the stable certificates
//! that they show and of the bases of the last openings of the highest opened view. At each position stands the batch that was voted for in that
//! view with the primary's lowest counter, up to the first position without a vote, and at most 2K of them. The logs are gone through once for
//! their votes, which are kept place by place.
//!
//! A NEW_VIEW follows where each of its members is of its view, rightly stamped and usable, and where it announces base, end and digest of their
//! plan. That plan is the answer, so it is made once. Its members vote for the same batches by the same PREPAREs, most of the time: what was found of
//! a batch, its digest and whether its tags are right, stays for the members behind and for the plan, so that its tags are looked at once; so does a
//! PREPARE whose certificate was right.
//!
//! The protocol is MinBFT (Veronese, Correia, Bessani, Lung, Verissimo: *Efficient Byzantine Fault-Tolerance*, IEEE Transactions on Computers,
//! 2013). There too a VIEW-CHANGE shows all messages that its replica sent since its last checkpoint certificate.
#![tactic(auto)]

mod bodies;
mod certificates;
mod entries;
mod last_openings;
mod logs;
mod looked;
mod new_view;
mod plan_digests;
mod planning;
mod shown;
mod shown_votes;
mod tags;

pub use bodies::{check_open, inner_valid};
pub use mb_msg::Plan;
pub use new_view::{NewViewFault, check_new_view, check_new_view_knowing};
pub use plan_digests::kept_by;
pub use planning::{PlanFault, plan_of};
pub use shown::{BadProof, usable, usable_knowing};
pub use tags::{are_tagged, is_tagged};
