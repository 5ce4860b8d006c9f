//! What byte strings show of a host: all that it stamped, as far as messages among them certify it, and whether that is one list in order.
//!
//! A host's trusted counter binds one message to each of the numbers 1, 2, 3 and so on. So the certificates of a host in what another was given
//! tell one list, wherever they stood: in a message of the host itself, in a shown log, in a COMMIT that names its PREPARE, in a certificate. An
//! audit goes along this list from counter 1. It ends at the first counter that two different messages claim, that no message claims though a
//! later one is there, or at which a message stands that may not stand there; or at the end of the list.
//!
//! A message that may not stand there convicts its sender: correct hosts stamp none such.
#![tactic(auto)]

mod auditing;
mod kept;
mod shown;

pub use auditing::{Verdict, audit, illegal_is_disorder, verdicts_are_one};
pub use shown::stamps;
