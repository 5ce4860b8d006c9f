//! A client's side: the requests that it makes, and the replies that it counts until f+1 hosts agree.
#![tactic(auto)]

mod asker;
mod kept_reply;
mod laws;
mod replies;
mod reply_tag;
mod taken;
mod text;

pub use asker::Asker;
pub use laws::accepted_results_have_a_quorum;
pub use taken::Taken;
