//! The client table: each client's last executed request and its result. How a request is executed, and the digest of a state.
#![tactic(auto)]

mod accept;
mod state_digest;
mod table;
mod table_bytes;

pub use accept::Accept;
pub use mb_model::LastReply;
pub use mb_service::Restore;
pub use state_digest::digest;
pub use table::Table;
