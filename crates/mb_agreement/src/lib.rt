//! One history across views: what all hosts stamped decides one batch for a position, whatever views came between.
#![tactic(auto)]

mod laws;

pub use laws::{records_have_view_changes, views_agree};
