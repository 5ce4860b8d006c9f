//! The words `node`, `journal` and `retrace`: a host serves by a config and writes a record, with a journal of its events or without; a journal is
//! made; and the steps of a record are taken again.
//!
//! | Module | What it does | Its definitions |
//! |---|---|---|
//! | `node` | reads a config, and serves as a host of its system over a link | `specs/Nodes` |
//! | `journals` | makes a journal, and serves with one | `specs/Journals` |
//! | `retracing` | reads a record, and writes whether its host's own steps are what it says | `specs/Records` |
//! | `written` | holds no code: that a record which a node left is one of its own steps | `specs/Written` |
#![tactic(auto)]

mod journals;
mod node;
mod retracing;
mod written;

pub use journals::{kept_node, make_journal};
pub use node::node as node_of;
pub use retracing::retrace;
pub use written::{
    nodes_write_records, read_configs_keep_limits, what_kept_nodes_write_is_left,
    what_nodes_write_is_left, written_records_are_own,
};
