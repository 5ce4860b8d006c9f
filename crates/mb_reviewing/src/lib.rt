//! The words `audit` and `learn`: what a record proves of the hosts that its own host heard.
//!
//! | Module | What it does | Its definitions |
//! |---|---|---|
//! | `given` | what the record's host was given | `specs/Given` |
//! | `auditing` | reads a record, and writes whether a host's stamps in it are one list in order | `specs/Audits` |
//! | `learning` | reads a record, and writes the history that it proves | `specs/Learning` |
#![tactic(auto)]

mod auditing;
mod given;
mod learning;

pub use auditing::audit as audit_of;
pub use learning::learn as learn_of;
