//! Whose a tag is.

use mb_base::{Client, Counter, Host};

/// Who made a tag: the trusted part of a host, at one of its counters, or a client.
#[derive(Clone, Copy, PartialEq, Eq)]
pub(crate) enum Origin {
    Host { host: Host, counter: Counter },
    Client { client: Client },
}
