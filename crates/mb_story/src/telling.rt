//! What is told of an event.

use mb_base::{Client, Items};
use mb_schedule::Report;
use mb_world::Seen;

/// A message that an event made.
#[derive(Clone, Copy)]
pub struct NewMessage {
    /// Its number, from 1.
    pub number: u64,
    /// The client that it is to, exactly where it is a REPLY.
    pub client: Option<Client>,
}

/// What is told of an event.
#[derive(Drop)]
pub struct Telling {
    /// What it answered.
    pub seen: Seen,
    /// The messages that it made, in order.
    pub messages: Items<NewMessage>,
    /// What the report behind it says anew: the batches by which the one list grew, the event where it was refused, and the line of the host or the
    /// client to which it came.
    pub news: Report,
}
