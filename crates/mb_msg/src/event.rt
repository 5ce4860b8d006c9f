//! What a host is given, and what it answers.

use mb_base::{Client, Counter, Host, Items, Pos, Seq, View};
use mb_parts::Request;

/// What happens to a host.
#[derive(PartialEq, Drop)]
pub enum Event {
    /// These bytes came.
    Given(Items<u8>),
    /// It waited too long for something.
    Patience,
    /// It is time to ask for what is missing.
    Nudge,
}

/// What became of an event: the first that fits, in the order of the checks.
#[derive(Clone, Copy, PartialEq, Eq)]
pub enum Outcome {
    /// The bytes are no message. `at` is the offset of the first field that is short or has a value that isn't allowed.
    Malformed { at: usize },
    /// A stamped message whose certificate does not verify.
    BadUi,
    /// A stamped message of a sender that is shut out since this counter.
    Convicted { counter: Counter },
    /// The counter is below the next one that is expected of the sender.
    Stale { next: Counter },
    /// The counter is above the next one that is expected of the sender.
    Ahead { next: Counter },
    /// A stamped message that may not stand behind those before it. The number of the rule of its kind is told.
    Illegal { rule: u8 },
    /// A vote of a view above the host's, which is told.
    LaterView { view: View },
    /// A position beyond the window above the stable position, which is told.
    BeyondWindow { low: Pos },
    /// A vote without its batch, at a position that isn't executed. The host's view and last executed position are told.
    NeedBody { view: View, exec: Pos },
    /// A request, wish or STOP whose tag does not verify.
    BadTag,
    /// What a message shows does not check. The index of what fails is told, and the number of the reason.
    Unusable { index: u16, reason: u8 },
    /// A request numbered below the client's last executed one, which is told.
    Old { last: Seq },
    /// The client's last executed request. The stored reply is sent again.
    Again,
    /// A part of a state has another digest than the one listed. The part is told; 65 stands for the list of digests.
    WrongDigest { part: u8 },
    /// All parts are there, and they are no state. The first bad part is told, and the offset in it.
    BadState { part: u8, at: u32 },
    /// The host is to stop.
    Stopping,
    /// Nothing to do.
    Idle,
    /// All else.
    Took,
}

/// To whom a message is sent.
#[derive(Clone, Copy, PartialEq, Eq)]
pub enum To {
    /// Each other host.
    All,
    Host(Host),
    Client(Client),
}

/// A message that is sent, as its bytes.
#[derive(PartialEq, Drop)]
pub struct Sent {
    pub to: To,
    pub bytes: Items<u8>,
}

/// A request of a slot. It is fresh where its number was above its client's last one, and else it changed nothing.
#[derive(PartialEq, Drop)]
pub struct Placed {
    pub request: Request,
    pub fresh: bool,
}

/// The requests of a batch at its place in the one list.
#[derive(PartialEq, Drop)]
pub struct Slot {
    pub pos: Pos,
    pub requests: Items<Placed>,
}

/// What one event brought about at a host: messages in the order in which they were made, and slots in the order in which they were executed.
#[derive(PartialEq, Drop)]
pub struct Step {
    pub outcome: Outcome,
    pub sent: Items<Sent>,
    pub executed: Items<Slot>,
    /// The position of the state that was taken over, if one was.
    pub adopted: Option<Pos>,
}
