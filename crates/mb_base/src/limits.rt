//! How long a message may be.

/// The most bytes of a message: 128 datagrams with 32,768 bytes each. The longest of all, a NEW_VIEW of seven hosts that take a checkpoint
/// at each 32nd position, has less.
pub const MESSAGE_LIMIT: usize = 4_194_304;
