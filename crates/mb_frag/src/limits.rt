//! How long the pieces of messages are.

use mb_base::MESSAGE_LIMIT;

/// The bytes of a datagram before those of the message.
pub const HEADER_LEN: usize = 9;

/// The most bytes of a message in one datagram. Each piece but the last has as many.
pub const PIECE: usize = 32_768;

/// The most pieces of a message.
pub const MAX_COUNT: u16 = 128;

// The pieces of a message have room for the longest one.
const _: () = prove!(MAX_COUNT as usize * PIECE == MESSAGE_LIMIT);
