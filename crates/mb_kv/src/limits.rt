//! How much is kept.

/// The most keys.
pub const MAX_KEYS: usize = 4096;

/// The most bytes of a key. It has one at least.
pub const MAX_KEY: u8 = 64;

/// The most bytes of a value.
pub const MAX_VALUE: u16 = 512;
