//! What is kept under a key.

use mb_base::Items;

/// What is kept under a key.
#[derive(Drop)]
pub(crate) struct Kept {
    /// The key's bucket, which is hashed once.
    pub(crate) bucket: u8,
    pub(crate) value: Items<u8>,
}

/// A key, and what is kept under it.
pub(crate) type Entry = (Vec<u8>, Kept);
