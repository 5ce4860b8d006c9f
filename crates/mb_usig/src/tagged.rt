//! A text with its tag, as it is remembered.

use crate::origin::Origin;
use mb_base::Digest;
use std::marker::Model;

/// The longest text that is remembered, in bytes. The certificates of a COMMIT and of a NEW_VIEW cover 89.
const LONGEST: usize = 96;

/// A text with its tag and whose tag it is. There is room for the longest text, so that one more takes no memory.
#[derive(Drop)]
pub(crate) struct TaggedText {
    origin: Origin,
    tag: Digest,
    bytes: [u8; LONGEST],
    len: usize,
}

impl Model for TaggedText {
    ghost use Rattle.std.specs.Prelude.{◌≤◌, take};
    ghost use Rattle.mb_usig.specs.declared.tagged.TheConstants.{LONGEST};
    ghost use Rattle.mb_usig.specs.Remembered.{Tagged};

    ghost Value = { Tagged };

    ghost view = { λ t. record { origin = t.origin; text = take t.len t.bytes; tag = t.tag } };

    ghost invariant = { λ t. t.len ≤ LONGEST };
}

impl TaggedText {
    ghost use Rattle.std.specs.Prelude.{◌≡◌, ◌≤◌, length, IsTrue};

    /// Whether a text is short enough.
    pub(crate) fn has_room(text: &[u8]) -> bool
        ensures { IsTrue result → length text.now ≤ LONGEST }
    {
        text.len() <= LONGEST
    }

    /// A text that is short enough, with its tag.
    pub(crate) fn of(origin: Origin, text: &[u8], tag: &Digest) -> TaggedText
        requires { length text.now ≤ LONGEST }
        ensures { result ≡ record { origin = origin; text = text.now; tag = tag.now } }
    {
        let len = text.len();
        let mut bytes = [0; LONGEST];
        bytes[..len].copy_from_slice(text);
        TaggedText {
            origin,
            tag: *tag,
            bytes,
            len,
        }
    }

    /// Whether it is this text with this tag, of this origin.
    pub(crate) fn says(&self, origin: Origin, text: &[u8], tag: &Digest) -> bool
        ensures { IsTrue result → self.now ≡ record { origin = origin; text = text.now; tag = tag.now } }
    {
        self.origin == origin && self.tag == *tag && &self.bytes[..self.len] == text
    }
}
