//! Bytes in a row that take no memory.

use crate::reply_tag::LONGEST;
use std::marker::Model;

/// Bytes in a row, with room for what the tag of the longest reply covers.
#[derive(Drop)]
pub(crate) struct Text {
    bytes: [u8; LONGEST],
    len: usize,
}

impl Model for Text {
    ghost use Rattle.std.specs.Prelude.{ℕ, ◌≤◌, List, take};
    ghost use Rattle.mb_client.specs.declared.reply_tag.TheConstants.{LONGEST};

    ghost Value = { List ℕ };

    ghost view = { λ t. take t.len t.bytes };

    ghost invariant = { λ t. t.len ≤ LONGEST };
}

impl Text {
    ghost use Rattle.std.specs.Prelude.{◌≡◌, ◌≤◌, ◌+◌, ◌++◌, [], length};
    ghost use Rattle.std.specs.Int.{w8, w16, w64};
    ghost use Rattle.mb_base.specs.Spelling.{number};

    /// No bytes.
    pub(crate) fn new() -> Text
        ensures { result ≡ [] }
    {
        Text {
            bytes: [0; LONGEST],
            len: 0,
        }
    }

    /// Appends bytes for which there is room.
    pub(crate) fn push(&mut self, bytes: &[u8])
        requires { length self.old + length bytes.now ≤ LONGEST }
        ensures { self.new ≡ self.old ++ bytes.now }
    {
        let end = self.len + bytes.len();
        self.bytes[self.len..end].copy_from_slice(bytes);
        self.len = end;
    }

    /// Appends a number of one byte.
    #[tactic(auto, unfolding(mb_base::specs::Spelling::number))]
    pub(crate) fn push_u8(&mut self, value: u8)
        requires { length self.old + 1 ≤ LONGEST }
        ensures { self.new ≡ self.old ++ number w8 value }
    {
        self.push(&[value]);
    }

    /// Appends a number of two bytes.
    #[tactic(auto, unfolding(mb_base::specs::Spelling::number))]
    pub(crate) fn push_u16(&mut self, value: u16)
        requires { length self.old + 2 ≤ LONGEST }
        ensures { self.new ≡ self.old ++ number w16 value }
    {
        self.push(&value.to_be_bytes());
    }

    /// Appends a number of eight bytes.
    #[tactic(auto, unfolding(mb_base::specs::Spelling::number))]
    pub(crate) fn push_u64(&mut self, value: u64)
        requires { length self.old + 8 ≤ LONGEST }
        ensures { self.new ≡ self.old ++ number w64 value }
    {
        self.push(&value.to_be_bytes());
    }

    /// All bytes so far.
    pub(crate) fn as_slice(&self) -> &[u8]
        ensures { result.now ≡ self.now }
    {
        &self.bytes[..self.len]
    }
}
