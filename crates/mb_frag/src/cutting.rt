//! Cutting a message into pieces.

ghost use Rattle.std.specs.Prelude.{◌≡◌, ◌*◌, ◌≤◌, ◌<◌, drop, length, IfOk};
ghost use Rattle.std.specs.List.{flat_map};
ghost use Rattle.mb_frag.specs.Cutting.{part, pieces_of};

use crate::limits::{HEADER_LEN, PIECE};
use crate::piece::Header;
use mb_base::{Items, MESSAGE_LIMIT, NoMemory};
use std::alloc::Global;

/// The bytes of one of the pieces of a message.
fn part_of(message: &[u8], index: u16) -> &[u8]
    requires { index * PIECE < length message.now }
    ensures value { result.now ≡ part message.now index }
    ensures short { length result.now ≤ PIECE }
{
    let rest = &message[index as usize * PIECE..];
    &rest[..rest.len().min(PIECE)]
}

/// The pieces of a message, each a datagram: 32,768 bytes of the message, or what is left of it, behind a header of 9 bytes.
pub fn cut(
    alloc: Global,
    sender: u8,
    number: u32,
    message: &[u8],
) -> Result<Vec<Items<u8>>, NoMemory>
    requires some { 1 ≤ length message.now }
    requires fits { length message.now ≤ MESSAGE_LIMIT }
    ensures pieces { IfOk result (λ pieces. pieces.items ≡ pieces_of sender number message.now) }

    // What stands behind the headers is the message.
    ensures joined { IfOk result (λ pieces. flat_map (drop HEADER_LEN) pieces.items ≡ message.now) }
{
    let count = message.len().div_ceil(PIECE) as u16;
    let mut pieces = Vec::with_capacity(alloc, count as usize)?;
    for index in 0..count {
        let header = Header {
            sender,
            number,
            index,
            count,
        };
        pieces.push(header.datagram(alloc, part_of(message, index))?)?;
    }
    Ok(pieces)
}
