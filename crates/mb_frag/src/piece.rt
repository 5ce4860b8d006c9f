//! A piece of a message, as a datagram brings it: a header, and some bytes of the message.

ghost use Rattle.std.specs.Prelude.{◌≡◌, ◌≤◌, length, IfOk};
ghost use Rattle.mb_base.specs.Fields.{GivesIn, place_of};
ghost use Rattle.mb_frag.specs.Pieces.{datagram_of};
ghost use Rattle.mb_frag.specs.Reading.{count_at, header_at, least_bytes};
ghost use Rattle.mb_frag.specs.Seen.{HeaderFits, PieceFits, ReadsPiece};

use crate::limits::{HEADER_LEN, MAX_COUNT, PIECE};
use mb_base::{BadField, Fields, Items, NoMemory, put_bytes, put_u8, put_u16, put_u32};
use std::alloc::Global;

/// Which piece of which message it is.
#[derive(Clone, Copy)]
pub(crate) struct Header {
    pub(crate) sender: u8,
    /// Which of the sender's messages.
    pub(crate) number: u32,
    /// Which of the message's pieces, from 0.
    pub(crate) index: u16,
    /// How many pieces the message has.
    pub(crate) count: u16,
}

/// A header, and the bytes behind it.
#[derive(Clone, Copy)]
pub(crate) struct Piece<'a> {
    pub(crate) header: Header,
    pub(crate) bytes: &'a [u8],
}

impl Header {
    /// The datagram of a piece.
    #[tactic(auto, unfolding(crate::specs::Pieces::header_text))]
    pub(crate) fn datagram(&self, alloc: Global, bytes: &[u8]) -> Result<Items<u8>, NoMemory>
        requires { length bytes.now ≤ PIECE }
        ensures { IfOk result (λ text. text ≡ datagram_of self.now bytes.now) }
    {
        let mut text = Vec::with_capacity(alloc, HEADER_LEN + bytes.len())?;
        put_u8(&mut text, self.sender)?;
        put_u32(&mut text, self.number)?;
        put_u16(&mut text, self.index)?;
        put_u16(&mut text, self.count)?;
        put_bytes(&mut text, bytes)?;
        Ok(Items::from_vec(text))
    }

    #[tactic(auto, unfolding(crate::specs::Reading::header_at))]
    fn read(fields: &mut Fields<'_>) -> Result<Header, BadField>
        ensures read { GivesIn (λ header. header) result fields.new (header_at (place_of fields.old)) }
        ensures fits { IfOk result HeaderFits }
    {
        let sender = fields.get_u8()?;
        let number = fields.get_u32()?;
        let index = fields.get_u16()?;
        let count = read_count(index, fields)?;
        Ok(Header {
            sender,
            number,
            index,
            count,
        })
    }

    /// The fewest bytes of the piece.
    fn least_bytes(&self) -> usize
        requires { HeaderFits self.now }
        ensures { result ≡ least_bytes self.now }
    {
        if self.index + 1 == self.count {
            1
        } else {
            PIECE
        }
    }
}

/// A count of pieces, above the index of one of them.
fn read_count(index: u16, fields: &mut Fields<'_>) -> Result<u16, BadField>
    ensures { GivesIn (λ count. count) result fields.new (count_at index (place_of fields.old)) }
{
    let start = *fields;
    let count = fields.u16_in(1, MAX_COUNT)?;
    if index < count {
        return Ok(count);
    }
    *fields = start;
    Err(BadField { at: start.place() })
}

impl<'a> Piece<'a> {
    /// The piece that a datagram is. An error has the offset of the first field that is short, has a value that isn't allowed, or is too long.
    pub(crate) fn read(datagram: &'a [u8]) -> Result<Piece<'a>, BadField>
        ensures read { ReadsPiece result datagram.now }
        ensures fits { IfOk result PieceFits }
    {
        let mut fields = Fields::over(datagram);
        let header = Header::read(&mut fields)?;
        let bytes = &datagram[HEADER_LEN..];
        if bytes.len() < header.least_bytes() {
            return Err(BadField { at: HEADER_LEN });
        }
        if bytes.len() > PIECE {
            return Err(BadField {
                at: HEADER_LEN + PIECE,
            });
        }
        Ok(Piece { header, bytes })
    }
}
