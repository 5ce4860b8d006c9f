//! Putting the pieces of a message together.

use crate::limits::PIECE;
use crate::piece::Piece;
use crate::pushed::Pushed;
use crate::stage::Stage;
use mb_base::{MESSAGE_LIMIT, NoMemory};
use std::alloc::Global;
use std::marker::Model;

/// Puts the messages of one sender together, one after the other. It has room for the longest message from the start.
#[derive(Drop)]
pub struct Reassembler {
    stage: Stage,
    bytes: Vec<u8>,
}

impl Model for Reassembler {
    ghost use Rattle.std.specs.Prelude.{◌≤◌, length, vec_capacity};
    ghost use Rattle.mb_base.specs.declared.limits.TheConstants.{MESSAGE_LIMIT};
    ghost use Rattle.mb_frag.specs.Held.{Held};
    ghost use Rattle.mb_frag.specs.Stages.{StageFits};

    ghost Value = { Held };

    ghost view = { λ r. record { stage = r.stage; bytes = r.bytes.items } };

    ghost invariant = { λ r. (MESSAGE_LIMIT ≤ vec_capacity r.bytes) × StageFits r.stage (length r.bytes.items) };
}

impl Reassembler {
    ghost use Rattle.std.specs.Prelude.{◌≡◌, ◌*◌, length, IfOk};
    ghost use Rattle.mb_frag.specs.Seen.{PieceFits, seen};
    ghost use Rattle.mb_frag.specs.Held.{IsWhole, nothing_held, with_piece, taken, push_of};
    ghost use Rattle.mb_frag.specs.Stages.{IsSized};

    /// Holds nothing. All memory is taken here.
    pub fn make(alloc: Global) -> Result<Reassembler, NoMemory>
        ensures { IfOk result (λ r. r ≡ nothing_held) }
    {
        Ok(Reassembler {
            stage: Stage::Empty,
            bytes: Vec::with_capacity(alloc, MESSAGE_LIMIT)?,
        })
    }

    /// Takes a datagram. A piece with index 0 begins a message, and what was held is dropped. Any other piece is taken only where it is the next one of the message that is begun. A datagram that isn't taken changes nothing.
    ///
    /// A message that is whole has 1 to 4,194,304 bytes.
    ///
    /// The sender isn't looked at: there is one reassembler for each.
    #[tactic(auto, unfolding(crate::specs::Held::push_of))]
    pub fn push(&mut self, datagram: &[u8]) -> Pushed
        ensures answer { result ≡ (push_of self.old datagram.now).0 }
        ensures held { self.new ≡ (push_of self.old datagram.now).1 }
        ensures whole { result ≡ Pushed.Whole → IsWhole self.new }
        ensures sized { result ≡ Pushed.Whole → IsSized self.new.bytes }
    {
        match Piece::read(datagram) {
            Ok(piece) => self.take(&piece),
            Err(bad) => Pushed::BadPiece { at: bad.at as u16 },
        }
    }

    /// The message that is whole.
    pub fn message(&self) -> &[u8]
        requires { IsWhole self.now }
        ensures { result.now ≡ self.now.bytes }
    {
        self.bytes.as_slice()
    }

    fn take(&mut self, piece: &Piece<'_>) -> Pushed
        requires { PieceFits piece.now }
        ensures answer { result ≡ (taken self.old (seen piece.now)).0 }
        ensures held { self.new ≡ (taken self.old (seen piece.now)).1 }
        ensures sized { result ≡ Pushed.Whole → IsSized self.new.bytes }
    {
        if piece.header.index == 0 {
            self.clear();
            return self.join(piece);
        }
        if self.stage.goes_on(&piece.header) {
            return self.join(piece);
        }
        Pushed::Dropped {
            expected: self.stage.next_index(),
        }
    }

    fn clear(&mut self)
        ensures { self.new ≡ nothing_held }
    {
        self.stage = Stage::Empty;
        self.bytes.clear();
    }

    /// Puts a piece behind the bytes of those before it.
    #[tactic(auto, using(crate::proofs::SizeLemmas::last_sized))]
    fn join(&mut self, piece: &Piece<'_>) -> Pushed
        requires piece { PieceFits piece.now }
        requires place { length self.old.bytes ≡ piece.now.header.index * PIECE }
        ensures answer { result ≡ (with_piece self.old.bytes (seen piece.now)).0 }
        ensures held { self.new ≡ (with_piece self.old.bytes (seen piece.now)).1 }
        ensures sized { result ≡ Pushed.Whole → IsSized self.new.bytes }
    {
        self.bytes.extend_from_slice(piece.bytes).unwrap();
        let header = piece.header;
        let next = header.index + 1;
        if next == header.count {
            self.stage = Stage::Whole;
            return Pushed::Whole;
        }
        self.stage = Stage::Begun {
            number: header.number,
            count: header.count,
            next,
        };
        Pushed::NotYet { next }
    }
}
