ghost use Rattle.std.specs.Prelude.{◌≤◌, length};

use mb_base::Items;
use mb_frag::{
    MESSAGE_LIMIT, PIECE, Pushed, Reassembler, cut, messages_come_whole_and_in_order,
    pieces_give_the_message,
};
use std::alloc::Global;
use std::process::Abort;

/// A message of so many bytes, whose pieces differ.
fn message_of(rt: &impl Abort, alloc: Global, len: usize) -> Vec<u8> {
    let mut message = Vec::new(alloc);
    for i in 0..len {
        message.push((i % 251) as u8).expect(rt, "memory");
    }
    message
}

fn pieces(rt: &impl Abort, alloc: Global, message: &[u8]) -> Vec<Items<u8>>
    requires some { 1 ≤ length message.now }
    requires fits { length message.now ≤ MESSAGE_LIMIT }
{
    cut(alloc, 3, 0x0102_0304, message).expect(rt, "memory")
}

/// How long the pieces of 70,000 bytes are, which they are, and where they start.
const PIECES: [(u16, u8, u32); 3] = [(32_768, 0, 0), (32_768, 1, 32_768), (4_464, 2, 65_536)];

fn assert_piece(rt: &impl Abort, piece: &[u8], message: &[u8], row: &(u16, u8, u32)) {
    let &(len, index, start) = row;
    let (len, start) = (len as usize, start as usize);
    assert!(rt; piece.len() == 9 + len);
    assert!(rt; &piece[..9] == [3, 1, 2, 3, 4, 0, index, 0, 3].as_slice());
    assert!(rt; start + len <= message.len());
    assert!(rt; &piece[9..] == &message[start..start + len]);
}

fn assert_pieces(rt: &impl Abort, pieces: &[Items<u8>], message: &[u8]) {
    assert!(rt; pieces.len() == PIECES.len());
    for (piece, row) in pieces.iter().zip(&PIECES) {
        assert_piece(rt, piece.as_slice(), message, row);
    }
}

#[test]
fn a_message_of_70_000_bytes_is_cut_into_three(rt: HostRuntime) {
    let message = message_of(&rt, rt.alloc(), 70_000);
    assert!(rt; message.len() == 70_000);
    let pieces = pieces(&rt, rt.alloc(), message.as_slice());
    assert_pieces(&rt, pieces.as_slice(), message.as_slice());
}

/// Pieces in the order in which they are pushed, each with its answer.
const ANSWERS: [(usize, Pushed); 3] = [
    (0, Pushed::NotYet { next: 1 }),
    (2, Pushed::Dropped { expected: 1 }),
    (1, Pushed::NotYet { next: 2 }),
];

fn assert_pushed(rt: &impl Abort, reassembler: &mut Reassembler, piece: &[u8], answer: Pushed) {
    assert!(rt; reassembler.push(piece) == answer);
}

/// Of the three pieces of the message only the one that goes on is taken, and none behind the last.
fn assert_taken(
    rt: &impl Abort,
    reassembler: &mut Reassembler,
    pieces: &[Items<u8>],
    message: &[u8],
) {
    assert!(rt; pieces.len() == 3);
    for (index, answer) in &ANSWERS {
        assert!(rt; *index < pieces.len());
        assert_pushed(rt, reassembler, pieces[*index].as_slice(), *answer);
    }
    assert!(rt; reassembler.push(pieces[2].as_slice()) == Pushed::Whole);
    assert!(rt; reassembler.message() == message);
    let dropped = Pushed::Dropped { expected: 0 };
    assert_pushed(rt, reassembler, pieces[1].as_slice(), dropped);
}

#[test]
fn pieces_are_taken_in_their_order_alone(rt: HostRuntime) {
    let mut reassembler = Reassembler::make(rt.alloc()).expect(&rt, "memory");
    let message = message_of(&rt, rt.alloc(), 70_000);
    assert!(rt; message.len() == 70_000);
    let pieces = pieces(&rt, rt.alloc(), message.as_slice());
    assert_taken(&rt, &mut reassembler, pieces.as_slice(), message.as_slice());
}

/// A datagram of message 7 with so many bytes behind its header.
fn datagram(rt: &impl Abort, alloc: Global, index: u8, count: u8, len: usize) -> Vec<u8> {
    let head = [3, 0, 0, 0, 7, 0, index, 0, count];
    let mut datagram = Vec::from_array(alloc, head).expect(rt, "memory");
    let rest = vec![in alloc; 5u8; len].expect(rt, "memory");
    datagram.extend_from_slice(&rest).expect(rt, "memory");
    datagram
}

/// What the reassembler answers to a datagram of message 7.
fn answer_to(
    rt: &impl Abort,
    alloc: Global,
    reassembler: &mut Reassembler,
    index: u8,
    count: u8,
    len: usize,
) -> Pushed {
    let datagram = datagram(rt, alloc, index, count, len);
    reassembler.push(datagram.as_slice())
}

/// The answer to the second piece of two, but of message 8.
fn answer_to_another_number(
    rt: &impl Abort,
    alloc: Global,
    reassembler: &mut Reassembler,
) -> Pushed {
    let mut other = datagram(rt, alloc, 1, 2, 1);
    assert!(rt; other.len() == 10);
    other[4] = 8;
    reassembler.push(other.as_slice())
}

/// The answers to the first piece of two, to a second of another message, to one of three pieces, and to a whole message.
fn answers_to_others(rt: &impl Abort, alloc: Global, reassembler: &mut Reassembler) -> [Pushed; 4] {
    let first = answer_to(rt, alloc, reassembler, 0, 2, PIECE);
    let number = answer_to_another_number(rt, alloc, reassembler);
    let count = answer_to(rt, alloc, reassembler, 1, 3, PIECE);
    let short = answer_to(rt, alloc, reassembler, 0, 1, 1);
    [first, number, count, short]
}

#[test]
fn a_message_of_another_number_or_count_is_dropped(rt: HostRuntime) {
    let mut reassembler = Reassembler::make(rt.alloc()).expect(&rt, "memory");
    let answers = answers_to_others(&rt, rt.alloc(), &mut reassembler);
    let dropped = Pushed::Dropped { expected: 1 };
    let expected = [Pushed::NotYet { next: 1 }, dropped, dropped, Pushed::Whole];
    assert!(rt; answers == expected);
}

/// The piece begins the message each time.
fn assert_begins(rt: &impl Abort, reassembler: &mut Reassembler, first: &[u8]) {
    for _ in 0..1_000 {
        assert_pushed(rt, reassembler, first, Pushed::NotYet { next: 1 });
    }
}

#[test]
fn a_first_piece_that_comes_again_begins_anew(rt: HostRuntime) {
    let mut reassembler = Reassembler::make(rt.alloc()).expect(&rt, "memory");
    let first = datagram(&rt, rt.alloc(), 0, 128, PIECE);
    assert_begins(&rt, &mut reassembler, first.as_slice());
    drop(first);
    let third = answer_to(&rt, rt.alloc(), &mut reassembler, 2, 128, PIECE);
    assert!(rt; third == Pushed::Dropped { expected: 1 });
}

/// The rows: index, count, how many bytes are behind the header, where the datagram is cut off, and the offset of the fault.
const BAD_PIECES: [(u8, u8, usize, usize, u16); 14] = [
    (0, 1, 1, 0, 0),
    (0, 1, 1, 1, 1),
    (0, 1, 1, 4, 1),
    (0, 1, 1, 5, 5),
    (0, 1, 1, 6, 5),
    (0, 1, 1, 7, 7),
    (0, 1, 1, 8, 7),
    (0, 0, 1, 10, 7),
    (0, 129, 1, 10, 7),
    (1, 1, 1, 10, 7),
    (0, 2, 32_767, 32_776, 9),
    (1, 2, 0, 9, 9),
    (1, 2, 32_769, 32_778, 32_777),
    (0, 2, 32_769, 32_778, 32_777),
];

fn assert_bad_piece(
    rt: &impl Abort,
    alloc: Global,
    reassembler: &mut Reassembler,
    row: &(u8, u8, usize, usize, u16),
) {
    let &(index, count, len, end, at) = row;
    let datagram = datagram(rt, alloc, index, count, len);
    assert!(rt; end <= datagram.len());
    assert_pushed(rt, reassembler, &datagram[..end], Pushed::BadPiece { at });
}

#[test]
fn a_bad_piece_is_told_by_its_offset(rt: HostRuntime) {
    let mut reassembler = Reassembler::make(rt.alloc()).expect(&rt, "memory");
    for row in &BAD_PIECES {
        assert_bad_piece(&rt, rt.alloc(), &mut reassembler, row);
    }
}

#[test]
fn the_longest_message_comes_through(rt: HostRuntime) {
    let mut reassembler = Reassembler::make(rt.alloc()).expect(&rt, "memory");
    let message = message_of(&rt, rt.alloc(), MESSAGE_LIMIT);
    assert!(rt; message.len() == MESSAGE_LIMIT);
    let pieces = pieces(&rt, rt.alloc(), message.as_slice());
    assert!(rt; pieces.len() == 128);
    let mut answer = Pushed::Dropped { expected: 0 };
    for piece in &pieces {
        answer = reassembler.push(piece.as_slice());
    }
    assert!(rt; answer == Pushed::Whole);
}

#[test]
fn the_laws_are_called() {
    pieces_give_the_message();
    messages_come_whole_and_in_order();
}
