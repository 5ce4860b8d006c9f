ghost use Rattle.std.specs.Prelude.{◌≡◌, [], length};
ghost use Rattle.mb_base.specs.Limits.{part_count};

use mb_base::{Digest, Items, NoMemory};
use mb_fetch::{Kept, Parts, Shelf};
use mb_msg::StateMsg;
use sha2::{Digest as _, Sha256};
use std::alloc::Global;
use std::process::Abort;
use std::test::Fail;

/// The state digest at position 4 of the 65 parts of which each is one byte, its number. It was made with Python's hashlib.
const STATE: Digest = [
    0x74, 0x86, 0x3e, 0xfb, 0x66, 0x38, 0x6f, 0xf0, 0x8d, 0xbc, 0x1f, 0xbf, 0x3d, 0x60, 0x51, 0x1d,
    0x21, 0xb1, 0x8a, 0xb5, 0x4a, 0x6a, 0x8b, 0x17, 0xed, 0x23, 0xba, 0x1e, 0x3a, 0xcb, 0xa3, 0x4d,
];

fn part(rt: &impl Abort, alloc: Global, byte: u8) -> Items<u8> {
    Items::from_vec(Vec::from_slice(alloc, &[byte]).expect(rt, "memory"))
}

/// The digests of the 65 parts.
fn digests(rt: &impl Abort, alloc: Global) -> Items<Digest> {
    let mut digests = Items::new(alloc);
    for number in 0..65u8 {
        digests.push(Sha256::digest(&[number])).expect(rt, "memory");
    }
    digests
}

/// So many of these parts from a number on.
fn parts_from(rt: &impl Abort, alloc: Global, first: u8, count: u8) -> Items<Items<u8>> {
    let mut parts = Items::new(alloc);
    for number in first..first.saturating_add(count) {
        parts.push(part(rt, alloc, number)).expect(rt, "memory");
    }
    parts
}

/// A STATE of position 4 with so many of these parts from a number on.
fn state(rt: &impl Abort, alloc: Global, first: u8, count: u8) -> StateMsg {
    StateMsg {
        host: 1,
        pos: 4,
        digests: digests(rt, alloc),
        first,
        parts: parts_from(rt, alloc, first, count),
    }
}

/// A STATE whose digests are others.
fn state_of_other_digests(rt: &impl Abort, alloc: Global) -> StateMsg {
    let digests = Vec::from_elem(alloc, [0; 32], 65).expect(rt, "memory");
    StateMsg {
        host: 1,
        pos: 4,
        digests: Items::from_vec(digests),
        first: 0,
        parts: parts_from(rt, alloc, 0, 2),
    }
}

/// A STATE whose part 3 is certified, and whose part 4 is another.
fn state_of_another_part(rt: &impl Abort, alloc: Global) -> StateMsg {
    let mut parts = parts_from(rt, alloc, 3, 1);
    parts.push(part(rt, alloc, 9)).expect(rt, "memory");
    StateMsg {
        host: 1,
        pos: 4,
        digests: digests(rt, alloc),
        first: 3,
        parts,
    }
}

/// What keeping answers: nothing, or the number of the first that is wrong. 66 is want of memory.
fn number_of(kept: Result<(), Kept>) -> Option<u8> {
    match kept {
        Ok(()) => None,
        Err(Kept::WrongDigest { part, .. }) => Some(part),
        Err(Kept::NoMemory) => Some(66),
    }
}

/// Keeping the parts of a STATE, which has what such a message has, answers this.
fn assert_keeps(
    rt: &impl Abort,
    alloc: Global,
    parts: &mut Parts,
    state: StateMsg,
    wrong: Option<u8>,
) {
    assert!(rt; state.pos == parts.pos());
    assert!(rt; state.digests.len() == 65 && state.parts.len() > 0 && state.parts.len() <= 65);
    assert!(rt; usize::from(state.first) + state.parts.len() <= 65);
    assert!(rt; number_of(parts.keep(alloc, &state)) == wrong);
}

/// So many parts from a number on are kept, and then this is the first that is missing.
fn assert_takes(
    rt: &impl Abort,
    alloc: Global,
    parts: &mut Parts,
    first: u8,
    count: u8,
    missing: Option<u8>,
) {
    assert_keeps(rt, alloc, parts, state(rt, alloc, first, count), None);
    assert!(rt; parts.missing() == missing);
}

/// All parts are put together, each with its length and the last with its byte.
fn assert_assembles(rt: &impl Abort, parts: Parts) {
    let all = parts.assemble().ok().expect(rt, "no part is missing");
    assert!(rt; all.len() == 65);
    assert!(rt; all[64].as_slice() == [64u8].as_slice());
}

#[test]
fn a_state_is_put_together_from_certified_parts(rt: HostRuntime) {
    let alloc = rt.alloc();
    let mut parts = Parts::make(alloc, 4, STATE).expect(&rt, "memory");
    assert!(rt; parts.pos() == 4);
    assert!(rt; parts.missing() == Some(0));
    assert_keeps(
        &rt,
        alloc,
        &mut parts,
        state_of_other_digests(&rt, alloc),
        Some(65),
    );
    assert_keeps(
        &rt,
        alloc,
        &mut parts,
        state_of_another_part(&rt, alloc),
        Some(4),
    );
    assert!(rt; !parts.held(3));
    assert_takes(&rt, alloc, &mut parts, 0, 2, Some(2));
    assert_takes(&rt, alloc, &mut parts, 3, 62, Some(2));
    assert_takes(&rt, alloc, &mut parts, 1, 3, None);
    assert_takes(&rt, alloc, &mut parts, 64, 1, None);
    assert!(rt; parts.held(64) && !parts.held(65));
    assert!(rt; parts.all().len() == 65);
    assert_assembles(&rt, parts);
}

#[test]
fn a_missing_part_is_told(rt: HostRuntime) {
    let assembled = Parts::make(rt.alloc(), 4, STATE)
        .expect(&rt, "memory")
        .assemble();
    let missing = assembled.err().expect(&rt, "no part is held");
    assert!(rt; missing.part == 0);
    assert!(rt; missing.parts.pos() == 4);
}

/// The parts of a state whose first part and whose client table are these bytes, and all of whose other parts are equal.
fn parts_of(rt: &impl Abort, alloc: Global, first: u8, table: u8) -> Vec<Items<u8>>
    ensures { length result.items ≡ part_count }
{
    let mut parts = Vec::new(alloc);
    for number in 0..65u8 {
        let byte = match number {
            0 => first,
            64 => table,
            _ => 0,
        };
        parts.push(part(rt, alloc, byte)).expect(rt, "memory");
    }
    assert!(rt; parts.len() == 65);
    parts
}

/// Keeps two snapshots, which differ in their first parts and client tables.
fn keep_two(rt: &impl Abort, alloc: Global, shelf: &mut Shelf) -> Result<(), NoMemory>
    requires { shelf.old ≡ [] }
{
    shelf.keep(alloc, 4, parts_of(rt, alloc, 1, 2))?;
    assert!(rt; shelf.parts_held() == 3);
    shelf.keep(alloc, 8, parts_of(rt, alloc, 3, 4))?;
    assert!(rt; shelf.parts_held() == 5);
    Ok(())
}

/// The first byte of a part of the snapshot of position 8.
fn assert_byte(rt: &impl Abort, shelf: &Shelf, number: u8, byte: Option<u8>) {
    let part = shelf.part(8, number);
    assert!(rt; part.and_then(|bytes| bytes.first().copied()) == byte);
}

#[test]
fn equal_parts_of_snapshots_are_held_once(rt: HostRuntime) -> Result<(), Fail> {
    let mut shelf = Shelf::make(rt.alloc())?;
    keep_two(&rt, rt.alloc(), &mut shelf)?;
    shelf.drop_below(8);
    assert!(rt; shelf.parts_held() == 3);
    assert!(rt; shelf.part(4, 0).is_none());
    assert!(rt; !shelf.has(4) && shelf.has(8));
    assert_byte(&rt, &shelf, 0, Some(3));
    assert_byte(&rt, &shelf, 1, Some(0));
    assert_byte(&rt, &shelf, 64, Some(4));
    assert_byte(&rt, &shelf, 65, None);
    assert!(rt; shelf.digest(8, 0) == Some(Sha256::digest(&[3u8])));
    Ok(())
}
