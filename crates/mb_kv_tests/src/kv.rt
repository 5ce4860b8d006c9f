use mb_base::Items;
use mb_kv::Kv;
use mb_service::{PARTS, Restore, Service};
use std::alloc::Global;
use std::process::Abort;

/// PUT with a key and a value of so many bytes.
fn put_of(rt: &impl Abort, alloc: Global, key: u8, value: u16) -> Vec<u8> {
    let mut op = vec![in alloc; 1, key].expect(rt, "memory");
    for _ in 0..key {
        op.push(97).expect(rt, "memory");
    }
    op.push((value / 256) as u8).expect(rt, "memory");
    op.push((value % 256) as u8).expect(rt, "memory");
    for _ in 0..value {
        op.push(49).expect(rt, "memory");
    }
    op
}

/// PUT of an empty value under a key of two bytes.
fn put_number(number: u16) -> [u8; 6] {
    [1, 2, (number / 256) as u8, (number % 256) as u8, 0, 0]
}

/// All parts of the state.
fn parts_of(rt: &impl Abort, alloc: Global, kv: &Kv) -> Vec<Items<u8>> {
    let mut parts = Vec::new(alloc);
    for number in 0..PARTS {
        let part = kv.snapshot(alloc, number).expect(rt, "memory");
        parts.push(part).expect(rt, "memory");
    }
    parts
}

fn assert_result(rt: &impl Abort, alloc: Global, kv: &mut Kv, op: &[u8], expected: &[u8]) {
    let result = kv.apply(alloc, op).expect(rt, "memory");
    assert!(rt; result.as_slice() == expected);
}

/// Operations in their order, each with its result.
fn assert_results(rt: &impl Abort, alloc: Global, kv: &mut Kv, rows: &[(&[u8], &[u8])]) {
    for &(op, result) in rows {
        assert_result(rt, alloc, kv, op, result);
    }
}

/// PUTs of the keys 0 to 4,095 succeed.
fn assert_4_096_puts(rt: &impl Abort, alloc: Global, kv: &mut Kv) {
    for number in 0..4096 {
        assert_result(rt, alloc, kv, &put_number(number), &[0]);
    }
}

const RESULTS: [(&[u8], &[u8]); 36] = [
    // one key from an empty service to an empty one, and two that are no operations
    (b"\x02\x01a", b"\x02"),
    (b"\x01\x01a\x00\x011", b"\x00"),
    (b"\x02\x01a", b"\x01\x00\x011"),
    (b"\x04\x01a\x00\x011\x00\x012", b"\x00"),
    (b"\x04\x01a\x00\x011\x00\x012", b"\x03\x00\x012"),
    (b"\x03\x01a", b"\x00"),
    (b"\x02\x01a", b"\x02"),
    (b"\x09", b"\x05"),
    (b"", b"\x05"),
    // each kind, with keys that are and are not there
    (b"\x01\x01a\x00\x011", b"\x00"),
    (b"\x02\x01a", b"\x01\x00\x011"),
    (b"\x01\x01a\x00\x0222", b"\x00"),
    (b"\x02\x01a", b"\x01\x00\x0222"),
    (b"\x02\x01b", b"\x02"),
    (b"\x04\x01a\x00\x011\x00\x013", b"\x03\x00\x0222"),
    (b"\x04\x01a\x00\x0222\x00\x013", b"\x00"),
    (b"\x02\x01a", b"\x01\x00\x013"),
    (b"\x04\x01b\x00\x00\x00\x013", b"\x02"),
    (b"\x03\x01b", b"\x02"),
    (b"\x03\x01a", b"\x00"),
    (b"\x02\x01a", b"\x02"),
    (b"\x03\x01a", b"\x02"),
    (b"\x01\x01a\x00\x00", b"\x00"),
    (b"\x02\x01a", b"\x01\x00\x00"),
    // no operations: another kind, a short or surplus field, a length that isn't allowed
    (b"", b"\x05"),
    (b"\x00", b"\x05"),
    (b"\x05\x01a", b"\x05"),
    (b"\x02", b"\x05"),
    (b"\x02\x00", b"\x05"),
    (b"\x02\x01", b"\x05"),
    (b"\x02\x01aa", b"\x05"),
    (b"\x03\x01aa", b"\x05"),
    (b"\x01\x01a\x00\x021", b"\x05"),
    (b"\x01\x01a\x00\x0111", b"\x05"),
    (b"\x04\x01a\x00\x00", b"\x05"),
    (b"\x04\x01a\x00\x00\x00\x0011", b"\x05"),
];

#[test]
fn each_operation_has_its_result(rt: HostRuntime) {
    let mut kv = Kv::new(rt.alloc());
    assert_results(&rt, rt.alloc(), &mut kv, &RESULTS);
}

#[test]
fn keys_and_values_have_limits(rt: HostRuntime) {
    let mut kv = Kv::new(rt.alloc());
    for (key, value, result) in [(64, 512, 0), (65, 0, 5), (0, 1, 5), (1, 513, 5)] {
        let op = put_of(&rt, rt.alloc(), key, value);
        assert_result(&rt, rt.alloc(), &mut kv, op.as_slice(), &[result]);
    }
}

#[test]
fn there_is_room_for_4_096_keys(rt: HostRuntime) {
    let mut kv = Kv::new(rt.alloc());
    assert_4_096_puts(&rt, rt.alloc(), &mut kv);
    let (first_left_out, other) = (put_number(4096), put_number(7));
    let rows: [(&[u8], &[u8]); 5] = [
        (&first_left_out, &[4]),
        (&other, &[0]),
        (&[3, 2, 0, 7], &[0]),
        (&first_left_out, &[0]),
        (&other, &[4]),
    ];
    assert_results(&rt, rt.alloc(), &mut kv, &rows);
}

const PUTS: [(&[u8], &[u8]); 3] = [
    (b"\x01\x02lp\x00\x03xyz", b"\x00"),
    (b"\x01\x01b\x00\x00", b"\x00"),
    (b"\x01\x01a\x00\x011", b"\x00"),
];

/// The parts of a state with the keys a, lp and b, whose buckets are 10, 10 and 62.
fn parts_of_three_keys(rt: &impl Abort, alloc: Global) -> Vec<Items<u8>> {
    let mut kv = Kv::new(alloc);
    assert_results(rt, alloc, &mut kv, &PUTS);
    parts_of(rt, alloc, &kv)
}

fn assert_three_keys(rt: &impl Abort, parts: &[Items<u8>]) {
    for (number, part) in parts.iter().enumerate() {
        let text: &[u8] = match number {
            10 => b"\x00\x02\x01a\x00\x011\x02lp\x00\x03xyz",
            62 => b"\x00\x01\x01b\x00\x00",
            _ => b"\x00\x00",
        };
        assert!(rt; part.as_slice() == text);
    }
}

const PUT_OF_C: &[u8] = b"\x01\x01c\x00\x011";

const GETS: [(&[u8], &[u8]); 3] = [
    (b"\x02\x01c", b"\x02"),
    (b"\x02\x02lp", b"\x01\x00\x03xyz"),
    (b"\x02\x01b", b"\x01\x00\x00"),
];

#[test]
fn a_state_is_restored_from_its_parts(rt: HostRuntime) {
    let parts = parts_of_three_keys(&rt, rt.alloc());
    assert!(rt; parts.len() == 64);
    assert_three_keys(&rt, parts.as_slice());
    let mut other = Kv::new(rt.alloc());
    assert_result(&rt, rt.alloc(), &mut other, PUT_OF_C, &[0]);
    assert!(rt; other.restore(rt.alloc(), parts.as_slice()) == Ok(()));
    assert_results(&rt, rt.alloc(), &mut other, &GETS);
}

/// Damaged texts of part 10, each with the offset of its fault. The bucket of the keys a and lp is 10, that of b is 62.
const DAMAGED: [(&[u8], u32); 16] = [
    // the count, and the first key
    (b"", 0),
    (b"\x00", 0),
    (b"\x00\x01", 2),
    (b"\x00\x01\x00", 2),
    (b"\x00\x01\x41aaaa", 2),
    (b"\x00\x01\x01", 3),
    (b"\x00\x01\x02l", 3),
    (b"\x00\x01\x01b\x00\x00", 3),
    // the first value
    (b"\x00\x01\x01a\x00", 4),
    (b"\x00\x01\x01a\x02\x01", 4),
    (b"\x00\x01\x01a\x00\x01", 6),
    // the second key
    (b"\x00\x02\x01a\x00\x00\x01a\x00\x00", 7),
    (b"\x00\x02\x02lp\x00\x00\x01a\x00\x00", 8),
    // surplus bytes
    (b"\x00\x00\x00", 2),
    (b"\x00\x01\x01a\x00\x00\x00", 6),
    (b"\x00\x01\x01a\x00\x01\x31\x00\x00", 7),
];

/// The parts of the state, of which 10 is this text, and 11 is empty.
fn damaged_parts(rt: &impl Abort, alloc: Global, kv: &Kv, text: &[u8]) -> Vec<Items<u8>> {
    let text = text.to_vec(alloc).expect(rt, "memory");
    let mut parts = parts_of(rt, alloc, kv);
    assert!(rt; parts.len() == 64);
    parts[10] = Items::from_vec(text);
    parts[11] = Items::new(alloc);
    parts
}

fn assert_bad_part(
    rt: &impl Abort,
    alloc: Global,
    kv: &mut Kv,
    parts: &[Items<u8>],
    part: u8,
    at: u32,
) {
    assert!(rt; parts.len() == 64);
    let restored = kv.restore(alloc, parts);
    assert!(rt; restored == Err(Restore::BadSnapshot { part, at }));
}

/// Where a part is damaged, that is told, and the state stays.
fn assert_damaged(rt: &impl Abort, alloc: Global, kv: &mut Kv, text: &[u8], at: u32) {
    let parts = damaged_parts(rt, alloc, kv, text);
    assert_bad_part(rt, alloc, kv, parts.as_slice(), 10, at);
    assert_result(rt, alloc, kv, PUT_OF_C, &[0]);
}

#[test]
fn damaged_parts_have_their_place(rt: HostRuntime) {
    let mut kv = Kv::new(rt.alloc());
    assert_result(&rt, rt.alloc(), &mut kv, PUT_OF_C, &[0]);
    for &(text, at) in &DAMAGED {
        assert_damaged(&rt, rt.alloc(), &mut kv, text, at);
    }
}

/// The parts of no keys, of which the first is replaced by an empty one.
fn parts_without_first(rt: &impl Abort, alloc: Global, kv: &Kv) -> Vec<Items<u8>> {
    let mut parts = parts_of(rt, alloc, kv);
    assert!(rt; parts.len() == 64);
    for part in &parts[1..] {
        assert!(rt; part.as_slice() == [0, 0].as_slice());
    }
    parts[0] = Items::new(alloc);
    parts
}

#[test]
fn an_empty_first_part_is_a_fault(rt: HostRuntime) {
    let mut kv = Kv::new(rt.alloc());
    let parts = parts_without_first(&rt, rt.alloc(), &kv);
    assert_bad_part(&rt, rt.alloc(), &mut kv, parts.as_slice(), 0, 0);
}

/// The text of part 48 with 58 keys, and one more key behind them.
fn with_one_more_key(rt: &impl Abort, alloc: Global, part: &Items<u8>) -> Items<u8> {
    let mut text = part.as_slice().to_vec(alloc).expect(rt, "memory");
    assert!(rt; text.len() > 2);
    assert!(rt; &text[..2] == [0, 58].as_slice());
    text[1] = 59;
    let more = [2, 16, 0, 0, 0];
    text.extend_from_slice(&more).expect(rt, "memory");
    Items::from_vec(text)
}

/// The parts of 4,096 keys are restored, and no more with the key 4,096.
fn assert_one_too_many(rt: &impl Abort, alloc: Global, kv: &mut Kv, parts: &mut [Items<u8>]) {
    assert!(rt; parts.len() == 64);
    assert!(rt; kv.restore(alloc, parts) == Ok(()));
    parts[48] = with_one_more_key(rt, alloc, &parts[48]);
    assert_bad_part(rt, alloc, kv, parts, 63, 333);
}

/// Of the keys 0 to 4,095, each of two bytes, 67 are in bucket 63. Key 4,096 is in bucket 48, and so the last of the 67 is one too many.
#[test]
fn the_4_097th_key_of_all_parts_is_a_fault(rt: HostRuntime) {
    let mut kv = Kv::new(rt.alloc());
    assert_4_096_puts(&rt, rt.alloc(), &mut kv);
    let mut parts = parts_of(&rt, rt.alloc(), &kv);
    assert_one_too_many(&rt, rt.alloc(), &mut kv, &mut parts);
}

/// Operations, and the digest of part 10 behind each. The bucket of the keys a and lp is 10, that of b is 62. The digests are those that sha256sum gives.
const DIGESTS: [(&[u8], &[u8]); 6] = [
    (
        b"",
        b"\x96\xa2\x96\xd2\x24\xf2\x85\xc6\x7b\xee\x93\xc3\x0f\x8a\x30\x91\x57\xf0\xda\xa3\x5d\xc5\xb8\x7e\x41\x0b\x78\x63\x0a\x09\xcf\xc7",
    ),
    (
        b"\x01\x01a\x00\x011",
        b"\xc9\x34\x31\xaf\x97\xab\x23\x4f\x5a\xa5\x7c\x51\x46\x3a\xe5\xb5\xe7\x19\x52\x83\x66\xc9\x43\x94\x7d\xe7\x8e\x6b\x01\x4a\x57\x5d",
    ),
    (
        b"\x01\x01b\x00\x00",
        b"\xc9\x34\x31\xaf\x97\xab\x23\x4f\x5a\xa5\x7c\x51\x46\x3a\xe5\xb5\xe7\x19\x52\x83\x66\xc9\x43\x94\x7d\xe7\x8e\x6b\x01\x4a\x57\x5d",
    ),
    (
        b"\x01\x02lp\x00\x03xyz",
        b"\x88\xc0\xd4\xac\xc0\xb8\x3a\x29\x8d\xfe\x78\xf2\x0d\x10\x8b\xb0\x15\x68\x30\x19\xf1\xdb\x24\xf9\x22\x10\xab\x7d\xa9\x07\x27\x37",
    ),
    (
        b"\x04\x01a\x00\x011\x00\x012",
        b"\x6a\x49\x78\x93\x53\x4f\x16\x31\x3b\x3e\x21\x63\x04\x21\x26\x33\xd9\x79\xe4\x53\x8f\x3c\x6e\x56\x0e\x4f\x12\x0e\x9b\x65\xad\x54",
    ),
    (
        b"\x03\x01a",
        b"\xa8\x42\xb5\x3e\x8d\x6e\x4d\xc4\xde\x2c\xd5\xc7\x87\x30\xea\xa1\x09\xa0\x12\x43\x5b\x36\x5f\x12\xbc\xfa\xd4\x4e\xc2\x14\xdb\x99",
    ),
];

fn assert_digest(rt: &impl Abort, alloc: Global, kv: &mut Kv, expected: &[u8]) {
    let digest = kv.part_digest(alloc, 10).expect(rt, "memory");
    assert!(rt; digest.as_slice() == expected);
}

#[test]
fn a_part_has_its_digest(rt: HostRuntime) {
    let parts = parts_of(&rt, rt.alloc(), &Kv::new(rt.alloc()));
    assert!(rt; parts.len() == 64);
    let mut kv = Kv::new(rt.alloc());
    for &(op, digest) in &DIGESTS {
        kv.apply(rt.alloc(), op).expect(&rt, "memory");
        assert_digest(&rt, rt.alloc(), &mut kv, digest);
        assert_digest(&rt, rt.alloc(), &mut kv, digest);
    }
    assert!(rt; kv.restore(rt.alloc(), parts.as_slice()) == Ok(()));
    assert_digest(&rt, rt.alloc(), &mut kv, DIGESTS[0].1);
}
