use crate::samples::request;
use mb_base::{Client, Digest, Items, Pos, Seq, Shape};
use mb_cache::{Accept, Restore, Table, digest};
use mb_counter::Counter;
use mb_parts::{MAX_POS, Request};
use std::alloc::Global;
use std::process::Abort;

/// The digest of a state in which no request was executed. It and those of the rows were computed apart from this program, by Python's hashlib.
const DIGEST_AT_THE_START: &Digest =
    b"\x35\x0f\xaf\x46\xe7\x81\x11\x84\x29\xef\x74\xa1\x71\x6d\x20\x34\x11\xbc\xbf\xaa\xc6\xcd\x24\x15\xfd\x5d\xe3\x9f\x8a\x1e\xd0\x4d";

/// The bytes of a table of two clients, the first of which was told a count of 1.
const PART_BEHIND_ONE_REQUEST: &[u8] =
    b"\x00\x00\x00\x00\x00\x00\x00\x01\x00\x00\x00\x00\x00\x00\x00\x01\x00\x09\x00\x00\x00\x00\x00\x00\x00\x00\x01\x00\x00\x00\x00\x00\x00\x00\x00\x00\x00\x00\x00\x00\x00\x00\x00\x00\x00";

/// Asks to count one more.
const ADD: &[u8] = b"\x01\x00\x00\x00\x00\x00\x00\x00\x01";

/// Asks for the count.
const TELL: &[u8] = b"\x02";

/// What is answered where nothing was counted, and where one was.
const ZERO: &[u8] = b"\x00\x00\x00\x00\x00\x00\x00\x00\x00";

const ONE: &[u8] = b"\x00\x00\x00\x00\x00\x00\x00\x00\x01";

/// One of 3 hosts that may be faulty, a checkpoint at each 4th position, and so many clients.
fn table_of(rt: &impl Abort, alloc: Global, clients: u8) -> Table {
    let shape = Shape::new(1, 4, clients).expect(rt, "a shape");
    Table::make(alloc, shape).expect(rt, "memory")
}

/// Executes a request of a client that the table has, at a position that there is.
fn execute(
    rt: &impl Abort,
    alloc: Global,
    table: &mut Table,
    counter: &mut Counter,
    pos: Pos,
    request: &Request,
) -> Option<Items<u8>> {
    assert!(rt; request.client < table.clients());
    assert!(rt; pos >= 1 && pos <= MAX_POS);
    table
        .execute(alloc, counter, pos, request)
        .expect(rt, "memory")
}

/// What client 1 is answered as it asks for this at a position. None where the request is not executed.
fn answer(
    rt: &impl Abort,
    alloc: Global,
    table: &mut Table,
    counter: &mut Counter,
    pos: Pos,
    seq: Seq,
    op: &[u8],
) -> Option<Items<u8>> {
    let request = request(rt, alloc, 1, seq, op);
    execute(rt, alloc, table, counter, pos, &request)
}

/// The digest of the state behind the addition that each of four clients asks for in its request of that number, from a position on.
fn digest_behind(
    rt: &impl Abort,
    alloc: Global,
    table: &mut Table,
    counter: &mut Counter,
    first: Pos,
    seq: Seq,
) -> Digest {
    for client in 0..4 {
        let request = request(rt, alloc, client, seq, ADD);
        let pos = first.saturating_add(u64::from(client));
        execute(rt, alloc, table, counter, pos, &request);
    }
    digest(alloc, counter, table, first.saturating_add(3)).expect(rt, "memory")
}

/// What the table says of a number of client 1.
fn accept(rt: &impl Abort, table: &Table, seq: u64) -> Accept {
    assert!(rt; 1 < table.clients());
    table.accept(1, seq)
}

/// Compares the last reply to a client.
fn expect_reply(rt: &impl Abort, table: &Table, client: Client, reply: Option<(Seq, Pos, &[u8])>) {
    let last_seq = match reply {
        Some((seq, _, _)) => seq,
        None => 0,
    };
    assert!(rt; client < table.clients());
    assert!(rt; table.reply(client) == reply);
    assert!(rt; table.last_seq(client) == last_seq);
}

#[test]
fn a_request_is_executed_once(rt: HostRuntime) {
    let mut counter = Counter::new();
    let mut table = table_of(&rt, rt.alloc(), 2);
    let start = [accept(&rt, &table, 0), accept(&rt, &table, 1)];
    assert!(rt; start == [Accept::Again { pos: 0 }, Accept::Fresh]);
    expect_reply(&rt, &table, 1, None);
    let rows: [(Seq, Pos, &[u8], Option<&[u8]>); 5] = [
        (3, 1, TELL, Some(ZERO)),
        (3, 2, ADD, None),
        (2, 2, ADD, None),
        (4, 3, ADD, Some(ONE)),
        (5, 3, TELL, Some(ONE)),
    ];
    for (seq, pos, op, result) in rows {
        let answered = answer(&rt, rt.alloc(), &mut table, &mut counter, pos, seq, op);
        assert!(rt; answered.as_ref().map(|told| told.as_slice()) == result);
    }
    drop(counter);
    expect_reply(&rt, &table, 1, Some((5, 3, ONE)));
    assert!(rt; accept(&rt, &table, 6) == Accept::Fresh);
    assert!(rt; accept(&rt, &table, 5) == Accept::Again { pos: 3 });
    assert!(rt; accept(&rt, &table, 4) == Accept::Old { last: 5 });
    expect_reply(&rt, &table, 0, None);
}

#[test]
fn states_have_their_digests(rt: HostRuntime) {
    let rows: [(u64, Pos, &[u8]); 2] = [
        (
            1,
            1,
            b"\xa3\xfe\x34\x15\x2e\xc7\x9d\xf0\xda\x24\xf5\xe3\x89\xe5\x4f\xa4\xdb\x6d\x96\x18\x59\x42\x2d\x3c\x08\x71\x18\x23\xd1\xf9\xdb\x65",
        ),
        (
            2,
            5,
            b"\x74\x78\xb8\x48\xa9\x3b\x6f\x43\x04\x5b\x8b\xcd\xb8\xca\x78\x5f\xb4\x03\xe6\x2a\xba\x8a\x60\x3f\xc4\xd8\x11\xa7\xa2\xd8\x98\x5a",
        ),
    ];
    let mut counter = Counter::new();
    let mut table = table_of(&rt, rt.alloc(), 4);
    let start = digest(rt.alloc(), &mut counter, &table, 0).expect(&rt, "memory");
    assert!(rt; start == *DIGEST_AT_THE_START);
    for (seq, first, state) in rows {
        let digest = digest_behind(&rt, rt.alloc(), &mut table, &mut counter, first, seq);
        assert!(rt; digest.as_slice() == state);
    }
}

#[test]
fn a_table_is_restored_from_its_bytes(rt: HostRuntime) {
    let mut counter = Counter::new();
    let mut table = table_of(&rt, rt.alloc(), 2);
    let request = request(&rt, rt.alloc(), 0, 1, ADD);
    execute(&rt, rt.alloc(), &mut table, &mut counter, 1, &request);
    drop(request);
    drop(counter);
    let part = table.part(rt.alloc()).expect(&rt, "memory");
    drop(table);
    assert!(rt; part.as_slice() == PART_BEHIND_ONE_REQUEST);
    let mut other = table_of(&rt, rt.alloc(), 2);
    assert!(rt; other.restore(rt.alloc(), part.as_slice()) == Ok(()));
    expect_reply(&rt, &other, 0, Some((1, 1, ONE)));
    expect_reply(&rt, &other, 1, None);
}

#[test]
fn damaged_tables_have_their_place(rt: HostRuntime) {
    let rows: [(&[u8], u32); 8] = [
        (b"", 0),
        (b"\x00\x00\x00\x00\x00\x00\x00\x01\x00\x00", 8),
        // behind the number 0 no position and no result; behind another both
        (
            b"\x00\x00\x00\x00\x00\x00\x00\x00\x00\x00\x00\x00\x00\x00\x00\x01\x00\x00",
            8,
        ),
        (
            b"\x00\x00\x00\x00\x00\x00\x00\x00\x00\x00\x00\x00\x00\x00\x00\x00\x00\x01\x00",
            16,
        ),
        (
            b"\x00\x00\x00\x00\x00\x00\x00\x01\x00\x00\x00\x00\x00\x00\x00\x00\x00\x00",
            8,
        ),
        (
            b"\x00\x00\x00\x00\x00\x00\x00\x01\x80\x00\x00\x00\x00\x00\x00\x00\x00\x00",
            8,
        ),
        (
            b"\x00\x00\x00\x00\x00\x00\x00\x01\x00\x00\x00\x00\x00\x00\x00\x01\x04\x01",
            16,
        ),
        (
            b"\x00\x00\x00\x00\x00\x00\x00\x01\x00\x00\x00\x00\x00\x00\x00\x01\x00\x01\x00\x00",
            19,
        ),
    ];
    let mut table = table_of(&rt, rt.alloc(), 1);
    for (part, at) in rows {
        let bad = Err(Restore::BadSnapshot { part: 64, at });
        assert!(rt; table.restore(rt.alloc(), part) == bad);
    }
    expect_reply(&rt, &table, 0, None);
}
