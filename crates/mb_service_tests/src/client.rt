use crate::samples::bytes;
use mb_base::{Client, Digest, Host, Key, Pos, Seq, Shape};
use mb_client::{Asker, Taken, accepted_results_have_a_quorum};
use mb_msg::{Reply, Request};
use std::alloc::Global;
use std::process::Abort;

const SECRET: Key = [0; 32];

/// The client of all tests.
const CLIENT: Client = 3;

const OP: &[u8] = b"PUT a 1";

// The expected tags were made with Python's hmac and hashlib.

const FIRST_REQUEST_TAG: &[u8] =
    b"\x84\x24\xff\xa0\x19\xdf\x1a\xec\x38\xa5\x91\x57\x76\xb4\x80\xa6\x4b\x39\x96\x2d\xc9\xc7\x7f\x4e\x8c\xf5\xcc\xd1\xde\x7e\xcc\xc6";

const SECOND_REQUEST_TAG: &[u8] =
    b"\xd8\x02\xd8\x0b\xd8\xc5\xd6\x4d\x78\xdc\xbb\xc7\x7e\xdd\xce\x4d\x31\x54\xcc\x2c\x1c\xd7\xb3\x82\x89\x0f\x98\x7a\xbd\x74\x47\x7e";

/// What a host tells a client.
#[derive(Clone, Copy)]
struct Row {
    host: Host,
    client: Client,
    seq: Seq,
    pos: Pos,
    result: &'static [u8],
    tag: &'static Digest,
}

/// Host 0 executed request 1 at position 5.
const HOST_0: Row = Row {
    host: 0,
    client: CLIENT,
    seq: 1,
    pos: 5,
    result: b"OK",
    tag: b"\x24\x16\x54\x11\x70\x4e\x8c\x67\xfa\xb3\x40\xb4\x2e\x88\x85\xf8\xd3\x76\xba\x91\x3a\x19\x4d\xfe\x49\x10\x7f\xcc\xcc\xe0\xcb\xc7",
};

/// Host 1 executed the same.
const HOST_1: Row = Row {
    host: 1,
    client: CLIENT,
    seq: 1,
    pos: 5,
    result: b"OK",
    tag: b"\xe7\x50\x4b\x58\x98\x39\x65\x62\xee\x31\x68\x2c\x0d\xa5\x5d\xd3\x17\xb5\x47\x46\x0f\x6d\xb2\xc8\x6f\x59\x9f\xe3\xc1\x36\x74\x6b",
};

/// And host 2.
const HOST_2: Row = Row {
    host: 2,
    client: CLIENT,
    seq: 1,
    pos: 5,
    result: b"OK",
    tag: b"\x4b\xad\x51\x79\xd7\x3b\x3d\x2c\x20\x1e\xa4\xb3\x3c\x1c\xed\xc3\x4f\x01\x28\x1e\xd7\xe6\xd1\x02\xee\xd7\x2b\x02\x51\x8c\xe2\x4d",
};

/// Host 1 executed it at another position.
const OTHER_POSITION: Row = Row {
    host: 1,
    client: CLIENT,
    seq: 1,
    pos: 6,
    result: b"OK",
    tag: b"\xbf\xcd\x9c\x49\x52\x9a\xfd\xd4\xf0\x26\x82\xce\x65\x95\x96\x37\xa7\x86\x8d\xc3\xde\x2d\x8a\xf7\x09\xe1\xac\x59\xa9\xdf\xaf\xf1",
};

/// Host 1 executed it with another result.
const OTHER_RESULT: Row = Row {
    host: 1,
    client: CLIENT,
    seq: 1,
    pos: 5,
    result: b"NO",
    tag: b"\x71\x45\x36\x8d\xc7\xaa\xca\xfd\x7e\xf4\x0c\x3b\x9e\x80\xc8\x15\x49\xa2\xd7\x38\x34\xbc\x2a\x9d\x28\xfa\xac\x41\xe3\xa8\x41\x4b",
};

/// Host 0 executed request 2.
const NEXT_REQUEST: Row = Row {
    host: 0,
    client: CLIENT,
    seq: 2,
    pos: 5,
    result: b"OK",
    tag: b"\x8d\xff\x1a\x50\xa5\xaf\xb3\x2d\x88\xc8\x51\x7d\x75\x02\x47\x82\x26\xf9\x65\x67\x19\x39\x31\x27\xf1\xf4\xde\x34\xb2\xef\xbe\x5d",
};

/// Host 0 executed request 1 of client 2.
const OTHER_CLIENT: Row = Row {
    host: 0,
    client: 2,
    seq: 1,
    pos: 5,
    result: b"OK",
    tag: b"\x4a\xa4\x65\x62\x65\xf5\x7b\xd7\x18\x69\x5c\x9c\x97\x54\x8d\xf6\x46\x5d\x5b\x93\x62\x22\xb5\x9e\xc6\x01\xab\xb1\x43\xbe\x80\x13",
};

impl Row {
    fn reply(&self, rt: &impl Abort, alloc: Global) -> Reply {
        Reply {
            host: self.host,
            client: self.client,
            seq: self.seq,
            pos: self.pos,
            result: bytes(rt, alloc, self.result),
            tag: *self.tag,
        }
    }
}

/// A client of a system with f = 1.
fn asker(rt: &impl Abort, alloc: Global) -> Asker {
    let shape = Shape::new(1, 4, 4).expect(rt, "1, 4 and 4 are a shape");
    Asker::make(alloc, shape, &SECRET, CLIENT).expect(rt, "memory")
}

/// Asks once more.
fn ask(rt: &impl Abort, alloc: Global, asker: &mut Asker) -> Digest {
    assert!(rt; asker.asked() < 9);
    let Request {
        client,
        seq,
        op,
        tag,
    } = asker.ask(alloc, OP).expect(rt, "memory");
    assert!(rt; op.as_slice() == OP);
    assert!(rt; (client, seq) == (CLIENT, asker.asked()));
    tag
}

/// Gives these replies, one after the other, and compares the answers.
fn give(rt: &impl Abort, alloc: Global, asker: &mut Asker, rows: &[(Row, Taken)]) {
    for (row, answer) in rows {
        let reply = row.reply(rt, alloc);
        assert!(rt; reply.host < 3 && reply.result.len() == 2);
        assert!(rt; asker.take(&reply) == *answer);
    }
}

/// A client that asked once and was then given these replies.
fn given(rt: &impl Abort, alloc: Global, rows: &[(Row, Taken)]) -> Asker {
    let mut asker = asker(rt, alloc);
    ask(rt, alloc, &mut asker);
    assert!(rt; asker.result().is_none());
    give(rt, alloc, &mut asker, rows);
    asker
}

#[test]
fn requests_are_numbered_and_tagged(rt: HostRuntime) {
    let mut asker = asker(&rt, rt.alloc());
    assert!(rt; asker.asked() == 0);
    let first = ask(&rt, rt.alloc(), &mut asker);
    let second = ask(&rt, rt.alloc(), &mut asker);
    assert!(rt; asker.asked() == 2);
    assert!(rt; first.as_slice() == FIRST_REQUEST_TAG);
    assert!(rt; second.as_slice() == SECOND_REQUEST_TAG);
}

#[test]
fn two_of_three_hosts_that_agree_are_enough(rt: HostRuntime) {
    let rows = [
        (HOST_0, Taken::Waiting { matching: 1 }),
        (HOST_1, Taken::Accepted { pos: 5 }),
        (HOST_2, Taken::OtherSeq { seq: 1 }),
    ];
    let asker = given(&rt, rt.alloc(), &rows);
    assert!(rt; asker.accepted() == 1);
    assert!(rt; asker.result() == Some((1, 5, b"OK".as_slice())));
}

#[test]
fn the_first_reply_of_each_host_counts(rt: HostRuntime) {
    let rows = [
        (OTHER_POSITION, Taken::Waiting { matching: 1 }),
        (OTHER_RESULT, Taken::Waiting { matching: 1 }),
        (HOST_0, Taken::Waiting { matching: 1 }),
        (HOST_0, Taken::Waiting { matching: 1 }),
        (HOST_1, Taken::Waiting { matching: 1 }),
        (HOST_2, Taken::Accepted { pos: 5 }),
    ];
    given(&rt, rt.alloc(), &rows);
}

#[test]
fn another_result_does_not_agree(rt: HostRuntime) {
    let rows = [
        (OTHER_RESULT, Taken::Waiting { matching: 1 }),
        (HOST_0, Taken::Waiting { matching: 1 }),
        (HOST_2, Taken::Accepted { pos: 5 }),
    ];
    given(&rt, rt.alloc(), &rows);
}

#[test]
fn bad_tags_and_other_requests_are_told(rt: HostRuntime) {
    let alloc = rt.alloc();
    let mut asker = asker(&rt, alloc);
    let unasked = [(HOST_0, Taken::OtherSeq { seq: 1 })];
    let first = [
        (Row { pos: 6, ..HOST_0 }, Taken::BadTag),
        (Row { host: 2, ..HOST_0 }, Taken::BadTag),
        (OTHER_CLIENT, Taken::BadTag),
        (NEXT_REQUEST, Taken::OtherSeq { seq: 2 }),
        (HOST_1, Taken::Waiting { matching: 1 }),
    ];
    let second = [
        (HOST_0, Taken::OtherSeq { seq: 1 }),
        (NEXT_REQUEST, Taken::Waiting { matching: 1 }),
    ];
    give(&rt, alloc, &mut asker, &unasked);
    ask(&rt, alloc, &mut asker);
    give(&rt, alloc, &mut asker, &first);
    ask(&rt, alloc, &mut asker);
    give(&rt, alloc, &mut asker, &second);
    assert!(rt; (asker.asked(), asker.accepted()) == (2, 0));
    assert!(rt; asker.result().is_none());
}

#[test]
fn the_law_is_called() {
    accepted_results_have_a_quorum();
}
