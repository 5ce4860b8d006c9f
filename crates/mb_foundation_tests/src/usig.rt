ghost use Rattle.std.specs.Prelude.{◌≡◌};
ghost use Rattle.mb_base.specs.Shapes.{client_count, max_faults};

use mb_base::{Key, Shape, Ui};
use mb_usig::{Pen, Spent, Usig, hmac};
use std::process::Abort;

const SECRET: Key = [0; 32];

// The expected certificates and tags were made with Python's hmac and hashlib.

const FIRST_CERT: &[u8; 32] =
    b"\xf9\xc8\x86\x4a\x63\xc6\xb4\x35\xd2\xd0\xee\xfb\xee\xa3\x19\xb4\xf0\xb1\x8e\x6f\x7c\xa9\x82\xbe\xd2\x2d\x0f\x11\x0c\xc6\x9b\x5b";

const SECOND_CERT: &[u8; 32] =
    b"\x33\x84\xef\xbd\x8c\xce\x33\x9e\x74\x15\x92\xc0\x57\xd9\x44\xd9\x66\x51\x6b\x05\x5d\x85\x48\xeb\x34\x9f\xc0\xee\x63\xa3\x2e\x95";

// Client 3, sequence number 7, and the operation or the result.
const REQUEST: &[u8] = b"\x03\0\0\0\0\0\0\0\x07\0\x07PUT a 1";

const REQUEST_TAG: &[u8; 32] =
    b"\x01\x71\xc8\x2e\xd3\x76\x1f\x68\x76\x46\x1f\xd6\x26\x18\x8f\xdf\x40\xef\x4e\x37\x33\x09\x8e\xac\xa2\x42\x27\xa9\x4f\xbd\xa6\x7e";

const REPLY: &[u8] = b"\x03\0\0\0\0\0\0\0\x07\0\0\0\0\0\0\0\x09\0\x02OK";

// The same behind the host, which is 2.
const REPLY_OF_HOST: &[u8] = b"\x02\x03\0\0\0\0\0\0\0\x07\0\0\0\0\0\0\0\x09\0\x02OK";

const REPLY_TAG: &[u8; 32] =
    b"\xaa\xe1\xa4\x64\x54\xdb\xb6\x85\xa1\x0b\x87\x9d\x95\x09\xeb\x63\x31\xca\xd9\x30\xc0\x55\x5b\xa1\x53\xbc\xea\x26\x2b\x29\x8f\x55";

// Of host 2 for view 5.
const WISH_TAG: &[u8; 32] =
    b"\x91\x2f\x5d\xb4\x7f\x59\xaa\x13\xf4\x2d\xb3\xc3\xc5\x1f\x79\xf5\xf9\x59\xa5\x6d\x0d\xdd\xcb\xc0\x6f\x8f\x7a\xda\xc3\xdc\x77\xc6";

const STOP_TAG: &[u8; 32] =
    b"\xd1\x73\x0a\x0e\x78\xe6\xaf\x0f\x6e\x60\x88\xc5\x65\x08\xe6\x46\xb2\xc1\xa7\xff\x83\x28\xf9\x85\xea\x23\x91\x32\x38\xa5\xfd\xe4";

// The first two test cases of RFC 4231.
#[test]
fn hmac_vectors(rt: HostRuntime) {
    assert!(rt;
        hmac(&[0x0b; 20], b"Hi There")
            == *b"\xb0\x34\x4c\x61\xd8\xdb\x38\x53\x5c\xa8\xaf\xce\xaf\x0b\xf1\x2b\x88\x1d\xc2\x00\xc9\x83\x3d\xa7\x26\xe9\x37\x6c\x2e\x32\xcf\xf7"
    );
    assert!(rt;
        hmac(b"Jefe", b"what do ya want for nothing?")
            == *b"\x5b\xdc\xc1\x46\xbf\x60\x75\x4e\x6a\x04\x24\x26\x08\x95\x75\xc7\x5a\x00\x3f\x08\x9d\x27\x39\x83\x9d\xec\x58\xb9\x64\xec\x38\x43"
    );
}

fn shape(rt: &impl Abort) -> Shape
    ensures hosts { max_faults result ≡ 1 }
    ensures clients { client_count result ≡ 4 }
{
    Shape::new(1, 4, 4).expect(rt, "1, 4 and 4 are a shape")
}

fn stamp(rt: &impl Abort, usig: &mut Usig, message: &[u8]) -> Ui {
    usig.create_ui(message).expect(rt, "counters are left")
}

fn ui_of_host_2(counter: u64, cert: &[u8; 32]) -> Ui {
    Ui {
        host: 2,
        counter,
        cert: *cert,
    }
}

/// The first stamp is taken for the first message alone, with its own counter and host.
fn assert_first_alone(rt: &impl Abort, usig: &Usig, first: &Ui) {
    let another_counter = Ui {
        counter: 2,
        ..*first
    };
    let another_host = Ui { host: 1, ..*first };
    assert!(rt; usig.verify_ui(b"first message", first));
    assert!(rt; !usig.verify_ui(b"second message", first));
    assert!(rt; !usig.verify_ui(b"first message", &another_counter));
    assert!(rt; !usig.verify_ui(b"first message", &another_host));
}

#[test]
fn counters_rise(rt: HostRuntime) {
    let mut usig = Usig::new(shape(&rt), 2, &SECRET);
    assert!(rt; usig.counter() == 0);
    let first = stamp(&rt, &mut usig, b"first message");
    let second = stamp(&rt, &mut usig, b"second message");
    assert!(rt; first == ui_of_host_2(1, FIRST_CERT));
    assert!(rt; second == ui_of_host_2(2, SECOND_CERT));
    assert!(rt; (usig.host(), usig.counter()) == (2, 2));
    assert_first_alone(&rt, &Usig::new(shape(&rt), 0, &SECRET), &first);
}

#[test]
fn counters_go_on(rt: HostRuntime) {
    let mut usig = Usig::resumed(shape(&rt), 2, &SECRET, 1);
    let second = stamp(&rt, &mut usig, b"second message");
    assert!(rt; second == ui_of_host_2(2, SECOND_CERT));
    let mut spent = Usig::resumed(shape(&rt), 2, &SECRET, u64::MAX);
    assert!(rt; spent.create_ui(b"one more") == Err(Spent));
}

#[test]
fn tags_of_clients(rt: HostRuntime) {
    let usig = Usig::new(shape(&rt), 2, &SECRET);
    let pen = Pen::new(&SECRET, 3);
    assert!(rt; pen.tag_request(REQUEST) == *REQUEST_TAG);
    assert!(rt; pen.verify_request(REQUEST, REQUEST_TAG));
    assert!(rt; !Pen::new(&SECRET, 2).verify_request(REQUEST, REQUEST_TAG));
    assert!(rt; usig.verify_request(3, REQUEST, REQUEST_TAG));
    assert!(rt; !usig.verify_request(2, REQUEST, REQUEST_TAG));
    assert!(rt; usig.tag_reply(3, REPLY) == *REPLY_TAG);
    assert!(rt; pen.verify_reply(REPLY_OF_HOST, REPLY_TAG));
    assert!(rt; !pen.verify_reply(REPLY, REPLY_TAG));
}

// What is right is remembered as it is asked first, and compared as it is asked again.
#[test]
fn what_is_remembered_is_answered_alike(rt: HostRuntime) {
    let shape = Shape::new(1, 4, 4).expect(&rt, "1, 4 and 4 are a shape");
    let mut usig = Usig::new(shape, 2, &SECRET).remembering(rt.alloc());
    let first = usig
        .create_ui(b"first message")
        .expect(&rt, "counters are left");
    assert!(rt; first.cert == *FIRST_CERT);
    for _ in 0..2 {
        assert!(rt; usig.verify_ui(b"first message", &first));
        assert!(rt; !usig.verify_ui(b"other message", &first));
        assert!(rt; usig.verify_request(3, REQUEST, REQUEST_TAG));
        assert!(rt; !usig.verify_request(2, REQUEST, REQUEST_TAG));
    }
}

#[test]
fn tags_of_wishes_and_stops(rt: HostRuntime) {
    let usig = Usig::new(shape(&rt), 2, &SECRET);
    assert!(rt; usig.tag_wish(5) == *WISH_TAG);
    let other = Usig::new(shape(&rt), 0, &SECRET);
    assert!(rt; other.verify_wish(2, 5, WISH_TAG));
    assert!(rt; !other.verify_wish(1, 5, WISH_TAG));
    assert!(rt; !other.verify_wish(2, 6, WISH_TAG));
    assert!(rt; Pen::new(&SECRET, 0).tag_stop() == *STOP_TAG);
    assert!(rt; other.verify_stop(STOP_TAG));
    assert!(rt; !other.verify_stop(WISH_TAG));
}
