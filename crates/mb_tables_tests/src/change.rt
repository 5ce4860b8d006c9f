//! What a table holds and what is due, step by step. What is expected was read off the protocol's rules.

ghost use Rattle.mb_msg.specs.Plans.{CanHash};

use crate::samples::{are_equal, three_hosts, ui};
use mb_base::{Counter, Digest, Host, Items, Pos, View};
use mb_change::{Change, ChangeDue, HeldPlan};
use mb_msg::{Body, Enter, Evidence, EvidenceMember, NewView, Phase, Plan, StableCert, ViewChange};
use mb_parts::{Floor, Part};
use std::alloc::Global;
use std::process::Abort;

/// How many hosts the system of all tests has. None has fewer.
const HOSTS: Host = 3;

/// The primary of view 1 among three hosts.
const HOST: Host = 1;

/// The SHA-256 digest of the letter P and 40 zero bytes, as an outside program gives it.
const EMPTY_PLAN: Digest = [
    0xde, 0x65, 0xd3, 0x6f, 0x9f, 0x32, 0xbd, 0x8b, 0x0e, 0x7e, 0x56, 0x6c, 0xae, 0xe0, 0x43, 0x9d,
    0xf5, 0xf4, 0x35, 0xbe, 0xb5, 0xca, 0xe2, 0xd9, 0x33, 0x1c, 0x81, 0x25, 0xeb, 0x23, 0x2d, 0xf0,
];

fn at(view: View, phase: Phase, last: Pos) -> Floor {
    Floor {
        counter: 1,
        view,
        phase,
        last,
        top: last,
        point: 0,
    }
}

fn view_change(host: Host, counter: Counter, view: View) -> ViewChange {
    ViewChange {
        view,
        body: Body::Bare([2; 32]),
        ui: ui(host, counter),
    }
}

fn new_view(plan: Digest) -> NewView {
    NewView {
        view: 1,
        base: 0,
        end: 0,
        plan,
        body: Body::Bare([5; 32]),
        ui: ui(HOST, 2),
    }
}

fn enter(host: Host, plan: Digest) -> Enter {
    Enter {
        view: 1,
        counter: 2,
        plan,
        ui: ui(host, 2),
    }
}

fn evidence(rt: &impl Abort, alloc: Global, plan: Digest) -> Evidence {
    let member = EvidenceMember {
        host: 2,
        counter: 2,
        cert: [7; 32],
    };
    let members = vec![in alloc; member].expect(rt, "memory");
    Evidence {
        view: 1,
        base: 0,
        end: 0,
        plan,
        body: [5; 32],
        counter: 2,
        cert: [7; 32],
        members: Items::from_vec(members),
    }
}

/// A plan of nothing at position 0.
fn plan(alloc: Global) -> Plan
    ensures { CanHash result }
{
    Plan {
        base: StableCert {
            pos: 0,
            state: [0; 32],
            members: Items::new(alloc),
        },
        batches: Items::new(alloc),
    }
}

// ---- the calls that ask for a host of the system, or for a body that fits

/// Stores a host's VIEW_CHANGE to view 1.
fn store(rt: &impl Abort, change: &mut Change, host: Host, counter: Counter) {
    let message = view_change(host, counter, 1);
    assert!(rt; message.ui.host < HOSTS);
    change.store(message).expect(rt, "memory");
}

/// Holds the NEW_VIEW of this plan, which came as the digest of its body.
fn hold_new_view(rt: &impl Abort, change: &mut Change, plan: Digest) {
    let message = new_view(plan);
    match message.body {
        Body::Bare(body) => change.hold_new_view(message, body),
        Body::Whole(_) => panic!(rt; "its body is bare"),
    }
}

// ---- answers, each looked at by itself

/// What is due where a host stands, which executed up to a position, and has this stable position.
fn assert_due(rt: &impl Abort, change: &Change, at: Floor, exec: Pos, low: Pos, due: ChangeDue) {
    assert!(rt; change.due(&at, exec, low, true) == due);
    assert!(rt; change.due(&at, exec, low, false) == ChangeDue::Nothing);
}

/// The VIEW_CHANGEs to view 1 that are chosen. None is the empty list here.
fn assert_chosen(rt: &impl Abort, alloc: Global, change: &Change, chosen: &[ViewChange]) {
    match change.chosen(alloc, 1).expect(rt, "memory") {
        Some(found) => assert!(rt; found.as_slice() == chosen),
        None => assert!(rt; chosen.is_empty()),
    }
}

/// The plan of nothing is held for view 1.
fn assert_empty_plan(rt: &impl Abort, alloc: Global, change: &Change) {
    let expected = plan(alloc);
    let (view, held) = change.plan().expect(rt, "a plan is held");
    assert!(rt; view == 1);
    assert!(rt; *held == expected);
    drop(expected);
    assert_is_empty_plan(rt, change.plan_at(1).expect(rt, "it is of view 1"));
    assert!(rt; change.plan_at(2).is_none());
}

fn assert_is_empty_plan(rt: &impl Abort, held: &HeldPlan) {
    assert!(rt; held.view() == 1 && held.plan().end() == 0 && held.batches().is_empty());
    assert!(rt; held.digest() == EMPTY_PLAN && held.is_described(0, 0, &EMPTY_PLAN));
}

/// The NEW_VIEW of this plan is held.
fn assert_new_view(rt: &impl Abort, change: &Change, plan: Digest) {
    let expected = new_view(plan);
    let is_held = change.new_view() == Some(&expected);
    drop(expected);
    assert!(rt; is_held);
}

/// The evidence that is held is of view 1.
fn assert_holds_evidence(rt: &impl Abort, change: &Change) {
    assert!(rt; change.evidence().is_some());
    assert!(rt; change.evidence() == change.evidence_in(1));
    assert!(rt; change.evidence_in(2).is_none());
}

/// The evidence for view 1.
fn assert_evidence(rt: &impl Abort, alloc: Global, change: &Change, evidence: Option<Evidence>) {
    let found = change.evidence_for(alloc, 1).expect(rt, "memory");
    assert!(rt; are_equal(found, evidence));
}

#[test]
fn wishes_of_two_hosts_change_the_view(rt: HostRuntime) {
    let mut change = Change::make(rt.alloc(), three_hosts(&rt), HOST).expect(&rt, "memory");
    let open = at(0, Phase::Open, 0);
    change.wish(2, 5);
    assert_due(&rt, &change, open, 0, 0, ChangeDue::Nothing);
    change.wish(2, 3);
    assert!(rt; change.wish_of(2) == 5);
    change.wish(HOST, 1);
    let due = ChangeDue::ViewChange { view: 1 };
    assert_due(&rt, &change, open, 0, 0, due);
    drop(change);
}

#[test]
fn the_first_two_are_chosen_by_host(rt: HostRuntime) {
    let alloc = rt.alloc();
    let mut change = Change::make(alloc, three_hosts(&rt), HOST).expect(&rt, "memory");
    store(&rt, &mut change, 2, 1);
    assert_chosen(&rt, alloc, &change, &[]);
    store(&rt, &mut change, HOST, 1);
    store(&rt, &mut change, 0, 1);
    store(&rt, &mut change, 2, 2);
    let chosen = [view_change(0, 1, 1), view_change(HOST, 1, 1)];
    assert_chosen(&rt, alloc, &change, &chosen);
    drop(chosen);
    let changing = at(1, Phase::Changing, 0);
    assert_due(&rt, &change, changing, 0, 0, ChangeDue::NewView);
    drop(change);
}

#[test]
fn a_primary_opens_its_view(rt: HostRuntime) {
    let alloc = rt.alloc();
    let mut change = Change::make(alloc, three_hosts(&rt), HOST).expect(&rt, "memory");
    change.hold_plan(1, plan(alloc));
    assert_empty_plan(&rt, alloc, &change);
    hold_new_view(&rt, &mut change, EMPTY_PLAN);
    assert_new_view(&rt, &change, EMPTY_PLAN);
    assert_evidence(&rt, alloc, &change, None);
    let entered = at(1, Phase::Entered, 0);
    assert_due(&rt, &change, entered, 0, 0, ChangeDue::Nothing);
    let answer = enter(2, EMPTY_PLAN);
    assert!(rt; answer.ui.host < HOSTS);
    change.enter(answer);
    let of_two = evidence(&rt, alloc, EMPTY_PLAN);
    assert_evidence(&rt, alloc, &change, Some(of_two));
    assert_due(&rt, &change, entered, 0, 0, ChangeDue::Open);
    drop(change);
}

#[test]
fn what_is_stable_beyond_the_view_is_joined(rt: HostRuntime) {
    let alloc = rt.alloc();
    let mut change = Change::make(alloc, three_hosts(&rt), HOST).expect(&rt, "memory");
    change.opened(2, 1, 2, [9; 32]);
    assert!(rt; change.opened_by(2) == (1, 2, [9; 32]));
    assert!(rt; change.opened_by(0) == (0, 0, [0; 32]));
    change.hold_evidence(evidence(&rt, alloc, [9; 32]));
    assert_holds_evidence(&rt, &change);
    let of_two = evidence(&rt, alloc, [9; 32]);
    assert_evidence(&rt, alloc, &change, Some(of_two));
    let open = at(1, Phase::Open, 0);
    let due = ChangeDue::Join { base: 4 };
    assert_due(&rt, &change, open, 4, 4, due);
    assert_due(&rt, &change, open, 0, 4, ChangeDue::Nothing);
    let open = at(1, Phase::Open, 4);
    assert_due(&rt, &change, open, 4, 4, ChangeDue::Nothing);
    drop(change);
}

#[test]
fn a_backup_enters(rt: HostRuntime) {
    let mut change = Change::make(rt.alloc(), three_hosts(&rt), 2).expect(&rt, "memory");
    hold_new_view(&rt, &mut change, [9; 32]);
    let due = ChangeDue::ViewChange { view: 1 };
    assert_due(&rt, &change, at(0, Phase::Open, 0), 0, 0, due);
    let changing = at(1, Phase::Changing, 0);
    assert_due(&rt, &change, changing, 0, 0, ChangeDue::Enter);
    drop(change);
}
