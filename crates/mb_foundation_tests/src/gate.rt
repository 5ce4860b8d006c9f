//! The rules as tables. What is expected was read off the protocol's rules.

ghost use Rattle.std.specs.Prelude.{◌≡◌, IsTrue};
ghost use Rattle.mb_gate.specs.Marks.{is_stamped_kind};

use mb_base::{Counter, Host, Pos, Shape, View};
use mb_gate::{Floor, Gate, Mark, Offer, Phase, gates_keep_lists_in_order};
use mb_parts::Phase::{Changing, Entered, Open};
use std::process::Abort;

/// View, phase, last, top and point.
type Place = (View, Phase, Pos, Pos, Pos);

/// The sender and where it stands; the view, position and end of its message, and whether the certificates in it are valid; where the sender
/// stands then, or None where the message may not stand there.
type Row = (Host, Place, (View, Pos, Pos, bool), Option<Place>);

const FIRST_VIEW: Place = (0, Open, 3, 3, 0);

// View 4 is led by host 1.

const CHANGING: Place = (4, Changing, 0, 9, 4);

const ENTERED: Place = (4, Entered, 0, 9, 4);

const OPENED: Place = (4, Open, 7, 9, 4);

const AT_TOP: Place = (4, Open, 9, 9, 4);

/// The counter of the floors that gates go on from.
const FLOOR: Counter = 9;

fn floor_at(counter: Counter, place: Place) -> Floor {
    let (view, phase, last, top, point) = place;
    Floor {
        counter,
        view,
        phase,
        last,
        top,
        point,
    }
}

/// Three hosts, of which host v mod 3 leads view v, and a checkpoint at each fourth position.
fn three_hosts(rt: &impl Abort) -> Shape {
    Shape::new(1, 4, 1).expect(rt, "1, 4 and 1 are a shape")
}

fn mark(kind: u8, view: View, pos: Pos, end: Pos, counter: Counter) -> Mark
    ensures { result.kind ≡ kind }
{
    Mark {
        kind,
        view,
        pos,
        end,
        counter,
    }
}

fn assert_rule(rt: &impl Abort, kind: u8, rule: u8, rows: &[Row])
    requires { IsTrue (is_stamped_kind kind) }
{
    let shape = three_hosts(rt);
    for row in rows {
        assert_row(rt, shape, kind, rule, row);
    }
}

/// What the gate answers as it judges the message and then as it takes it, each with where it stands behind that.
fn answers(gate: &mut Gate, mark: &Mark, inner: bool) -> [(Offer, Floor); 2]
    requires { IsTrue (is_stamped_kind mark.now.kind) }
{
    let judged = (gate.judge(mark, inner), gate.at());
    let offered = (gate.offer(mark, inner), gate.at());
    [judged, offered]
}

/// What a gate that stands at the floor is to answer. To judge leaves it there.
fn expected(rule: u8, floor: Floor, then: Option<Place>) -> [(Offer, Floor); 2] {
    match then {
        Some(then) => [
            (Offer::Next, floor),
            (Offer::Next, floor_at(FLOOR + 1, then)),
        ],
        None => [(Offer::Illegal { rule }, floor); 2],
    }
}

fn assert_row(rt: &impl Abort, shape: Shape, kind: u8, rule: u8, row: &Row)
    requires { IsTrue (is_stamped_kind kind) }
{
    let &(sender, place, (view, pos, end, inner), then) = row;
    assert!(rt; sender < shape.n());
    let floor = floor_at(FLOOR, place);
    let mut gate = Gate::from(shape, sender, floor);
    let mark = mark(kind, view, pos, end, FLOOR + 1);
    let answers = answers(&mut gate, &mark, inner);
    assert!(rt;
        answers == expected(rule, floor, then),
        "by host {sender}, rule {rule}"
    );
}

const VIEW_CHANGES: [Row; 4] = [
    (2, OPENED, (5, 0, 0, false), Some((5, Changing, 0, 9, 4))),
    (1, CHANGING, (6, 0, 0, true), Some((6, Changing, 0, 9, 4))),
    (2, OPENED, (4, 0, 0, true), None),
    (2, CHANGING, (3, 0, 0, true), None),
];

const NEW_VIEWS: [Row; 5] = [
    (1, CHANGING, (4, 0, 0, false), Some(ENTERED)),
    (2, CHANGING, (4, 0, 0, true), None),
    (2, CHANGING, (5, 0, 0, true), None),
    (1, ENTERED, (4, 0, 0, true), None),
    (1, OPENED, (4, 0, 0, true), None),
];

const ENTERS: [Row; 5] = [
    (2, CHANGING, (4, 0, 0, false), Some(ENTERED)),
    (1, CHANGING, (4, 0, 0, true), None),
    (2, CHANGING, (3, 0, 0, true), None),
    (2, ENTERED, (4, 0, 0, true), None),
    (2, OPENED, (4, 0, 0, true), None),
];

#[test]
fn a_view_is_changed_by_rules_1_to_3(rt: HostRuntime) {
    assert_rule(&rt, 7, 1, &VIEW_CHANGES);
    assert_rule(&rt, 8, 2, &NEW_VIEWS);
    assert_rule(&rt, 9, 3, &ENTERS);
}

const OPENS: [Row; 6] = [
    (2, CHANGING, (4, 0, 11, true), Some((4, Open, 11, 11, 4))),
    (1, ENTERED, (4, 0, 6, true), Some((4, Open, 6, 9, 4))),
    (1, CHANGING, (4, 0, 6, true), None),
    (2, OPENED, (4, 0, 8, true), None),
    (2, ENTERED, (3, 0, 6, true), None),
    (2, ENTERED, (4, 0, 6, false), None),
];

const JOINS: [Row; 9] = [
    (0, FIRST_VIEW, (0, 4, 0, true), Some((0, Open, 4, 4, 0))),
    (2, CHANGING, (4, 12, 6, true), Some((4, Open, 12, 12, 4))),
    (1, ENTERED, (4, 8, 8, true), Some((4, Open, 8, 9, 4))),
    (1, OPENED, (4, 7, 6, true), Some(OPENED)),
    (1, CHANGING, (4, 8, 6, true), None),
    (2, OPENED, (4, 6, 6, true), None),
    (2, ENTERED, (4, 8, 9, true), None),
    (2, ENTERED, (5, 8, 6, true), None),
    (2, ENTERED, (4, 8, 6, false), None),
];

#[test]
fn a_view_is_opened_by_rules_4_and_5(rt: HostRuntime) {
    assert_rule(&rt, 10, 4, &OPENS);
    assert_rule(&rt, 11, 5, &JOINS);
}

const PREPARES: [Row; 8] = [
    (1, OPENED, (4, 8, 0, false), Some((4, Open, 8, 9, 4))),
    (1, AT_TOP, (4, 10, 0, true), Some((4, Open, 10, 10, 4))),
    (2, OPENED, (4, 8, 0, true), None),
    (1, ENTERED, (4, 1, 0, true), None),
    (1, OPENED, (4, 9, 0, true), None),
    (1, OPENED, (4, 7, 0, true), None),
    (1, OPENED, (7, 8, 0, true), None),
    (1, (4, Open, Pos::MAX, 9, 4), (4, 0, 0, true), None),
];

const COMMITS: [Row; 6] = [
    (2, OPENED, (4, 8, 0, true), Some((4, Open, 8, 9, 4))),
    (2, OPENED, (4, 8, 0, false), None),
    (1, OPENED, (4, 8, 0, true), None),
    (2, CHANGING, (4, 1, 0, true), None),
    (2, OPENED, (4, 9, 0, true), None),
    (2, OPENED, (5, 8, 0, true), None),
];

const CHECKPOINTS: [Row; 5] = [
    (2, OPENED, (0, 8, 0, false), Some((4, Open, 7, 9, 8))),
    (1, CHANGING, (0, 8, 0, true), Some((4, Changing, 0, 9, 8))),
    (2, OPENED, (0, 4, 0, true), None),
    (2, OPENED, (0, 0, 0, true), None),
    (2, OPENED, (0, 6, 0, true), None),
];

#[test]
fn positions_go_on_by_rules_6_to_8(rt: HostRuntime) {
    assert_rule(&rt, 2, 6, &PREPARES);
    assert_rule(&rt, 3, 7, &COMMITS);
    assert_rule(&rt, 5, 8, &CHECKPOINTS);
}

/// The PREPARE of view 0 at a counter and a position.
fn prepare(counter: Counter, pos: Pos) -> Mark
    ensures { IsTrue (is_stamped_kind result.kind) }
{
    mark(2, 0, pos, 0, counter)
}

fn checkpoint(counter: Counter, pos: Pos) -> Mark
    ensures { IsTrue (is_stamped_kind result.kind) }
{
    mark(5, 0, pos, 0, counter)
}

fn assert_answers(rt: &impl Abort, gate: &mut Gate, rows: &[(Counter, Pos, Offer)]) {
    for &(counter, pos, answer) in rows {
        assert_answer(rt, gate, &prepare(counter, pos), answer);
    }
}

/// The gate judges the mark as it then answers it.
fn assert_answer(rt: &impl Abort, gate: &mut Gate, mark: &Mark, answer: Offer)
    requires { IsTrue (is_stamped_kind mark.now.kind) }
{
    let answers = [gate.judge(mark, true), gate.offer(mark, true)];
    assert!(rt; answers == [answer; 2], "counter {}", mark.counter);
}

const ANSWERS: [(Counter, Pos, Offer); 10] = [
    (0, 1, Offer::Stale { next: 1 }),
    (2, 1, Offer::Ahead { next: 1 }),
    (1, 1, Offer::Next),
    (1, 2, Offer::Stale { next: 2 }),
    (3, 2, Offer::Ahead { next: 2 }),
    (2, 2, Offer::Next),
    (3, 4, Offer::Illegal { rule: 6 }),
    (3, 3, Offer::Convicted { counter: 3 }),
    (4, 4, Offer::Convicted { counter: 3 }),
    (2, 2, Offer::Stale { next: 3 }),
];

#[test]
fn counters_have_no_gap_and_a_fault_closes_the_gate(rt: HostRuntime) {
    let mut gate = Gate::new(three_hosts(&rt), 0);
    assert_answers(&rt, &mut gate, &ANSWERS);
    assert_closed(&rt, &mut gate, &floor_at(2, (0, Open, 2, 2, 0)));
}

/// The gate stands at the floor, and jumps no more.
fn assert_closed(rt: &impl Abort, gate: &mut Gate, stands: &Floor) {
    assert!(rt; gate.at() == *stands);
    assert!(rt; !gate.jump(&floor_at(FLOOR, (0, Open, 8, 8, 8))));
    assert!(rt; (gate.at(), gate.floor(Pos::MAX)) == (*stands, None));
}

/// A gate of host 0 that was offered CHECKPOINTs of 4, 8 and 12, and then a PREPARE.
fn gate_behind_checkpoints(rt: &impl Abort) -> Gate {
    let mut gate = Gate::new(three_hosts(rt), 0);
    assert!(rt; gate.floor(Pos::MAX).is_none());
    for (counter, pos) in [(1, 4), (2, 8), (3, 12)] {
        assert!(rt; gate.offer(&checkpoint(counter, pos), false) == Offer::Next);
    }
    assert_answer(rt, &mut gate, &prepare(4, 1), Offer::Next);
    gate
}

fn assert_last_two_floors(rt: &impl Abort, gate: &Gate) {
    let at_8 = Some(floor_at(2, (0, Open, 0, 0, 8)));
    let at_12 = Some(floor_at(3, (0, Open, 0, 0, 12)));
    let floors = [gate.floor(8), gate.floor(9), gate.floor(12), gate.floor(13)];
    assert!(rt; floors == [None, at_8, at_8, at_12]);
}

/// The gate doesn't jump to a floor whose counter it has, but to the next.
fn assert_jumps(rt: &impl Abort, gate: &mut Gate, next: &Floor) {
    assert!(rt; !gate.jump(&floor_at(4, (1, Open, 9, 9, 8))));
    assert!(rt; gate.at() == floor_at(4, (0, Open, 1, 1, 12)));
    assert!(rt; gate.jump(next));
    assert!(rt; gate.at() == *next);
}

/// The gate goes on from the floor that it jumped to with the CHECKPOINT of 12.
fn assert_goes_on(rt: &impl Abort, gate: &mut Gate, next: &Floor) {
    assert!(rt; (gate.floor(9), gate.floor(8)) == (Some(*next), None));
    let ahead = gate.judge(&checkpoint(7, 12), false);
    assert!(rt; ahead == Offer::Ahead { next: 6 });
    assert!(rt; gate.offer(&checkpoint(6, 12), false) == Offer::Next);
    assert!(rt; gate.floor(12) == Some(*next));
}

#[test]
fn floors_are_those_of_the_last_two_checkpoints(rt: HostRuntime) {
    let mut gate = gate_behind_checkpoints(&rt);
    assert_last_two_floors(&rt, &gate);
    let next = floor_at(5, (1, Entered, 0, 9, 8));
    assert_jumps(&rt, &mut gate, &next);
    assert_goes_on(&rt, &mut gate, &next);
}

#[test]
fn what_is_followed_is_taken_until_the_gate_is_closed(rt: HostRuntime) {
    let mut gate = Gate::new(three_hosts(&rt), 0);
    gate.follow(&prepare(1, 1));
    gate.follow(&checkpoint(2, 4));
    let stands = floor_at(2, (0, Open, 1, 1, 4));
    assert!(rt; (gate.at(), gate.floor(5)) == (stands, Some(stands)));
    gate.close(4);
    assert_answer(&rt, &mut gate, &prepare(3, 2), Offer::Next);
    gate.close(3);
    assert_answer(
        &rt,
        &mut gate,
        &prepare(3, 2),
        Offer::Convicted { counter: 3 },
    );
}

const LAST_ANSWERS: [(Counter, Pos, Offer); 4] = [
    (Counter::MAX - 1, 5, Offer::Stale { next: Counter::MAX }),
    (Counter::MAX, 5, Offer::Next),
    (Counter::MAX, 6, Offer::Stale { next: Counter::MAX }),
    (1, 6, Offer::Stale { next: Counter::MAX }),
];

#[test]
fn counters_end(rt: HostRuntime) {
    let start = floor_at(Counter::MAX - 1, (0, Open, 4, 4, 4));
    let last = floor_at(Counter::MAX, (0, Open, 5, 5, 4));
    let mut gate = Gate::from(three_hosts(&rt), 0, start);
    assert_answers(&rt, &mut gate, &LAST_ANSWERS);
    assert!(rt; gate.at() == last);
    assert!(rt; !gate.jump(&last));
}

#[test]
fn the_law_is_called() {
    gates_keep_lists_in_order();
}
