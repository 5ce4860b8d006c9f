//! What several tests begin with.

use mb_base::{Counter, Host, Shape, Ui};
use mb_parts::{Floor, Phase};
use std::process::Abort;

/// Where a host stood behind position 4, the last of view 0 that it voted for, with its CHECKPOINT of it.
pub const FLOOR_AT_4: Floor = Floor {
    counter: 5,
    view: 0,
    phase: Phase::Open,
    last: 4,
    top: 4,
    point: 4,
};

/// Three hosts, of which two decide, a checkpoint at each fourth position, and one client.
pub fn three_hosts(rt: &impl Abort) -> Shape {
    Shape::new(1, 4, 1).expect(rt, "1, 4 and 1 are a shape")
}

/// That host's identifier with that counter, whose certificate nobody looks at.
pub fn ui(host: Host, counter: Counter) -> Ui {
    Ui {
        host,
        counter,
        cert: [7; 32],
    }
}

/// Whether two values are equal, both of which end here.
pub fn are_equal<T: PartialEq + Drop>(left: T, right: T) -> bool {
    left == right
}
