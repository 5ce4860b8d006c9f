//! Draws beside those of a program that someone else wrote.

use mb_make::Maker;
use mb_sched::parse_schedule;

/// What another program drew of the seed 161 in a soak.
const SCHEDULE: &str = "\
minbft schedule 2\n\
f 1\n\
k 16\n\
clients 4\n\
secret 0707070707070707070707070707070707070707070707070707070707070707\n\
faulty h2\n\
ask c3 01011700020001\n\
give 1 h1\n\
ask c3 01019700020003\n\
ask c0 01014800020004\n\
give 2 h0\n\
give 2 h1\n\
ask c0 0101a000020007\n\
give 3 h0\n\
give 3 h1\n\
ask c1 0101bd0002000a\n\
patience h1\n\
nudge h1\n\
give 4 h0\n\
give 4 h1\n\
give 5 h1\n\
give 6 h1\n\
give 7 h1\n\
give 8 h1\n\
give 5 h0\n\
give 6 h0\n\
give 9 h1\n\
give 10 h1\n\
stamp h2 prepare 0 5 1\n\
give 11 h1\n\
ask c1 01010100020019\n\
ask c0 0101040002001a\n\
give 7 h0\n\
give 8 h0\n\
give 15 h1\n\
ask c1 0101f50002001e\n\
";

/// How many messages there were before each of these events.
const POOLS: [u32; 30] = [
    0, 1, 1, 2, 3, 4, 4, 5, 6, 6, 7, 8, 10, 10, 12, 12, 14, 14, 14, 15, 15, 15, 15, 16, 16, 17, 18,
    19, 19, 21,
];

#[test]
fn draws_are_those_of_another_program(rt: HostRuntime) {
    let schedule = parse_schedule(rt.alloc(), SCHEDULE.as_bytes()).expect(&rt, "a schedule");
    assert!(rt; schedule.events.len() == POOLS.len());
    let mut maker = Maker::new(161);
    for (event, pool) in schedule.events.as_slice().iter().zip(POOLS) {
        let pool = u64::from(pool.max(1));
        let drawn = maker.draw(rt.alloc(), pool).expect(&rt, "memory");
        let is_same = drawn == *event;
        drop(drawn);
        assert!(rt; is_same);
    }
}
