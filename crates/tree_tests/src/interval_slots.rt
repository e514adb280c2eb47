//! Intervals that overlap become one slot, and others stay apart, in rising order.
use interval_keys::{Interval, normalise_intervals};

/// The interval from `lo` to `hi`, or none where no number lies there.
fn span(lo: u128, hi: u128) -> Option<Interval> {
    if lo <= hi {
        Some(Interval { lo, hi })
    } else {
        None
    }
}

/// Whether the slots of three branches are these.
fn has_slots(branches: [Option<Interval>; 3], slots: [Option<Interval>; 3]) -> bool {
    normalise_intervals(&branches).as_slice() == slots.as_slice()
}

#[test]
fn intervals_that_overlap_become_one(rt: HostRuntime) {
    let found = [
        has_slots(
            [span(0x12, 0x19), span(0x15, 0x1c), None],
            [span(0x12, 0x1c), None, None],
        ),
        // the code of SFO twice
        has_slots(
            [span(5_457_487, 5_457_487), None, span(5_457_487, 5_457_487)],
            [span(5_457_487, 5_457_487), None, None],
        ),
        has_slots(
            [span(9, 12), span(0, 4), span(3, 9)],
            [span(0, 12), None, None],
        ),
        // all numbers of four bits
        has_slots([span(0, 15), span(3, 9), None], [span(0, 15), None, None]),
    ];
    assert_eq!(rt; found, [true; 4]);
}

#[test]
fn intervals_that_are_adjacent_stay_two(rt: HostRuntime) {
    let found = [
        has_slots(
            [span(0x10, 0x1f), span(0x20, 0x23), None],
            [span(0x10, 0x1f), span(0x20, 0x23), None],
        ),
        has_slots(
            [None, span(7, 7), span(2, 3)],
            [span(2, 3), span(7, 7), None],
        ),
    ];
    assert_eq!(rt; found, [true; 2]);
}
