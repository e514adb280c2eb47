//! Statuses that no command ends with, or only for want of memory.
use splinter_status::{Part, Status, line, number_of};
use std::alloc::Global;
use sum_bounds::AtRow;

/// The parts that are built for all that they take.
const PARTS: [(Part, &str); 4] = [
    (Part::Table, "splinter: not built: table\n"),
    (Part::Shape, "splinter: not built: shape\n"),
    (Part::Query, "splinter: not built: query\n"),
    (Part::Parameter, "splinter: not built: parameter\n"),
];

/// Whether the status has this number and this line.
fn says(alloc: Global, status: &Status, number: u8, text: &str) -> bool {
    match line(alloc, status) {
        Ok(found) => number_of(status) == number && found.as_str() == text,
        Err(_) => false,
    }
}

/// The first text that isn't its part's.
fn first_other(alloc: Global) -> Option<&'static str> {
    for (part, text) in PARTS {
        if !says(alloc, &Status::NotBuilt(part), 30, text) {
            return Some(text);
        }
    }
    None
}

#[test]
fn says_the_parts(rt: HostRuntime) {
    assert_eq!(rt; first_other(rt.alloc()), None);
}

/// Whether a status that says nothing by itself has no line.
fn is_silent(alloc: Global, status: &Status, number: u8) -> bool {
    says(alloc, status, number, "")
}

#[test]
fn says_nothing(rt: HostRuntime) {
    let at = AtRow {
        row: 1,
        sum: 1 << 64,
    };
    let found = [
        is_silent(rt.alloc(), &Status::Done, 0),
        is_silent(rt.alloc(), &Status::SumBound(3, at), 7),
        is_silent(rt.alloc(), &Status::OutputFault, 13),
        is_silent(rt.alloc(), &Status::OutOfMemory, 20),
    ];
    assert_eq!(rt; found, [true; 4]);
}
