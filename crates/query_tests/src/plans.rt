//! Plans, lengths of key frames and slots by hand.
ghost use Rattle.query_reader.specs.Accepted.{IsCheckedFor};

use crate::fixtures::{FLIGHTS, checked_of, params_of, schema_of};
use interval_keys::Interval;
use private_plan::{KeySpec, Plan, PlanKind, frame_length, plan, slots};
use query_reader::{Checked, ParamFault, QueryFault};
use spl_values::{Schema, Shape, ShapeFault, read_shape};
use spl_words::TreeKind;
use std::alloc::Global;

const DIGITS: &[u8] = b"table t\nrows 1\na UINT(4)\nb UINT(4)\n";

const TWICE: &str =
    "SELECT COUNT(*) FROM t WHERE (a = ? AND b BETWEEN ? AND ? OR a = ? AND b BETWEEN ? AND ?)";

const PEOPLE: &[u8] = b"table p\nrows 1\nx UINT(32)\n";

const SUMS: &str =
    "SELECT COUNT(*), SUM(price), AVG(price) FROM flights WHERE origin = ? AND dest = ? AND price BETWEEN ? AND ?";

const EITHER: &str = "SELECT COUNT(*) FROM flights WHERE (origin = ? OR origin = ?)";

const GREATEST: &str = "SELECT MAX(price) FROM flights WHERE price BETWEEN ? AND ?";

const WIDE: &str = "SELECT MAX(x) FROM p WHERE x BETWEEN ? AND ?";

fn plan_of(alloc: Global, shape: &Shape, query: &str) -> Result<Plan, QueryFault> {
    let checked = checked_of(alloc, &shape.schema, query)?;
    Ok(plan(alloc, &checked, shape)?)
}

/// A query, its plan's kind, and for each round how many trees there are, and how many words come back.
#[derive(Clone, Copy)]
struct PlanCase {
    query: &'static str,
    kind: PlanKind,
    first: (usize, u32),
    second: (usize, u32),
}

fn is_plan(plan: &Plan, case: &PlanCase) -> bool {
    let first = (plan.first.as_slice().len(), plan.first_words);
    let second = (plan.second.as_slice().len(), plan.second_words);
    plan.kind == case.kind && first == case.first && second == case.second
}

/// The query of the first case whose plan is another.
fn first_other_plan(alloc: Global, shape: &Shape, cases: &[PlanCase]) -> Option<&'static str> {
    for case in cases {
        let holds = match plan_of(alloc, shape, case.query) {
            Ok(plan) => is_plan(&plan, case),
            Err(_) => false,
        };
        if !holds {
            return Some(case.query);
        }
    }
    None
}

const FLIGHT_PLANS: &[PlanCase] = &[
    PlanCase {
        query: SUMS,
        kind: PlanKind::Sum,
        first: (2, 3),
        second: (0, 0),
    },
    PlanCase {
        query: EITHER,
        kind: PlanKind::Sum,
        first: (2, 1),
        second: (0, 0),
    },
    PlanCase {
        query: GREATEST,
        kind: PlanKind::Aligned,
        first: (32, 64),
        second: (0, 0),
    },
];

/// The same where the shape is a text.
fn first_other_plan_over(alloc: Global, text: &[u8], cases: &[PlanCase]) -> Option<&'static str> {
    match read_shape(alloc, text) {
        Ok(shape) => first_other_plan(alloc, &shape, cases),
        Err(_) => Some("no shape"),
    }
}

#[test]
fn plans_over_flights(rt: HostRuntime) {
    assert_eq!(rt;
        first_other_plan_over(rt.alloc(), FLIGHTS, FLIGHT_PLANS),
        None
    );
}

const PEOPLE_PLANS: &[PlanCase] = &[
    PlanCase {
        query: WIDE,
        kind: PlanKind::Position,
        first: (2, 2),
        second: (2, 4),
    },
    PlanCase {
        query: "SELECT MIN(x) FROM p WHERE x = ?",
        kind: PlanKind::Point,
        first: (1, 2),
        second: (0, 0),
    },
];

#[test]
fn plans_over_a_wide_column(rt: HostRuntime) {
    assert_eq!(rt;
        first_other_plan_over(rt.alloc(), PEOPLE, PEOPLE_PLANS),
        None
    );
}

/// Whether the trees are pairs of point trees, the first of so many bits, each pair a bit less deep, the last of one.
fn are_levels(trees: &[KeySpec], bits: u32) -> bool {
    let mut depth = bits;
    let mut paired = true;
    for pair in trees.chunks(2) {
        let tree = KeySpec {
            kind: TreeKind::Point,
            depth,
        };
        paired = paired && pair == [tree, tree].as_slice();
        depth = depth.saturating_sub(1);
    }
    paired && depth == 0
}

/// Whether the trees of a query's plan are those.
fn has_levels(alloc: Global, shape: &Shape, query: &str, bits: u32) -> bool {
    match plan_of(alloc, shape, query) {
        Ok(plan) => are_levels(plan.first.as_slice(), bits),
        Err(_) => false,
    }
}

/// A range over a narrow column has two trees for each level.
#[test]
fn trees_of_levels(rt: HostRuntime) -> Result<(), ShapeFault> {
    let shape = read_shape(rt.alloc(), FLIGHTS)?;
    assert!(rt; has_levels(rt.alloc(), &shape, GREATEST, 16));
    Ok(())
}

/// The length of a round's key frame, where the plan is one that has a frame.
fn length_of(plan: &Plan, round: u32, query: &str, shape: &[u8]) -> Option<u64> {
    let trees = if round == 2 {
        plan.second.as_slice()
    } else {
        plan.first.as_slice()
    };
    let low = trees.iter().all(|tree| tree.depth <= 128);
    if trees.len() > 512 || !low || query.len() > 65_535 || shape.len() > 65_535 {
        return None;
    }
    Some(frame_length(plan, round, query.len() as u64, shape.len() as u64))
}

/// The same of a query over a shape that a text describes.
fn query_length(alloc: Global, shape: &Shape, text: &[u8], query: &str, round: u32) -> Option<u64> {
    match plan_of(alloc, shape, query) {
        Ok(plan) => length_of(&plan, round, query, text),
        Err(_) => None,
    }
}

/// The length of a round's key frame of a query over the shape of a text.
fn text_length(alloc: Global, text: &[u8], query: &str, round: u32) -> Option<u64> {
    match read_shape(alloc, text) {
        Ok(shape) => query_length(alloc, &shape, text, query, round),
        Err(_) => None,
    }
}

#[test]
fn lengths_of_frames(rt: HostRuntime) {
    let found = [
        text_length(rt.alloc(), FLIGHTS, SUMS, 1),
        text_length(rt.alloc(), FLIGHTS, GREATEST, 1),
        text_length(rt.alloc(), PEOPLE, WIDE, 1),
        text_length(rt.alloc(), PEOPLE, WIDE, 2),
    ];
    assert_eq!(rt; found, [Some(4523), Some(5653), Some(2295), Some(217)]);
}

/// The lowest and the greatest number of a slot.
type Ends = Option<(u128, u128)>;

/// A query, its parameters, and the ends of its slots.
#[derive(Clone, Copy)]
struct SlotCase {
    query: &'static str,
    params: &'static str,
    ends: &'static [Ends],
}

fn ends_of(slot: &Option<Interval>) -> Ends {
    slot.map(|Interval { lo, hi }| (lo, hi))
}

/// Whether the slots have these ends, one after the other.
fn have_ends(slots: &[Option<Interval>], ends: &[Ends]) -> bool {
    let mut same = slots.len() == ends.len();
    for (slot, ends) in slots.iter().zip(ends) {
        same = same && ends_of(slot) == *ends;
    }
    same
}

/// Whether an accepted query has the case's slots.
fn has_slots(
    alloc: Global,
    schema: &Schema,
    checked: &Checked,
    case: &SlotCase,
) -> Result<bool, ParamFault>
    requires { IsCheckedFor checked.now schema.now }
{
    let params = params_of(alloc, checked, schema, case.params)?;
    Ok(have_ends(slots(checked, schema, &params).as_slice(), case.ends))
}

/// The parameters of the first case whose slots are others.
fn first_other_slots(alloc: Global, schema: &Schema, cases: &[SlotCase]) -> Option<&'static str> {
    for case in cases {
        let holds = match checked_of(alloc, schema, case.query) {
            Ok(checked) => matches!(has_slots(alloc, schema, &checked, case), Ok(true)),
            Err(_) => false,
        };
        if !holds {
            return Some(case.params);
        }
    }
    None
}

/// The codes of two texts of a column.
const SFO: u128 = 0x53464f;

const LAX: u128 = 0x4c4158;

const FLIGHT_SLOTS: &[SlotCase] = &[
    SlotCase {
        query: SUMS,
        params: "SFO JFK 300 500",
        ends: &[Some((0x5346_4f4a_464b_012c, 0x5346_4f4a_464b_01f4))],
    },
    SlotCase {
        query: SUMS,
        params: "SFO JFK 500 300",
        ends: &[None],
    },
    SlotCase {
        query: EITHER,
        params: "SFO SFO",
        ends: &[Some((SFO, SFO)), None],
    },
    SlotCase {
        query: EITHER,
        params: "SFO LAX",
        ends: &[Some((LAX, LAX)), Some((SFO, SFO))],
    },
];

/// The same where the schema is that of a shape's text.
fn first_other_slots_over(alloc: Global, text: &[u8], cases: &[SlotCase]) -> Option<&'static str> {
    match schema_of(alloc, text) {
        Ok(schema) => first_other_slots(alloc, &schema, cases),
        Err(_) => Some("no schema"),
    }
}

#[test]
fn slots_of_branches(rt: HostRuntime) {
    assert_eq!(rt;
        first_other_slots_over(rt.alloc(), FLIGHTS, FLIGHT_SLOTS),
        None
    );
}

/// What overlaps becomes one, and what lies in two values of the first column stays two, even where the ends are
/// adjacent.
const DIGIT_SLOTS: &[SlotCase] = &[
    SlotCase {
        query: TWICE,
        params: "1 2 9 1 5 12",
        ends: &[Some((0x12, 0x1c)), None],
    },
    SlotCase {
        query: TWICE,
        params: "1 0 15 2 0 3",
        ends: &[Some((0x10, 0x1f)), Some((0x20, 0x23))],
    },
];

#[test]
fn slots_over_two_columns(rt: HostRuntime) {
    assert_eq!(rt;
        first_other_slots_over(rt.alloc(), DIGITS, DIGIT_SLOTS),
        None
    );
}
