//! Rounds over links in memory, whose replies are those of served connections.
use crate::answering::{ASKED_ONE, ASKED_ZERO, has_words, table_of};
use crate::serving::{door_of, framed, served};
use link_exchange::{Body, RoundFault, Side, answer_in, exchange};
use spl_outside::ScriptLink;
use spl_values::Table;
use spl_words::Provider;
use std::alloc::{AllocError, Global};
use std::thread::Threads;

/// A link at which this reply comes due once a whole request is sent, where chosen calls fail.
fn link_of(alloc: Global, reply: &[u8], fails: &[u64]) -> Result<ScriptLink, AllocError> {
    let mut script = Vec::new(alloc);
    script.push(Vec::new(alloc))?;
    script.push(Vec::from_slice(alloc, reply)?)?;
    Ok(ScriptLink::new(alloc, script, Vec::from_slice(alloc, fails)?))
}

/// A link to a provider that is asked by this frame.
fn link_to<T: Threads + Sync>(
    rt: &T,
    alloc: Global,
    provider: Provider,
    table: &Table,
    input: &[u8],
) -> Result<ScriptLink, AllocError> {
    let mut door = door_of(alloc, input, &[])?;
    let _ = served(rt, alloc, provider, table, &mut door);
    link_of(alloc, door.sent(0).unwrap_or(b""), &[])
}

/// Whether a body holds an answer of these words.
fn tells(alloc: Global, body: &Body, words: &[u64]) -> bool {
    match answer_in(body) {
        Ok(told) => has_words(alloc, told, words),
        Err(_) => false,
    }
}

/// Whether a round over these links brings the answers of both providers.
fn brings_both(alloc: Global, left: &mut ScriptLink, right: &mut ScriptLink) -> bool {
    match exchange(alloc, left, right, ASKED_ZERO, ASKED_ONE) {
        Ok(bodies) => {
            tells(alloc, &bodies.left, &[16, 98])
                && tells(alloc, &bodies.right, &[u64::MAX - 13, u64::MAX - 85])
        }
        Err(_) => false,
    }
}

/// Whether both providers answer in a round what they are sent in it.
fn both_answer<T: Threads + Sync>(
    rt: &T,
    alloc: Global,
    table: &Table,
) -> Result<bool, AllocError> {
    let to_left = framed(alloc, ASKED_ZERO)?;
    let to_right = framed(alloc, ASKED_ONE)?;
    let mut left = link_to(rt, alloc, Provider::Zero, table, &to_left)?;
    let mut right = link_to(rt, alloc, Provider::One, table, &to_right)?;
    let brought = brings_both(alloc, &mut left, &mut right);
    Ok(brought && left.sent() == to_left.as_slice() && right.sent() == to_right.as_slice())
}

#[test]
fn a_round_brings_the_answers_of_served_connections(rt: HostRuntime) -> Result<(), AllocError> {
    let holds = match table_of(rt.alloc()) {
        Some(table) => both_answer(&rt, rt.alloc(), &table)?,
        None => false,
    };
    assert!(rt; holds);
    Ok(())
}

/// The two replies, the calls on the right link that fail, and the fault of the round.
type FaultCase = (
    &'static [u8],
    &'static [u8],
    &'static [u64],
    Option<RoundFault>,
);

const WHOLE: &[u8] = b"\x00\x00\x00\x01\x00";

const FAULTS: &[FaultCase] = &[
    (WHOLE, WHOLE, &[], None),
    (
        b"\x00\x00",
        WHOLE,
        &[],
        Some(RoundFault::LinkEnded(Side::Left, 2, 4)),
    ),
    (b"", b"", &[], Some(RoundFault::LinkEnded(Side::Left, 0, 4))),
    (
        WHOLE,
        b"\x00\x00\x00\x05\x00",
        &[],
        Some(RoundFault::LinkEnded(Side::Right, 1, 5)),
    ),
    // The calls on the right link are two sends and two receives.
    (WHOLE, WHOLE, &[1], Some(RoundFault::LinkFault(Side::Right))),
    (
        b"\x00\x00",
        WHOLE,
        &[4],
        Some(RoundFault::LinkEnded(Side::Left, 2, 4)),
    ),
    (WHOLE, WHOLE, &[4], Some(RoundFault::LinkFault(Side::Right))),
    (WHOLE, WHOLE, &[5], None),
];

/// The fault of a round with these replies.
fn fault_of(alloc: Global, case: &FaultCase) -> Result<Option<RoundFault>, AllocError> {
    let (from_left, from_right, fails, _) = case;
    let mut left = link_of(alloc, from_left, &[])?;
    let mut right = link_of(alloc, from_right, fails)?;
    match exchange(alloc, &mut left, &mut right, b"ab", b"c") {
        Ok(_) => Ok(None),
        Err(fault) => Ok(Some(fault)),
    }
}

/// The first round that has another fault.
fn first_other_fault(alloc: Global) -> Result<Option<usize>, AllocError> {
    for (at, case) in FAULTS.iter().enumerate() {
        if fault_of(alloc, case)? != case.3 {
            return Ok(Some(at));
        }
    }
    Ok(None)
}

#[test]
fn a_round_fails_by_its_first_fault(rt: HostRuntime) -> Result<(), AllocError> {
    assert_eq!(rt; first_other_fault(rt.alloc())?, None);
    Ok(())
}
