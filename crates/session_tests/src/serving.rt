//! Connections in memory that are served, cut in several ways.
ghost use Rattle.std.specs.Prelude.{◌<◌, ◌^◌, length};

use crate::answering::{ASKED_ZERO, has_words, table_of};
use seed_expansion::ToyExpander;
use serve_core::{ServeEnd, serve_connection};
use share_eval::OpenGate;
use spl_outside::{Door, MemoryDoor, Sizes};
use spl_values::Table;
use spl_words::Provider;
use std::alloc::{AllocError, Global};
use std::thread::Threads;

/// A frame behind its length.
pub fn framed(alloc: Global, frame: &[u8]) -> Result<Vec<u8>, AllocError>
    requires { length frame.now < 2 ^ 32 }
{
    let mut bytes = Vec::from_slice(alloc, &(frame.len() as u32).to_be_bytes())?;
    bytes.extend_from_slice(frame)?;
    Ok(bytes)
}

/// A door at which one connection brings these bytes, where chosen calls fail.
pub fn door_of(alloc: Global, input: &[u8], fails: &[u64]) -> Result<MemoryDoor, AllocError> {
    let connections = vec![in alloc; Vec::from_slice(alloc, input)?]?;
    let fails = Vec::from_slice(alloc, fails)?;
    Ok(MemoryDoor::new(alloc, connections, fails))
}

/// How the next connection at a door ends.
pub fn served<T: Threads + Sync>(
    rt: &T,
    alloc: Global,
    provider: Provider,
    table: &Table,
    door: &mut MemoryDoor,
) -> Option<ServeEnd> {
    match door.next_connection() {
        Ok(true) => Some(serve_connection(
            rt,
            alloc,
            &ToyExpander,
            provider,
            table,
            7,
            door,
            &OpenGate,
        )),
        _ => None,
    }
}

/// A request that is no key frame, and behind it one for Zero.
fn two_requests(alloc: Global) -> Result<Vec<u8>, AllocError> {
    let mut bytes = framed(alloc, b"S")?;
    bytes.extend_from_slice(&framed(alloc, ASKED_ZERO)?)?;
    Ok(bytes)
}

/// A door at which the two requests come in pieces of these sizes.
fn cut_door(alloc: Global, sizes: &[u64]) -> Result<MemoryDoor, AllocError> {
    let mut door = door_of(alloc, &two_requests(alloc)?, &[])?;
    door.cut(Sizes::from_vec(Vec::from_slice(alloc, sizes)?));
    Ok(door)
}

/// Whether these bytes are the replies to the two requests: the code 1, and the byte 0 with an answer of 139 bytes.
fn are_two_replies(alloc: Global, sent: &[u8]) -> bool {
    match sent.strip_prefix(b"\x00\x00\x00\x01\x01\x00\x00\x00\x8c\x00".as_slice()) {
        Some(told) => told.len() == 139 && has_words(alloc, told, &[16, 98]),
        None => false,
    }
}

/// Whether the two requests are answered in order, and the connection ends clean.
fn are_answered<T: Threads + Sync>(
    rt: &T,
    alloc: Global,
    table: &Table,
    mut door: MemoryDoor,
) -> bool {
    let end = served(rt, alloc, Provider::Zero, table, &mut door);
    match door.sent(0) {
        Some(sent) => end == Some(ServeEnd::Clean) && are_two_replies(alloc, sent),
        None => false,
    }
}

const CUTTINGS: &[&[u64]] = &[&[], &[1; 400], &[3, 2, 5], &[4, 1, 4, 100]];

/// The first cutting in which the two requests are answered otherwise.
fn first_other_cutting<T: Threads + Sync>(
    rt: &T,
    alloc: Global,
    table: &Table,
) -> Result<Option<usize>, AllocError> {
    for (at, sizes) in CUTTINGS.iter().enumerate() {
        let door = cut_door(alloc, sizes)?;
        if !are_answered(rt, alloc, table, door) {
            return Ok(Some(at));
        }
    }
    Ok(None)
}

#[test]
fn requests_are_answered_in_order_however_they_are_cut(rt: HostRuntime) -> Result<(), AllocError> {
    let other = match table_of(rt.alloc()) {
        Some(table) => first_other_cutting(&rt, rt.alloc(), &table)?,
        None => Some(CUTTINGS.len()),
    };
    assert_eq!(rt; other, None);
    Ok(())
}

/// The bytes that come, the calls that fail, how the connection ends, and the bytes that are sent.
type EndCase = (&'static [u8], &'static [u64], ServeEnd, &'static [u8]);

const ENDS: &[EndCase] = &[
    (b"", &[], ServeEnd::Clean, b""),
    (
        b"\x00\x00\x00\x00",
        &[],
        ServeEnd::Clean,
        b"\x00\x00\x00\x01\x01",
    ),
    (b"\x00\x00", &[], ServeEnd::Cut(2, 4), b""),
    (b"\x00\x00\x00\x03ab", &[], ServeEnd::Cut(2, 3), b""),
    (
        b"\x00\x40\x00\x01abc",
        &[],
        ServeEnd::TooLong(4_194_305),
        b"\x00\x00\x00\x01\x08",
    ),
    // The calls are the next connection, the two receives of a request, and the send of its reply.
    (b"\x00\x00\x00\x01S", &[3], ServeEnd::Lost, b""),
    (b"\x00\x00\x00\x01S", &[4], ServeEnd::Lost, b""),
    (
        b"\x00\x00\x00\x01S",
        &[5],
        ServeEnd::Lost,
        b"\x00\x00\x00\x01\x01",
    ),
    (b"\x00\x40\x00\x01", &[3], ServeEnd::Lost, b""),
];

/// Whether a connection ends so.
fn ends_so<T: Threads + Sync>(rt: &T, alloc: Global, table: &Table, case: &EndCase) -> bool {
    let (input, fails, wanted, bytes) = case;
    let Ok(mut door) = door_of(alloc, input, fails) else {
        return false;
    };
    let end = served(rt, alloc, Provider::Zero, table, &mut door);
    end == Some(*wanted) && door.sent(0) == Some(*bytes)
}

/// The first connection that ends otherwise.
fn first_other_end<T: Threads + Sync>(rt: &T, alloc: Global, table: &Table) -> Option<usize> {
    for (at, case) in ENDS.iter().enumerate() {
        if !ends_so(rt, alloc, table, case) {
            return Some(at);
        }
    }
    None
}

#[test]
fn connections_end_by_their_input_and_their_losses(rt: HostRuntime) {
    let other = match table_of(rt.alloc()) {
        Some(table) => first_other_end(&rt, rt.alloc(), &table),
        None => Some(ENDS.len()),
    };
    assert_eq!(rt; other, None);
}
