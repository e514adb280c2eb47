//! The answers to keys of one bit, whose shares were worked by hand.
use answer_frames::read_answer;
use csv_tables::read_table;
use provider_core::answer;
use seed_expansion::ToyExpander;
use share_eval::OpenGate;
use spl_values::{Table, read_shape};
use spl_words::Provider;
use std::alloc::Global;
use std::thread::Threads;

const SHAPE: &[u8] = b"table t\nrows 4\na UINT(1)\nv UINT(8)\n";

const ROWS: &[u8] = b"a,v\n1,5\n0,9\n1,7\n0,1\n";

/// The frame of Zero of a count and a sum over a point tree of one bit at 1: Zero's shares are 9 there and -1 at 0. Its
/// last 32 bytes are its digest, that another program computed.
pub const ASKED_ZERO: &[u8] =
    b"SPLK\x01\x01\x00\x07\x07\x07\x07\x07\x07\x07\x07\x07\x07\x07\x07\x07\x07\x07\x07\x00*SELECT COUNT(*), SUM(v) FROM t WHERE a = ?\x00#table t\nrows 4\na UINT(1)\nv UINT(8)\n\x00\x01\x00\x01\x00\x00\x00\x00\x00\x00\x00\x00\x00\x00\x00\x00\x00\x00\x00\x01\x00\x00\x00\x00\x00\x00\x00\x00\x00\x00\x00\x00\x00\x00\x00\x01\x01\xff\xff\xff\xff\xff\xff\xff\xf9\xde\x04R\xe3\x8aH\xb0\x1c\x80\xf6HX\xe2\xae\xc0\xf0\xf2\xc7\x8c\xa0\x87\xccH'\x1c\xce\xe1f|\xb8\xda\x9f";

/// The frame of One of the same: One's shares are -8 at 1, and 1 at 0.
pub const ASKED_ONE: &[u8] =
    b"SPLK\x01\x01\x01\x07\x07\x07\x07\x07\x07\x07\x07\x07\x07\x07\x07\x07\x07\x07\x07\x00*SELECT COUNT(*), SUM(v) FROM t WHERE a = ?\x00#table t\nrows 4\na UINT(1)\nv UINT(8)\n\x00\x01\x00\x01\x00\x00\x00\x00\x00\x00\x00\x00\x00\x00\x00\x00\x00\x00\x00\x02\x00\x00\x00\x00\x00\x00\x00\x00\x00\x00\x00\x00\x00\x00\x00\x01\x01\xff\xff\xff\xff\xff\xff\xff\xf9f\xfe\x01\xe6\xfe\x00z\x92e\n)2\x07\x97\x1f\x86\xd4\x97W\xc3\x83\x04Z\x02\x09\xf4+\x19G\xc7\xb6\x9f";

/// A frame of Zero with the same key twice, in two trees.
const ASKED_TWICE: &[u8] =
    b"SPLK\x01\x01\x00\x07\x07\x07\x07\x07\x07\x07\x07\x07\x07\x07\x07\x07\x07\x07\x07\x005SELECT COUNT(*), SUM(v) FROM t WHERE (a = ? OR a = ?)\x00#table t\nrows 4\na UINT(1)\nv UINT(8)\n\x00\x02\x00\x01\x00\x00\x00\x00\x00\x00\x00\x00\x00\x00\x00\x00\x00\x00\x00\x01\x00\x00\x00\x00\x00\x00\x00\x00\x00\x00\x00\x00\x00\x00\x00\x01\x01\xff\xff\xff\xff\xff\xff\xff\xf9\x00\x01\x00\x00\x00\x00\x00\x00\x00\x00\x00\x00\x00\x00\x00\x00\x00\x01\x00\x00\x00\x00\x00\x00\x00\x00\x00\x00\x00\x00\x00\x00\x00\x01\x01\xff\xff\xff\xff\xff\xff\xff\xf9{GGX\xec\xa9u\xc9\xfe\x1d$\xeb\x1a\x9b\xbbl\xe7\xdfC\xa1\xfe4\x03\x8c\x8e\xadV\xca$\x15\x8b4";

/// The table that is asked.
pub fn table_of(alloc: Global) -> Option<Table> {
    let shape = read_shape(alloc, SHAPE).ok()?;
    read_table(alloc, ROWS, &shape).ok()
}

/// Whether an answer has these words.
pub fn has_words(alloc: Global, told: &[u8], words: &[u64]) -> bool {
    match read_answer(alloc, told) {
        Ok(frame) => frame.words.as_slice() == words,
        Err(_) => false,
    }
}

/// A provider, the frame that it is sent, and the words of its answer.
type AnswerCase = (Provider, &'static [u8], [u64; 2]);

/// Whether that is a provider's answer over a table.
fn is_answered<T: Threads + Sync>(rt: &T, alloc: Global, table: &Table, case: &AnswerCase) -> bool {
    let (provider, frame, words) = case;
    match answer(
        rt,
        alloc,
        &ToyExpander,
        *provider,
        frame,
        table,
        7,
        &OpenGate,
    ) {
        Ok(told) => has_words(alloc, &told, words),
        Err(_) => false,
    }
}

const CASES: &[AnswerCase] = &[
    // 9 - 1 + 9 - 1, and 9 * 5 - 9 + 9 * 7 - 1
    (Provider::Zero, ASKED_ZERO, [16, 98]),
    // -8 + 1 - 8 + 1, and -40 + 9 - 56 + 1
    (Provider::One, ASKED_ONE, [u64::MAX - 13, u64::MAX - 85]),
    // two keys add up
    (Provider::Zero, ASKED_TWICE, [32, 196]),
];

/// The first case that is answered otherwise.
fn first_other<T: Threads + Sync>(rt: &T, alloc: Global, table: &Table) -> Option<usize> {
    for (at, case) in CASES.iter().enumerate() {
        if !is_answered(rt, alloc, table, case) {
            return Some(at);
        }
    }
    None
}

#[test]
fn keys_of_one_bit_are_answered(rt: HostRuntime) {
    let other = match table_of(rt.alloc()) {
        Some(table) => first_other(&rt, rt.alloc(), &table),
        None => Some(CASES.len()),
    };
    assert_eq!(rt; other, None);
}
