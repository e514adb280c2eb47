//! Rows stand by rising key, each at its own position.
use crate::fixtures::{Entries, EntryCase, first_other};

const CASES: &[EntryCase] = &[
    // the second row, the last, and then the first and the third, which have one key
    EntryCase {
        query: "SELECT MAX(v) FROM t WHERE a BETWEEN ? AND ?",
        keys: &[0, 1, 2, 3],
        words: &[1, 7, 1, 1, 1, 5, 1, 9],
    },
    // the public condition leaves the second row out, and of the others each has a key of its own
    EntryCase {
        query: "SELECT MAX(v) FROM t WHERE a BETWEEN 2 AND 3 AND v = ?",
        keys: &[0, 1, 2],
        words: &[1, 1, 1, 5, 1, 9],
    },
];

const ROWS: &[u8] = b"a,k,v\n3,red,5\n1,blue,7\n3,blue,9\n2,green,1\n";

#[test]
fn rows_stand_by_rising_key(rt: HostRuntime) {
    assert_eq!(rt;
        first_other(rt.alloc(), Entries::Positions, ROWS, CASES),
        None
    );
}
