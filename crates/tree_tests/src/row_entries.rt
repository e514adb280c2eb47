//! Counts and sums have an entry for each row that the public conditions keep.
use crate::fixtures::{Entries, EntryCase, first_other};

const CASES: &[EntryCase] = &[
    // two bits of a label, and then eight of a number; a count and a sum for each label
    EntryCase {
        query: "SELECT COUNT(*), SUM(v) FROM t WHERE a BETWEEN 1 AND 2 AND k = ? AND v = ? GROUP BY k",
        keys: &[5, 521, 257],
        words: &[1, 5, 0, 0, 0, 0, 0, 0, 0, 0, 1, 9, 0, 0, 1, 1, 0, 0],
    },
    EntryCase {
        query: "SELECT AVG(v) FROM t WHERE (a = ? OR a = ?)",
        keys: &[1, 3, 2, 1],
        words: &[1, 5, 1, 7, 1, 9, 1, 1],
    },
    EntryCase {
        query: "SELECT COUNT(*) FROM t WHERE v = 2 AND k = ?",
        keys: &[],
        words: &[],
    },
];

const ROWS: &[u8] = b"a,k,v\n1,red,5\n3,blue,7\n2,blue,9\n1,green,1\n";

#[test]
fn an_entry_for_each_kept_row(rt: HostRuntime) {
    assert_eq!(rt; first_other(rt.alloc(), Entries::Rows, ROWS, CASES), None);
}
