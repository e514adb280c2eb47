//! Greatest and least values and best rows have an entry for each key.
use crate::fixtures::{Entries, EntryCase, first_other};

const ROWS: &[u8] = b"a,k,v\n1,red,5\n3,blue,7\n2,blue,9\n1,green,1\n";

const CASES: &[EntryCase] = &[
    EntryCase {
        query: "SELECT COUNT(*), MAX(v), MIN(v) FROM t WHERE (a = ? OR a = ?)",
        keys: &[1, 2, 3],
        words: &[2, 5, 1, 1, 9, 9, 1, 7, 7],
    },
    EntryCase {
        query: "SELECT COUNT(*), MAX(v) FROM t WHERE a BETWEEN 1 AND 2 AND k = ?",
        keys: &[0, 1, 2],
        words: &[1, 5, 1, 1, 1, 9],
    },
    // a label's code
    EntryCase {
        query: "SELECT SUM(v), MAX(k) FROM t WHERE a = ?",
        keys: &[1, 2, 3],
        words: &[2, 6, 1, 1, 9, 2, 1, 7, 2],
    },
    EntryCase {
        query: "SELECT MAX(v) FROM t WHERE v = 2 AND k = ?",
        keys: &[],
        words: &[],
    },
];

#[test]
fn an_entry_for_each_key(rt: HostRuntime) {
    assert_eq!(rt; first_other(rt.alloc(), Entries::Keys, ROWS, CASES), None);
}

const TIED_ROWS: &[u8] = b"a,k,v\n1,red,5\n3,red,5\n2,red,9\n1,green,1\n";

// a count, and two rows: the number from 1, the code of v and that of a
const TIED: &[EntryCase] = &[EntryCase {
    query: "SELECT TOPK(2, v, a) FROM t WHERE k = ?",
    keys: &[0, 1],
    words: &[3, 3, 9, 2, 1, 5, 1, 1, 4, 1, 1, 0, 0, 0],
}];

#[test]
fn of_equal_rows_the_earlier(rt: HostRuntime) {
    assert_eq!(rt;
        first_other(rt.alloc(), Entries::Keys, TIED_ROWS, TIED),
        None
    );
}
