//! Texts are read as queries and printed in their canonical form, or refused at an offset.
use query_parser::{Query, QueryFault, print_query, read_query};
use std::alloc::{AllocError, Global};

/// A text, and its canonical form.
const CANONICAL: &[(&str, &str)] = &[
    (
        "select count( * ) from t where a=? ;",
        "SELECT COUNT(*) FROM t WHERE a = ?",
    ),
    ("SELECT COUNT(*) FROM t", "SELECT COUNT(*) FROM t"),
    (
        "SELECT COUNT(*), SUM(price), AVG(price) FROM flights WHERE origin = ? AND dest = ? AND price BETWEEN ? AND ?",
        "SELECT COUNT(*), SUM(price), AVG(price) FROM flights WHERE origin = ? AND dest = ? AND price BETWEEN ? AND ?",
    ),
    (
        "SELECT MAX(price) FROM flights WHERE price BETWEEN ? AND ?",
        "SELECT MAX(price) FROM flights WHERE price BETWEEN ? AND ?",
    ),
    (
        "SELECT COUNT(*) FROM flights WHERE (origin = ? OR origin = ?)",
        "SELECT COUNT(*) FROM flights WHERE (origin = ? OR origin = ?)",
    ),
    (
        "SELECT COUNT(*) FROM flights WHERE origin = ? OR dest = ?",
        "SELECT COUNT(*) FROM flights WHERE (origin = ? OR dest = ?)",
    ),
    (
        "SELECT TOPK(2, v, a) FROM t WHERE a = ?",
        "SELECT TOPK(2, v, a) FROM t WHERE a = ?",
    ),
    (
        "SELECT MIN(v) , Max(v),avg(v) FROM t",
        "SELECT MIN(v), MAX(v), AVG(v) FROM t",
    ),
    (
        "SELECT COUNT(*) FROM s WHERE a = ? GROUP BY k",
        "SELECT COUNT(*) FROM s WHERE a = ? GROUP BY k",
    ),
    (
        "SELECT COUNT(*) FROM s GROUP BY k;",
        "SELECT COUNT(*) FROM s GROUP BY k",
    ),
    ("SELECT COUNT(*) FROM s;", "SELECT COUNT(*) FROM s"),
    (
        "SELECT COUNT(*) FROM t WHERE a = 'it''s' AND b BETWEEN 007 AND 9",
        "SELECT COUNT(*) FROM t WHERE a = 'it''s' AND b BETWEEN 7 AND 9",
    ),
    (
        "SELECT COUNT(*) FROM t WHERE a = ? AND b = 5 AND c = ?",
        "SELECT COUNT(*) FROM t WHERE b = 5 AND a = ? AND c = ?",
    ),
    (
        "SELECT COUNT(*) FROM t WHERE a BETWEEN ? AND ? AND b = 5",
        "SELECT COUNT(*) FROM t WHERE b = 5 AND a BETWEEN ? AND ?",
    ),
    (
        "SELECT COUNT(*) FROM t WHERE (a = ? OR a = ?) AND b = 5",
        "SELECT COUNT(*) FROM t WHERE b = 5 AND (a = ? OR a = ?)",
    ),
    (
        "SELECT COUNT(*) FROM t WHERE b = 5 AND (a = ?)",
        "SELECT COUNT(*) FROM t WHERE b = 5 AND a = ?",
    ),
    (
        "SELECT COUNT(*) FROM t WHERE b = 5 AND c = 'x'",
        "SELECT COUNT(*) FROM t WHERE b = 5 AND c = 'x'",
    ),
    (
        "SELECT COUNT(*) FROM t WHERE (a = ? AND c BETWEEN ? AND ? OR a = ? AND c BETWEEN ? AND ?)",
        "SELECT COUNT(*) FROM t WHERE (a = ? AND c BETWEEN ? AND ? OR a = ? AND c BETWEEN ? AND ?)",
    ),
    (
        "SELECT COUNT(*) FROM t WHERE a = ? AND b = ? OR c = ?",
        "SELECT COUNT(*) FROM t WHERE (a = ? AND b = ? OR c = ?)",
    ),
    (
        "SELECT COUNT(*) FROM t WHERE a BETWEEN ? AND ?OR b=?",
        "SELECT COUNT(*) FROM t WHERE (a BETWEEN ? AND ? OR b = ?)",
    ),
    (
        "SELECT SUM(selects) FROM abcdefghijklmnopqrstuvwxyz_12345",
        "SELECT SUM(selects) FROM abcdefghijklmnopqrstuvwxyz_12345",
    ),
    (
        "SELECT TOPK(18446744073709551615, v, v) FROM t",
        "SELECT TOPK(18446744073709551615, v, v) FROM t",
    ),
    (
        "SELECT COUNT(*) FROM t WHERE a = '' AND b = 18446744073709551615",
        "SELECT COUNT(*) FROM t WHERE a = '' AND b = 18446744073709551615",
    ),
    (
        "SELECT COUNT(*) FROM t WHERE a BETWEEN 'a' AND 2",
        "SELECT COUNT(*) FROM t WHERE a BETWEEN 'a' AND 2",
    ),
    (
        "SELECT\tCOUNT\r\n(*)FROM t WHERE a='b'AND c=?",
        "SELECT COUNT(*) FROM t WHERE a = 'b' AND c = ?",
    ),
    (
        "SELECT COUNT(*) FROM flights WHERE origin = 'SFO'",
        "SELECT COUNT(*) FROM flights WHERE origin = 'SFO'",
    ),
];

/// Whether that is the canonical form of a query.
fn is_form(alloc: Global, query: &Query, canonical: &str) -> bool {
    match print_query(alloc, query) {
        Ok(found) => found.as_slice() == canonical.as_bytes(),
        Err(_) => false,
    }
}

/// Whether that is the canonical form of a text.
fn is_printed(alloc: Global, text: &str, canonical: &str) -> bool {
    match read_query(alloc, text) {
        Ok(query) => is_form(alloc, &query, canonical),
        Err(_) => false,
    }
}

/// The first text that is refused or printed otherwise.
fn first_other_form(alloc: Global) -> Option<&'static str> {
    for (text, canonical) in CANONICAL {
        if !is_printed(alloc, text, canonical) {
            return Some(text);
        }
    }
    None
}

#[test]
fn texts_are_printed_in_canonical_form(rt: HostRuntime) {
    assert_eq!(rt; first_other_form(rt.alloc()), None);
}

/// A text, and the offset at which it is refused.
const REFUSED: &[(&str, u64)] = &[
    ("", 0),
    ("   ", 3),
    ("COUNT(*) FROM t", 0),
    ("SELECT", 6),
    ("SELECT FROM t", 7),
    ("SELECT price FROM t", 7),
    ("SELECT COUNT(price) FROM t", 13),
    ("SELECT COUNT FROM t", 13),
    ("SELECT COUNT(* FROM t", 15),
    ("SELECT SUM(*) FROM t", 11),
    ("SELECT SUM(v, w) FROM t", 12),
    ("SELECT TOPK(v, v, v) FROM t", 12),
    ("SELECT TOPK(2 v, v) FROM t", 14),
    ("SELECT TOPK(2, 3, v) FROM t", 15),
    ("SELECT TOPK(2, v) FROM t", 16),
    ("SELECT TOPK(2, v, w, x) FROM t", 19),
    ("SELECT COUNT(*); FROM t", 15),
    ("SELECT COUNT(*), FROM t", 17),
    ("SELECT COUNT(*) COUNT(*) FROM t", 16),
    ("SELECT COUNT(*)", 15),
    ("SELECT COUNT(*) FROM 5", 21),
    ("SELECT COUNT(*) FROM", 20),
    ("SELECT COUNT(*) FROM t t", 23),
    ("SELECT COUNT(*) FROM t AND a = ?", 23),
    ("SELECT COUNT(*) FROM t WHERE", 28),
    ("SELECT COUNT(*) FROM t WHERE ? = a", 29),
    ("SELECT COUNT(*) FROM t WHERE GROUP BY k", 29),
    ("SELECT COUNT(*) FROM t WHERE a 5", 31),
    ("SELECT COUNT(*) FROM t WHERE a # 5", 31),
    ("SELECT COUNT(*) FROM t WHERE a = b", 33),
    ("SELECT COUNT(*) FROM t WHERE a =", 32),
    ("SELECT COUNT(*) FROM t WHERE a BETWEEN ? OR ?", 41),
    ("SELECT COUNT(*) FROM t WHERE a BETWEEN ? AND 5", 45),
    ("SELECT COUNT(*) FROM t WHERE a BETWEEN 5 AND ?", 45),
    ("SELECT COUNT(*) FROM t WHERE a BETWEEN 5 , 6", 41),
    (
        "SELECT COUNT(*) FROM t WHERE a BETWEEN ? AND ? AND a = ?",
        55,
    ),
    (
        "SELECT COUNT(*) FROM t WHERE a BETWEEN ? AND ? AND b = 5 AND c = ?",
        65,
    ),
    (
        "SELECT COUNT(*) FROM t WHERE a BETWEEN ? AND ? AND b BETWEEN ? AND ?",
        61,
    ),
    ("SELECT COUNT(*) FROM t WHERE a BETWEEN ? AND ? AND", 50),
    (
        "SELECT COUNT(*) FROM t WHERE a BETWEEN ? AND ? AND (b = ?)",
        51,
    ),
    ("SELECT COUNT(*) FROM t WHERE (a = ?) AND b = ?", 45),
    (
        "SELECT COUNT(*) FROM t WHERE (a BETWEEN ? AND ?) AND b = 5 AND c = ?",
        67,
    ),
    ("SELECT COUNT(*) FROM t WHERE b = ? AND (a = ?)", 39),
    ("SELECT COUNT(*) FROM t WHERE (a = ?) AND (b = ?)", 41),
    ("SELECT COUNT(*) FROM t WHERE ()", 30),
    ("SELECT COUNT(*) FROM t WHERE (a = 5)", 34),
    ("SELECT COUNT(*) FROM t WHERE (a = ? OR b = ?", 44),
    (
        "SELECT COUNT(*) FROM t WHERE (a BETWEEN ? AND ? AND b = ?)",
        48,
    ),
    ("SELECT COUNT(*) FROM t WHERE (a = ? AND (b = ?))", 40),
    ("SELECT COUNT(*) FROM t WHERE (a = ?) OR b = ?", 37),
    ("SELECT COUNT(*) FROM t WHERE a = ? OR b = 5", 42),
    ("SELECT COUNT(*) FROM t WHERE a = ? OR (b = ?)", 38),
    ("SELECT COUNT(*) FROM t WHERE a = ? AND b = 5 OR c = ?", 45),
    (
        "SELECT COUNT(*) FROM t WHERE a = ? OR b BETWEEN ? AND ? AND c = ?",
        56,
    ),
    ("SELECT COUNT(*) FROM t WHERE a = ?)", 34),
    ("SELECT COUNT(*) FROM t WHERE a = ? AND", 38),
    (
        "SELECT COUNT(*) FROM flights WHERE origin = 'SFO' OR dest = ?",
        50,
    ),
    ("SELECT COUNT(*) FROM t GROUP k", 29),
    ("SELECT COUNT(*) FROM t GROUP BY", 31),
    ("SELECT COUNT(*) FROM t GROUP BY 5", 32),
    ("SELECT COUNT(*) FROM t GROUP BY k WHERE a = ?", 34),
    ("SELECT COUNT(*) FROM t WHERE a = ? GROUP", 40),
    ("SELECT COUNT(*) FROM t; x", 24),
    ("SELECT COUNT(*) FROM t;;", 23),
    ("SELECT COUNT(*) FROM t WHERE a = 'open", 33),
    ("SELECT COUNT(*) FROM t WHERE a = 'ab''", 37),
    ("SELECT COUNT(*) FROM t WHERE a = 12a", 35),
    ("SELECT COUNT(*) FROM t WHERE a = 18446744073709551616", 33),
    ("SELECT COUNT(*) FROM abcdefghijklmnopqrstuvwxyz_123456", 21),
    ("SELECT COUNT(*) FROM t WHERE a = 'é'", 33),
    ("é", 0),
];

/// Whether a text is refused at that offset.
fn is_refused(alloc: Global, text: &str, at: u64) -> bool {
    match read_query(alloc, text) {
        Err(QueryFault::NoReading(found)) => found == at,
        _ => false,
    }
}

/// The first text that is read, or refused otherwise.
fn first_other_refusal(alloc: Global) -> Option<&'static str> {
    for (text, at) in REFUSED {
        if !is_refused(alloc, text, *at) {
            return Some(text);
        }
    }
    None
}

#[test]
fn texts_are_refused_at_their_offset(rt: HostRuntime) {
    assert_eq!(rt; first_other_refusal(rt.alloc()), None);
}

/// The reserved words, and two of them in other letters.
const RESERVED: &[&str] = &[
    "SELECT", "FROM", "WHERE", "AND", "OR", "BETWEEN", "GROUP", "BY", "COUNT", "SUM", "AVG", "MAX",
    "MIN", "TOPK", "select", "tOpK",
];

/// The text of a query over a table of that name.
fn query_over(alloc: Global, name: &str) -> Result<String, AllocError> {
    format!(in alloc; "SELECT COUNT(*) FROM {name}")
}

/// The first reserved word that is taken as a name.
fn first_name(alloc: Global) -> Result<Option<&'static str>, AllocError> {
    for word in RESERVED {
        let text = query_over(alloc, word)?;
        if !is_refused(alloc, text.as_str(), 21) {
            return Ok(Some(word));
        }
    }
    Ok(None)
}

#[test]
fn reserved_words_are_no_names(rt: HostRuntime) {
    assert_eq!(rt; first_name(rt.alloc()), Ok(None));
}
