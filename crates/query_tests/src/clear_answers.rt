//! Clear answers by hand, printed.
ghost use Rattle.query_reader.specs.Accepted.{IsCheckedFor};
ghost use Rattle.query_reader.specs.Params.{AreParamsFor};

use crate::fixtures::{FLIGHTS, checked_of, params_of};
use clear_sql::{clear_answer, print_answer};
use csv_tables::read_table;
use query_reader::{Checked, Params, laws};
use spl_values::{Bytes, Shape, Table, read_shape};
use std::alloc::{AllocError, Global};
use sum_bounds::check_sums;

/// A table, a query over it with its parameters, and the text of its answer, or none where its sums are too great.
#[derive(Clone, Copy)]
struct AnswerCase {
    shape: &'static [u8],
    rows: &'static [u8],
    query: &'static str,
    params: &'static str,
    text: Option<&'static [u8]>,
}

/// The text of the clear answer to an accepted query.
fn text_of(
    alloc: Global,
    checked: &Checked,
    params: &Params,
    table: &Table,
) -> Result<Option<Bytes>, AllocError>
    requires checked { IsCheckedFor checked.now table.now.shape.schema }
    requires params { AreParamsFor checked.now table.now.shape.schema params.now }
{
    laws::accepted_has_cells();
    match check_sums(table, checked.spec.items.as_slice()) {
        Ok(()) => {
            let answer = clear_answer(alloc, checked, params, table)?;
            let text = print_answer(alloc, checked, &table.shape().schema, &answer)?;
            Ok(Some(text))
        }
        Err(_) => Ok(None),
    }
}

/// Whether an accepted query has the case's answer for these parameters.
fn is_text(
    alloc: Global,
    checked: &Checked,
    params: &Params,
    table: &Table,
    wanted: Option<&[u8]>,
) -> bool
    requires checked { IsCheckedFor checked.now table.now.shape.schema }
    requires params { AreParamsFor checked.now table.now.shape.schema params.now }
{
    match text_of(alloc, checked, params, table) {
        Ok(Some(text)) => wanted == Some(text.as_slice()),
        Ok(None) => wanted.is_none(),
        Err(_) => false,
    }
}

/// Whether an accepted query has the case's answer.
fn is_answered(alloc: Global, checked: &Checked, table: &Table, case: &AnswerCase) -> bool
    requires { IsCheckedFor checked.now table.now.shape.schema }
{
    match params_of(alloc, checked, &table.shape().schema, case.params) {
        Ok(params) => is_text(alloc, checked, &params, table, case.text),
        Err(_) => false,
    }
}

/// Whether the case's query over a table has the case's answer.
fn is_answered_over(alloc: Global, table: &Table, case: &AnswerCase) -> bool {
    match checked_of(alloc, &table.shape().schema, case.query) {
        Ok(checked) => is_answered(alloc, &checked, table, case),
        Err(_) => false,
    }
}

/// Whether the case's query over the case's table has the case's answer.
fn is_answered_by_shape(alloc: Global, shape: &Shape, case: &AnswerCase) -> bool {
    match read_table(alloc, case.rows, shape) {
        Ok(table) => is_answered_over(alloc, &table, case),
        Err(_) => false,
    }
}

/// Whether the case holds.
fn holds(alloc: Global, case: &AnswerCase) -> bool {
    match read_shape(alloc, case.shape) {
        Ok(shape) => is_answered_by_shape(alloc, &shape, case),
        Err(_) => false,
    }
}

/// The first case whose answer is another.
fn first_other(alloc: Global) -> Option<usize> {
    for (at, case) in CASES.iter().enumerate() {
        if !holds(alloc, case) {
            return Some(at);
        }
    }
    None
}

#[test]
fn clear_answers(rt: HostRuntime) {
    assert_eq!(rt; first_other(rt.alloc()), None);
}

const FLIGHT_ROWS: &[u8] =
    b"origin,dest,month,price\nSFO,JFK,3,300\nSFO,JFK,4,450\nSFO,BOS,3,200\nLAX,JFK,5,310\nSFO,JFK,5,600\n";

const SUMS: &str =
    "SELECT COUNT(*), SUM(price), AVG(price) FROM flights WHERE origin = ? AND dest = ? AND price BETWEEN ? AND ?";

const NO_ROW: &[u8] = b"table t\nrows 0\na UINT(4)\nv UINT(8)\n";

const ONE_ROW: &[u8] = b"table t\nrows 1\na UINT(4)\nv UINT(8)\n";

const FOUR_ROWS: &[u8] = b"table t\nrows 4\na UINT(4)\nv UINT(8)\n";

const TWO_SUMMANDS: &[u8] = b"table t\nrows 2\na UINT(1)\nv UINT(64)\n";

const LABELLED: &[u8] = b"table s\nrows 3\nk ENUM(red|green|blue)\na UINT(4)\n";

const LABELLED_ROWS: &[u8] = b"k,a\nred,1\nblue,1\ngreen,2\n";

const GREATEST: &str = "SELECT MAX(v), COUNT(*) FROM t WHERE a = ?";

const SUM: &str = "SELECT SUM(v) FROM t WHERE a = ?";

const GROUPED: &str = "SELECT COUNT(*) FROM s WHERE a = ? GROUP BY k";

const CASES: &[AnswerCase] = &[
    // between two prices, both taken in
    AnswerCase {
        shape: FLIGHTS,
        rows: FLIGHT_ROWS,
        query: SUMS,
        params: "SFO JFK 300 500",
        text: Some(b"COUNT(*) 2\nSUM(price) 750\nAVG(price) 750/2\n"),
    },
    AnswerCase {
        shape: FLIGHTS,
        rows: FLIGHT_ROWS,
        query: SUMS,
        params: "SFO JFK 500 300",
        text: Some(b"COUNT(*) 0\nSUM(price) NULL\nAVG(price) NULL\n"),
    },
    AnswerCase {
        shape: FLIGHTS,
        rows: FLIGHT_ROWS,
        query: SUMS,
        params: "SFO JFK 0 65535",
        text: Some(b"COUNT(*) 3\nSUM(price) 1350\nAVG(price) 1350/3\n"),
    },
    // a row that two branches allow counts once
    AnswerCase {
        shape: FLIGHTS,
        rows: FLIGHT_ROWS,
        query: "SELECT COUNT(*) FROM flights WHERE (origin = ? OR origin = ?)",
        params: "SFO SFO",
        text: Some(b"COUNT(*) 4\n"),
    },
    // over no row there is no greatest value, and one of 0 is one
    AnswerCase {
        shape: NO_ROW,
        rows: b"a,v\n",
        query: GREATEST,
        params: "7",
        text: Some(b"MAX(v) NULL\nCOUNT(*) 0\n"),
    },
    AnswerCase {
        shape: ONE_ROW,
        rows: b"a,v\n7,0\n",
        query: GREATEST,
        params: "7",
        text: Some(b"MAX(v) 0\nCOUNT(*) 1\n"),
    },
    AnswerCase {
        shape: ONE_ROW,
        rows: b"a,v\n7,0\n",
        query: GREATEST,
        params: "6",
        text: Some(b"MAX(v) NULL\nCOUNT(*) 0\n"),
    },
    AnswerCase {
        shape: TWO_SUMMANDS,
        rows: b"a,v\n1,18446744073709551614\n1,1\n",
        query: SUM,
        params: "1",
        text: Some(b"SUM(v) 18446744073709551615\n"),
    },
    // the rows that don't match count too, so that the refusal tells nothing of the parameters
    AnswerCase {
        shape: TWO_SUMMANDS,
        rows: b"a,v\n1,18446744073709551615\n0,1\n",
        query: SUM,
        params: "1",
        text: None,
    },
    // of rows with the same sort value the earlier comes first
    AnswerCase {
        shape: FOUR_ROWS,
        rows: b"a,v\n1,5\n1,9\n1,9\n1,9\n",
        query: "SELECT TOPK(2, v, a) FROM t WHERE a = ?",
        params: "1",
        text: Some(b"TOPK(2, v, a) 2\n1|9|1\n2|9|1\n"),
    },
    // labels without a row are left out, and over no row there is no group
    AnswerCase {
        shape: LABELLED,
        rows: LABELLED_ROWS,
        query: GROUPED,
        params: "1",
        text: Some(b"GROUP red\nCOUNT(*) 1\nGROUP blue\nCOUNT(*) 1\n"),
    },
    AnswerCase {
        shape: LABELLED,
        rows: LABELLED_ROWS,
        query: GROUPED,
        params: "3",
        text: Some(b""),
    },
];
