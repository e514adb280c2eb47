//! Queries as texts.
ghost use Rattle.std.specs.Prelude.{◌≡◌, IfOk};
ghost use Rattle.std.specs.Str.{IsAscii};
ghost use Rattle.query_reader.specs.Accepted.{IsCheckedFor};
ghost use Rattle.query_reader.specs.Refusals.{refusal};
ghost use Rattle.judged_queries.specs.Queries.{Judges, checked_in, or_no_reading, reading_of, unless_refused};

use query_grammar::reading_is_grammar;
use query_reader::{Checked, Query, QueryFault, check_query, read_query};
use spl_values::Schema;
use std::alloc::Global;

/// The query that a text is.
fn query_of_text(alloc: Global, text: &str) -> Result<Query, QueryFault>
    ensures { Judges result (or_no_reading (reading_of text.now)) }
{
    reading_is_grammar();
    match read_query(alloc, text) {
        Ok(query) => Ok(query),
        Err(QueryFault::NoReading(at)) => Err(QueryFault::NoReading(at)),
        // A text has no other fault.
        Err(_) => Err(QueryFault::OutOfMemory),
    }
}

/// What is known of a query that is accepted for a schema.
fn accepted(alloc: Global, query: &Query, schema: &Schema) -> Result<Checked, QueryFault>
    ensures gives { Judges result (unless_refused query.now schema.now (refusal query.now schema.now)) }
    ensures known { IfOk result (λ checked. IsCheckedFor checked schema.now) }
{
    check_query(alloc, query, schema)
}

/// What is known of the query that a text is, for a schema.
///
/// # Errors
///
/// Each of `QueryFault`: of several reasons the first in its order.
#[tactic(auto, unfolding(crate::specs::Queries::checked_in))]
pub fn judge_query(alloc: Global, schema: &Schema, text: &str) -> Result<Checked, QueryFault>
    // What the text is, unless memory runs out.
    ensures gives { Judges result (checked_in schema.now text.now) }
    ensures known { IfOk result (λ checked. IsCheckedFor checked schema.now) }
{
    let query = query_of_text(alloc, text)?;
    accepted(alloc, &query, schema)
}

/// ASCII bytes as a text.
fn text_of(bytes: &[u8]) -> &str
    requires { IsAscii bytes.now }
    ensures { result.now ≡ bytes.now }
{
    match str::from_utf8(bytes) {
        Ok(text) => text,
        Err(_) => unreachable!(),
    }
}

/// The same of a text that is given as bytes, each of them ASCII.
pub fn judge_query_bytes(alloc: Global, schema: &Schema, text: &[u8]) -> Result<Checked, QueryFault>
    requires { IsAscii text.now }
    // What the text is, unless memory runs out.
    ensures gives { Judges result (checked_in schema.now text.now) }
    ensures known { IfOk result (λ checked. IsCheckedFor checked schema.now) }
{
    judge_query(alloc, schema, text_of(text))
}
