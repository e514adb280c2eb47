//! Shapes, accepted queries and their parameters.
ghost use Rattle.std.specs.Prelude.{IfOk};
ghost use Rattle.query_reader.specs.Accepted.{IsCheckedFor};
ghost use Rattle.query_reader.specs.Params.{AreParamsFor};

use query_reader::{
    Checked, ParamFault, Params, QueryFault, check_query, params_of_words, read_query,
};
use spl_values::{Schema, Shape, ShapeFault, read_shape};
use std::alloc::{AllocError, Global};

/// The text of a shape of four columns.
pub const FLIGHTS: &[u8] =
    b"table flights\nrows 5\norigin TEXT(3)\ndest TEXT(3)\nmonth UINT(4)\nprice UINT(16)\n";

/// The schema of a shape's text.
pub fn schema_of(alloc: Global, text: &[u8]) -> Result<Schema, ShapeFault> {
    let Shape { schema, .. } = read_shape(alloc, text)?;
    Ok(schema)
}

/// A query that is accepted.
pub fn checked_of(alloc: Global, schema: &Schema, text: &str) -> Result<Checked, QueryFault>
    ensures { IfOk result (λ checked. IsCheckedFor checked schema.now) }
{
    let query = read_query(alloc, text)?;
    check_query(alloc, &query, schema)
}

/// Words with a blank between them.
pub fn words_of(alloc: Global, text: &str) -> Result<Vec<String>, AllocError> {
    let mut words = Vec::new(alloc);
    for word in text.split(' ') {
        words.push(word.to_string(alloc)?)?;
    }
    Ok(words)
}

/// Parameters that are words with a blank between them.
pub fn params_of(
    alloc: Global,
    checked: &Checked,
    schema: &Schema,
    text: &str,
) -> Result<Params, ParamFault>
    ensures { IfOk result (λ params. IsCheckedFor checked.now schema.now → AreParamsFor checked.now schema.now params) }
{
    let words = words_of(alloc, text)?;
    params_of_words(alloc, checked, schema, words.as_slice())
}
