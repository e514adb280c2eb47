//! Parameters as codes and as words.
ghost use Rattle.std.specs.Prelude.{map, IfOk};
ghost use Rattle.std.specs.String.{string_bytes};
ghost use Rattle.query_reader.specs.Accepted.{IsCheckedFor};
ghost use Rattle.query_reader.specs.Params.{Answers, AreParamsFor, params_of_words as params_in_words};
ghost use Rattle.judged_queries.specs.Codes.{codes_in};

use query_reader::{Checked, ParamFault, Params, params_of_codes, params_of_words};
use spl_values::Schema;
use std::alloc::Global;

/// The parameters of an accepted query, given as codes.
///
/// # Errors
///
/// `Count` where their number isn't that of the question marks, or these are over 255; else
/// `BadCode` at the first that is the code of no value of its column; `OutOfMemory`.
pub fn judge_codes(
    alloc: Global,
    checked: &Checked,
    schema: &Schema,
    codes: &[u128],
) -> Result<Params, ParamFault>
    requires { IsCheckedFor checked.now schema.now }
    // Those codes, or the first fault, unless memory runs out.
    ensures gives { Answers result (codes_in checked.now.query schema.now codes.now) }
    ensures known { IfOk result (λ params. AreParamsFor checked.now schema.now params) }
{
    let _ = &schema.columns;
    params_of_codes(alloc, checked, schema, codes)
}

/// The parameters of an accepted query, given as words, as a user writes them.
///
/// # Errors
///
/// `Count` where their number isn't that of the question marks, or these are over 255; else
/// `Value` at the first word that is no value of its column; `OutOfMemory`.
pub fn judge_words(
    alloc: Global,
    checked: &Checked,
    schema: &Schema,
    words: &[String],
) -> Result<Params, ParamFault>
    requires { IsCheckedFor checked.now schema.now }
    // The codes of the words, or the first fault, unless memory runs out.
    ensures gives { Answers result (params_in_words checked.now.query schema.now (map string_bytes words.now)) }
    ensures known { IfOk result (λ params. AreParamsFor checked.now schema.now params) }
{
    params_of_words(alloc, checked, schema, words)
}
