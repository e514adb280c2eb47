//! The intervals of joined keys that branches allow, and their slots.
ghost use Rattle.std.specs.Prelude.{◌≡◌, ◌≤◌, ◌<◌, ◌+◌, ◌*◌, ◌^◌, length, IfSome, All, option_map};
ghost use Rattle.std.specs.List.{AllZip};
ghost use Rattle.spl_values.specs.Tables.{key_bits};
ghost use Rattle.query_reader.specs.Accepted.{IsCheckedFor};
ghost use Rattle.query_reader.specs.Matching.{branch_params};
ghost use Rattle.query_reader.specs.Params.{AreParamsFor, HasBits, branch_columns};
ghost use Rattle.private_plan.specs.Branches.{raised, span_between, branch_span as span_of_branch, branch_spans as spans_of_branches};
ghost use Rattle.private_plan.specs.Slots.{slots_of};

use crate::columns::column_bits;
use arrayvec::ArrayVec;
use interval_keys::{Interval, normalise_intervals};
use query_reader::{Checked, Params};
use spl_values::{Schema, with_code};

/// The numbers from one to another, or none where they are crossed.
fn between(lo: u128, hi: u128) -> Option<Interval>
    ensures { result ≡ span_between lo hi }
{
    if lo <= hi {
        Some(Interval { lo, hi })
    } else {
        None
    }
}

/// An interval of numbers of so many bits, with a code before each of them.
fn behind(code: u128, bits: u32, span: Option<Interval>) -> Option<Interval>
    requires bits { bits ≤ 128 }
    requires fits { IfSome span (λ s. code * 2 ^ bits + s.hi < 2 ^ 128) }
    ensures { result ≡ option_map (raised (code * 2 ^ bits)) span }
{
    match span {
        None => None,
        Some(span) => Some(Interval {
            lo: with_code(code, bits, span.lo),
            hi: with_code(code, bits, span.hi),
        }),
    }
}

/// The joined keys that a branch allows: the codes of its equalities one after another, and behind
/// them its range.
fn branch_span(schema: &Schema, places: &[u32], range: bool, params: &[u128]) -> Option<Interval>
    requires some { 1 ≤ length places.now }
    requires columns { All (λ place. place < length schema.now.columns) places.now }
    requires bits { key_bits schema.now.columns places.now ≤ 128 }
    requires below { AllZip (HasBits schema.now.columns) (branch_columns places.now range) params.now }
    requires enough { length places.now ≤ length params.now }
    ensures { result ≡ span_of_branch schema.now.columns places.now range params.now }
{
    // From the last column to the first, each code is put before what is behind it.
    let last = places.len() - 1;
    let mut span = between(params[last], params[params.len() - 1]);
    let mut bits = column_bits(schema, places[last]);
    for turn in 0..last {
        let column = last - 1 - turn;
        span = behind(params[column], bits, span);
        bits += column_bits(schema, places[column]);
    }
    span
}

/// How many parameters a branch has.
fn params_of_branch(places: &[u32], range: bool) -> usize
    requires { length places.now < 2 ^ 63 }
    ensures { result ≡ branch_params places.now range }
{
    if range {
        places.len() + 1
    } else {
        places.len()
    }
}

/// The intervals of the branches, each with its own parameters.
fn branch_spans(
    checked: &Checked,
    schema: &Schema,
    params: &[u128],
) -> ArrayVec<Option<Interval>, 8>
    requires accepted { IsCheckedFor checked.now schema.now }
    requires params { AreParamsFor checked.now schema.now params.now }
    ensures spans { result.items ≡ spans_of_branches schema.now.columns checked.now.branches checked.now.columns checked.now.range params.now }
    ensures count { length result.items ≡ checked.now.branches }
{
    checked.query.facts();
    let places = checked.columns.as_slice();
    let each = params_of_branch(places, checked.range);
    let mut spans = ArrayVec::new();
    let mut rest = params;
    for _ in 0..checked.branches {
        let (own, more) = rest.split_at(each);
        spans.push(branch_span(schema, places, checked.range, own));
        rest = more;
    }
    spans
}

/// The slots of a query with these parameters: what its branches allow, as disjoint intervals of
/// joined keys in rising order, and then empty ones up to the number of branches.
pub fn slots(checked: &Checked, schema: &Schema, params: &Params) -> ArrayVec<Option<Interval>, 8>
    requires accepted { IsCheckedFor checked.now schema.now }
    requires params { AreParamsFor checked.now schema.now params.now }
    ensures slots { result.items ≡ slots_of checked.now schema.now.columns params.now }
    // Each slot holds a number, and its numbers have no more than the bits of the joined key.
    ensures fits { All (λ slot. IfSome slot (λ s. (s.lo ≤ s.hi) × (s.hi < 2 ^ checked.now.bits))) result.items }
{
    checked.query.facts();
    let spans = branch_spans(checked, schema, params.as_slice());
    normalise_intervals(spans.as_slice())
}
