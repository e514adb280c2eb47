//! The codes of a query's parameters.
ghost use Rattle.std.specs.Prelude.{ℕ, ◌≡◌, ◌<◌, ◌≤◌, ◌++◌, length, map, IfOk, IfNone, IfSome, OnOk, IsTrue, slice_get, string_bytes};
ghost use Rattle.std.specs.List.{flat_map};
ghost use Rattle.spl_values.specs.Shapes.{ColumnParts};
ghost use Rattle.query_reader.specs.Params.{atom_marks as marks_of_atom, marks_of, count_fault, word_code as code_of_word, word_codes as codes_in_words, params_of_words as params_in_words, Answers, AreParamsFor, Counts, IsCodeAt, IsCodeIn, TakesCodes};
ghost use Rattle.query_reader.specs.Accepted.{IsCheckedFor};
ghost use Rattle.query_reader.specs.declared.params.ParamFault.TheVariants.{OutOfMemory as ParamOutOfMemory};

use crate::checked::Checked;
use crate::columns::place;
use crate::form::{atom_name, capped};
use query_parser::{Atom, Atoms, Query};
use spl_values::{Schema, ValueFault, decode, encode, value_of};
use std::alloc::{AllocError, AllocFailed, Global};
use std::marker::Model;

/// The codes of a query's parameters, one for each question mark.
#[derive(Debug, Drop)]
pub struct Params {
    codes: Vec<u128>,
}

impl Model for Params {
    ghost use Rattle.std.specs.Prelude.{List, ℕ};

    ghost Value = { List ℕ };

    ghost view = { λ list. list.codes.items };
}

impl Params {
    /// The list of these codes.
    pub fn from_vec(codes: Vec<u128>) -> Params
        ensures { result ≡ codes.items }
    {
        Params { codes }
    }

    /// The codes, in the order of the question marks.
    pub fn as_slice(&self) -> &[u128]
        ensures { result.now ≡ self.now }
    {
        self.codes.as_slice()
    }
}

/// Why parameters are refused.
#[derive(Debug, Drop)]
pub enum ParamFault {
    /// How many are needed, and how many there are. A query with over 255 question marks needs
    /// 256, whatever there are.
    Count(u32, u32),
    /// The first parameter that is no value of its column, from 0, and why.
    Value(u32, ValueFault),
    /// The first parameter, from 0, that is the code of no value of its column.
    BadCode(u32),
    OutOfMemory,
}

impl From<AllocError> for ParamFault {
    ghost from_gives = { λ _ e. e ≡ ParamOutOfMemory };

    fn from(_e: AllocError) -> ParamFault {
        ParamFault::OutOfMemory
    }
}

impl<T: Drop> From<AllocFailed<T>> for ParamFault {
    ghost from_gives = { λ _ e. e ≡ ParamOutOfMemory };

    fn from(_e: AllocFailed<T>) -> ParamFault {
        ParamFault::OutOfMemory
    }
}

fn atom_marks(schema: &Schema, marks: &mut Vec<u32>, atom: &Atom) -> Result<(), AllocError>
    ensures { IfOk result (λ _. marks.new.items ≡ marks.old.items ++ marks_of_atom schema.now atom.now) }
{
    let place = place(schema, atom_name(atom));
    match atom {
        Atom::Equal(_) => {
            marks.push(place)?;
        }
        Atom::Between(_) => {
            marks.push(place)?;
            marks.push(place)?;
        }
    }
    Ok(())
}

fn branch_marks(schema: &Schema, marks: &mut Vec<u32>, atoms: &[Atom]) -> Result<(), AllocError>
    ensures { IfOk result (λ _. marks.new.items ≡ marks.old.items ++ flat_map (marks_of_atom schema.now) atoms.now) }
{
    for atom in atoms {
        atom_marks(schema, marks, atom)?;
    }
    Ok(())
}

/// The places of the columns that the question marks stand for.
fn marks(alloc: Global, schema: &Schema, branches: &[Atoms]) -> Result<Vec<u32>, AllocError>
    ensures { IfOk result (λ marks. marks.items ≡ marks_of schema.now branches.now) }
{
    let mut marks = Vec::new(alloc);
    for branch in branches {
        branch_marks(schema, &mut marks, branch.as_slice())?;
    }
    Ok(marks)
}

/// The number of parameters is that of the question marks, which are at most 255.
fn check_count(marks: usize, had: usize) -> Result<(), ParamFault>
    ensures fault { Counts result (count_fault marks had) }
    ensures few { OnOk result (marks ≤ 255) }
    ensures same { OnOk result (marks ≡ had) }
{
    let given = capped(had);
    if marks > 255 {
        return Err(ParamFault::Count(256, given));
    }
    if marks != had {
        return Err(ParamFault::Count(marks as u32, given));
    }
    Ok(())
}

/// The code of the parameter of that number, which is a word.
fn word_code(schema: &Schema, number: u32, place: u32, word: &str) -> Result<u128, ParamFault>
    ensures { result ≡ code_of_word number (slice_get schema.now.columns place) word.now }
{
    match schema.columns.as_slice().get(place as usize) {
        None => Ok(0),
        Some(column) => match value_of(&column.kind, word.as_bytes()) {
            Ok(value) => Ok(encode(&column.kind, value)),
            Err(fault) => Err(ParamFault::Value(number, fault)),
        },
    }
}

/// The codes of as many words as there are places, or the first fault.
fn codes_at(
    alloc: Global,
    schema: &Schema,
    marks: &[u32],
    words: &[String],
) -> Result<Params, ParamFault>
    requires few { length marks.now ≤ 255 }
    requires same { length marks.now ≡ length words.now }
    ensures { Answers result (codes_in_words 0 schema.now marks.now (map string_bytes words.now)) }
{
    let mut codes = Vec::new(alloc);
    for (i, place) in marks.iter().enumerate() {
        codes.push(word_code(schema, i as u32, *place, words[i].as_str())?)?;
    }
    Ok(Params::from_vec(codes))
}

/// The codes of the parameters that are words.
fn codes_of_words(
    alloc: Global,
    query: &Query,
    schema: &Schema,
    words: &[String],
) -> Result<Params, ParamFault>
    ensures { Answers result (params_in_words query.now schema.now (map string_bytes words.now)) }
{
    let marks = marks(alloc, schema, query.branches.as_slice())?;
    check_count(marks.len(), words.len())?;
    codes_at(alloc, schema, &marks, words)
}

/// The codes of the parameters, given as words as a user writes them.
///
/// # Errors
///
/// `Count` where their number isn't that of the question marks, or these are over 255; else
/// `Value` at the first word that is no value of its column; `OutOfMemory`.
pub fn params_of_words(
    alloc: Global,
    checked: &Checked,
    schema: &Schema,
    words: &[String],
) -> Result<Params, ParamFault>
    // The codes of the words, or the first fault, unless memory runs out.
    ensures answers { Answers result (params_in_words checked.now.query schema.now (map string_bytes words.now)) }
    ensures known { IfOk result (λ params. IsCheckedFor checked.now schema.now → AreParamsFor checked.now schema.now params) }
{
    // What a query and a schema keep is known once they are read.
    checked.query.facts();
    let _ = &schema.columns;
    codes_of_words(alloc, &checked.query, schema, words)
}

/// Whether a value of the column at that place has the code.
fn is_code(schema: &Schema, place: u32, code: u128) -> bool
    ensures yes { IsTrue result → IsCodeIn (slice_get schema.now.columns place) code }
    ensures no { (IsTrue result → ⊥) → IsCodeIn (slice_get schema.now.columns place) code → ⊥ }
{
    match schema.columns.as_slice().get(place as usize) {
        None => true,
        Some(column) => decode(&column.kind, code).is_some(),
    }
}

/// The first code, from 0, that no value of the column at its place has.
fn first_bad_code(schema: &Schema, marks: &[u32], codes: &[u128]) -> Option<usize>
    requires { length marks.now ≡ length codes.now }
    ensures none { IfNone result ((k : ℕ) → k < length codes.now → IsCodeAt schema.now marks.now codes.now k) }
    ensures first { IfSome result (λ i. (i < length codes.now) × ((k : ℕ) → k < i → IsCodeAt schema.now marks.now codes.now k) × (IsCodeAt schema.now marks.now codes.now i → ⊥)) }
{
    for (i, place) in marks.iter().enumerate() {
        if !is_code(schema, *place, codes[i]) {
            return Some(i);
        }
    }
    None
}

/// The parameters that are codes, where each is one.
fn codes_of_codes(
    alloc: Global,
    query: &Query,
    schema: &Schema,
    codes: &[u128],
) -> Result<Params, ParamFault>
    ensures { TakesCodes result query.now schema.now codes.now }
{
    let marks = marks(alloc, schema, query.branches.as_slice())?;
    check_count(marks.len(), codes.len())?;
    match first_bad_code(schema, &marks, codes) {
        Some(i) => Err(ParamFault::BadCode(i as u32)),
        None => Ok(Params::from_vec(codes.to_vec(alloc)?)),
    }
}

/// The parameters, given as codes.
///
/// # Errors
///
/// `Count` where their number isn't that of the question marks, or these are over 255; else
/// `BadCode` at the first that is the code of no value of its column; `OutOfMemory`.
pub fn params_of_codes(
    alloc: Global,
    checked: &Checked,
    schema: &Schema,
    codes: &[u128],
) -> Result<Params, ParamFault>
    // Those codes, or the first fault, unless memory runs out.
    ensures takes { TakesCodes result checked.now.query schema.now codes.now }
    ensures known { IfOk result (λ params. IsCheckedFor checked.now schema.now → AreParamsFor checked.now schema.now params) }
{
    // What a query and a schema keep is known once they are read.
    checked.query.facts();
    let _ = &schema.columns;
    codes_of_codes(alloc, &checked.query, schema, codes)
}
