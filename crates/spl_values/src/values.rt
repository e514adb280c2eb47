//! Values of columns and their codes.
ghost use Rattle.std.specs.Prelude.{◌≡◌, ◌≢◌, ◌<◌, ◌^◌, ◌↔◌, IsTrue, MatchOption};
ghost use Rattle.spl_values.specs.Kinds.{is_kind, Fits};
ghost use Rattle.spl_values.specs.Codes.{code_of, value_with};
ghost use Rattle.spl_values.specs.declared.values.Value.{Value as AnyValue};

use crate::kept_texts;
use crate::kinds::ColumnType;

/// A value of a column.
#[derive(Clone, Copy, Debug, PartialEq, Eq)]
pub enum Value {
    /// A number, of a `ColumnType::Uint`.
    Number(u64),
    /// A text, of a `ColumnType::Text`: its bytes padded with 0 at the end to 16 bytes, read as a
    /// number with the first byte highest.
    Text(u128),
    /// The place of a label, from 0, of a `ColumnType::Enum`.
    Label(u32),
}

/// Why a text is no value of a column.
#[derive(Clone, Copy, Debug, PartialEq, Eq)]
pub enum ValueFault {
    /// It isn't one or more decimal digits.
    NotANumber,
    /// The number needs more bits than the column has.
    TooLarge,
    /// It has that many bytes, more than the column takes.
    TooLong(u64),
    /// The first byte that isn't printable ASCII stands there, from 0.
    BadByte(u64),
    /// It is none of the column's labels.
    NoSuchLabel,
}

/// Whether a column of that type takes the value.
pub fn fits(kind: &ColumnType, value: Value) -> bool
    requires { IsTrue (is_kind kind.now) }
    ensures { IsTrue result ↔ Fits kind.now value }
{
    match (kind, value) {
        (ColumnType::Uint(bits), Value::Number(number)) => *bits == 64 || number < 1 << *bits,
        (ColumnType::Text(bytes), Value::Text(kept)) => kept_texts::is_text(*bytes, kept),
        (ColumnType::Enum(labels), Value::Label(place)) => {
            (place as usize) < labels.as_slice().len()
        }
        _ => false,
    }
}

/// The code of a value: the number itself, the text padded to the column's bytes, or the label's
/// place. Codes keep the order of the values, and different values have different codes.
pub fn encode(kind: &ColumnType, value: Value) -> u128
    requires typed { IsTrue (is_kind kind.now) }
    requires fits { Fits kind.now value }
    ensures { result ≡ code_of kind.now value }
{
    match (kind, value) {
        (_, Value::Number(number)) => number as u128,
        (ColumnType::Text(bytes), Value::Text(kept)) => kept >> (8 * (16 - *bytes)),
        (_, Value::Text(kept)) => kept,
        (_, Value::Label(place)) => place as u128,
    }
}

/// The only value of the column that may have that code; `None` where it is too large for a value.
fn candidate(kind: &ColumnType, code: u128) -> Option<Value>
    requires { IsTrue (is_kind kind.now) }
    ensures { MatchOption result
        (¬ (Fits kind.now (value_with kind.now code)))
        (λ value. value ≡ value_with kind.now code) }
{
    match kind {
        ColumnType::Uint(_) => Some(Value::Number(u64::try_from(code).ok()?)),
        ColumnType::Text(bytes) => Some(Value::Text(code.checked_mul(1 << (8 * (16 - *bytes)))?)),
        ColumnType::Enum(_) => Some(Value::Label(u32::try_from(code).ok()?)),
    }
}

/// The value with that code; `None` where no value of the column has it.
pub fn decode(kind: &ColumnType, code: u128) -> Option<Value>
    requires { IsTrue (is_kind kind.now) }
    ensures { MatchOption result
        ((value : AnyValue) → Fits kind.now value → code_of kind.now value ≢ code)
        (λ value. Fits kind.now value × (code_of kind.now value ≡ code)) }
{
    let value = candidate(kind, code)?;
    if fits(kind, value) { Some(value) } else { None }
}
