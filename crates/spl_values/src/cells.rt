//! Values as texts.
ghost use Rattle.std.specs.Prelude.{◌≡◌, ◌≤◌, ◌<◌, length, not, IsTrue, IfOk, IfSome, position};
ghost use Rattle.std.specs.Char.{is_ascii_digit};
ghost use Rattle.std.specs.List.{list_all};
ghost use Rattle.std.specs.Str.{bytes_eq};
ghost use Rattle.spl_values.specs.Kinds.{is_kind, is_printable, Fits};
ghost use Rattle.spl_values.specs.CellTexts.{value_of_text, text_of_value, number_of_text, number_value, is_number, text_value, label_value};

use crate::kept_texts;
use crate::kinds::ColumnType;
use crate::lists::{Bytes, Labels, Name};
use crate::values::{Value, ValueFault};
use std::alloc::{AllocError, Global};

/// Whether a byte is a decimal digit.
fn is_digit(byte: u8) -> bool
    ensures { result ≡ is_ascii_digit byte }
{
    byte.is_ascii_digit()
}

fn all_digits(text: &[u8]) -> bool
    ensures { result ≡ list_all is_ascii_digit text.now }
{
    text.iter().all(|byte| is_digit(*byte))
}

/// Whether a text is one or more decimal digits.
pub fn is_number(text: &[u8]) -> bool
    ensures { result ≡ is_number text.now }
{
    !text.is_empty() && all_digits(text)
}

/// The number that a text of decimal digits says, if it is below 2^64.
pub fn number(text: &[u8]) -> Result<u64, ValueFault>
    ensures { result ≡ number_of_text 64 text.now }
{
    if !is_number(text) {
        return Err(ValueFault::NotANumber);
    }
    match str::from_utf8(text) {
        Ok(digits) => match digits.parse::<u64>() {
            Ok(number) => Ok(number),
            Err(_) => Err(ValueFault::TooLarge),
        },
        Err(_) => unreachable!("digits are text"),
    }
}

/// The value of a text in a column of numbers of that many bits.
fn number_in(bits: u32, text: &[u8]) -> Result<Value, ValueFault>
    requires { (1 ≤ bits) × (bits ≤ 64) }
    ensures { result ≡ number_value (number_of_text bits text.now) }
{
    let number = number(text)?;
    if bits == 64 || number < 1 << bits {
        Ok(Value::Number(number))
    } else {
        Err(ValueFault::TooLarge)
    }
}

/// The place of the first byte that isn't printable.
fn first_unprintable(text: &[u8]) -> Option<usize>
    ensures { result ≡ position (λ b. not (is_printable b)) text.now }
{
    text.iter()
        .position(|byte| !kept_texts::is_printable(*byte))
}

/// The value of a text in a column of texts of at most so many bytes.
fn text_in(bytes: u32, text: &[u8]) -> Result<Value, ValueFault>
    requires { bytes ≤ 16 }
    ensures { result ≡ text_value bytes text.now }
{
    if text.len() > bytes as usize {
        return Err(ValueFault::TooLong(text.len() as u64));
    }
    match first_unprintable(text) {
        Some(place) => Err(ValueFault::BadByte(place as u64)),
        None => Ok(Value::Text(kept_texts::keep(text))),
    }
}

/// The place of a label.
fn place_of(labels: &[Name], text: &[u8]) -> Option<usize>
    ensures place { result ≡ position (λ label. bytes_eq label text.now) labels.now }
    ensures within { IfSome result (λ place. place < length labels.now) }
{
    labels.iter().position(|label| label.as_bytes() == text)
}

/// The value of a text in a column of these labels.
fn label_in(labels: &Labels, text: &[u8]) -> Result<Value, ValueFault>
    requires { length labels.now ≤ 64 }
    ensures { result ≡ label_value (position (λ label. bytes_eq label text.now) labels.now) }
{
    match place_of(labels.as_slice(), text) {
        Some(place) => Ok(Value::Label(place as u32)),
        None => Err(ValueFault::NoSuchLabel),
    }
}

/// The value of a column that a text says, or why it says none.
///
/// Numbers are decimal digits, and leading zeros are taken. A text is too long before any of its
/// bytes is judged.
pub fn value_of(kind: &ColumnType, text: &[u8]) -> Result<Value, ValueFault>
    requires { IsTrue (is_kind kind.now) }
    ensures value { result ≡ value_of_text kind.now text.now }
    ensures fits { IfOk result (Fits kind.now) }
{
    match kind {
        ColumnType::Uint(bits) => number_in(*bits, text),
        ColumnType::Text(bytes) => text_in(*bytes, text),
        ColumnType::Enum(labels) => label_in(labels, text),
    }
}

/// A value as a text: a number in decimal, without leading zeros, a text as its bytes, and a label.
/// The column reads that text as the same value.
pub fn print_value(alloc: Global, kind: &ColumnType, value: Value) -> Result<Bytes, AllocError>
    requires typed { IsTrue (is_kind kind.now) }
    requires fits { Fits kind.now value }
    ensures { IfOk result (λ text. text ≡ text_of_value kind.now value) }
{
    match (kind, value) {
        (ColumnType::Uint(_), Value::Number(number)) => {
            let digits = number.to_string(alloc)?;
            Ok(Bytes::from_vec(digits.into_bytes()))
        }
        (ColumnType::Text(_), Value::Text(kept)) => {
            let text = kept_texts::bytes_of(alloc, kept)?;
            Ok(Bytes::from_vec(text))
        }
        (ColumnType::Enum(labels), Value::Label(place)) => {
            let label = &labels.as_slice()[place as usize];
            let text = label.as_bytes().to_vec(alloc)?;
            Ok(Bytes::from_vec(text))
        }
        _ => unreachable!("the value fits the column"),
    }
}
