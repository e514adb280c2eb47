//! Column types.
ghost use Rattle.std.specs.Prelude.{◌≡◌, IsTrue};
ghost use Rattle.std.specs.List.{list_all, list_any};
ghost use Rattle.std.specs.Str.{bytes_eq};
ghost use Rattle.spl_values.specs.Names.{is_label, is_distinct};
ghost use Rattle.spl_values.specs.Kinds.{is_kind, bits_of};

use crate::lists::{Labels, Name};
use crate::names::is_label;

/// The most labels of a type.
pub(crate) const MAX_LABELS: usize = 64;

/// The type of a column.
#[derive(Clone, Debug, Drop, PartialEq)]
pub enum ColumnType {
    /// Whole numbers of that many bits, 1 to 64.
    Uint(u32),
    /// Printable ASCII texts of at most that many bytes, 1 to 16.
    Text(u32),
    /// One of these labels, of which there are 1 to 64.
    Enum(Labels),
}

/// Whether no two labels are the same.
fn are_distinct(labels: &[Name]) -> bool
    ensures { result ≡ is_distinct labels.now }
{
    for (place, label) in labels.iter().enumerate() {
        if contains(&labels[place + 1..], label) {
            return false;
        }
    }
    true
}

fn contains(labels: &[Name], label: &Name) -> bool
    ensures { result ≡ list_any (bytes_eq label.now) labels.now }
{
    labels.iter().any(|other| label == other)
}

fn are_labels(labels: &[Name]) -> bool
    ensures { result ≡ list_all is_label labels.now }
{
    labels.iter().all(|label| is_label(label.as_bytes()))
}

/// Whether a column may have that type: a number of bits from 1 to 64, a number of bytes from 1 to
/// 16, or 1 to 64 labels that differ.
pub fn is_kind(kind: &ColumnType) -> bool
    ensures { result ≡ is_kind kind.now }
{
    match kind {
        ColumnType::Uint(bits) => *bits >= 1 && *bits <= 64,
        ColumnType::Text(bytes) => *bytes >= 1 && *bytes <= 16,
        ColumnType::Enum(labels) => {
            let labels = labels.as_slice();
            labels.len() >= 1
                && labels.len() <= MAX_LABELS
                && are_labels(labels)
                && are_distinct(labels)
        }
    }
}

/// The bits of a column's codes, 1 to 128.
pub fn bits(kind: &ColumnType) -> u32
    requires { IsTrue (is_kind kind.now) }
    ensures { result ≡ bits_of kind.now }
{
    match kind {
        ColumnType::Uint(bits) => *bits,
        ColumnType::Text(bytes) => 8 * *bytes,
        ColumnType::Enum(labels) => match labels.as_slice().len() {
            0..=2 => 1,
            3..=4 => 2,
            5..=8 => 3,
            9..=16 => 4,
            17..=32 => 5,
            _ => 6,
        },
    }
}
