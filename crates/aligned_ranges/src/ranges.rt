//! Aligned ranges of numbers.

/// The numbers from `index * 2^level` to `(index + 1) * 2^level - 1`.
#[derive(Clone, Copy, Debug, Default, PartialEq, Eq)]
pub struct Range {
    pub level: u32,
    pub index: u128,
}
