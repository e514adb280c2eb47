//! The aligned ranges that together make up an interval: each has a power of two of numbers, from a
//! multiple of that power on, and is as large as the interval and a highest level allow. And the cells of
//! the ranges of one level, made from those of the level below.
#![tactic(auto)]

mod covers;
pub mod laws;
mod lifting;
mod ranges;

pub use covers::cover;
pub use lifting::lift;
pub use ranges::Range;
