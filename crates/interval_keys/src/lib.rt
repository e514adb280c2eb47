//! Keys of threshold functions, two keys whose shares add to a word at each number up to one; the
//! two thresholds that stand for an interval; and the disjoint intervals of a query's branches.
#![tactic(auto)]

mod eval;
mod interval;
mod keys;
pub mod laws;
mod make;
mod share;
mod slots;

pub use eval::ThresholdEval;
pub use interval::{Interval, interval_secrets};
pub use keys::{ThresholdKey, ThresholdLevel, ThresholdLevels};
pub use make::{level_for, make_threshold, target_of};
pub use share::{level_word_of, threshold_share};
pub use slots::normalise_intervals;
