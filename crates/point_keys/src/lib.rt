//! Keys of point functions: two keys whose shares add to a word at one number, and to 0 at every
//! other. One key alone is made of seeds and corrections, whichever number it is.
#![tactic(auto)]

mod eval;
mod keys;
pub mod laws;
mod make;
mod share;

pub use eval::PointEval;
pub use keys::{Corrections, PointKey};
pub use make::make_point;
pub use share::point_share;
