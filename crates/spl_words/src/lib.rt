//! The words that all crates share: the two providers, arithmetic modulo 2^64, small list types,
//! the secret of a tree, functions that give a share for each number, and a cursor over the fields
//! of a frame.
#![tactic(auto)]

mod arithmetic;
mod differ;
mod fault;
mod fields;
mod lists;
mod provider;
mod secret;
mod share;

pub use arithmetic::{below, minus, plus, signed, times};
pub use differ::Differ;
pub use fault::FrameFault;
pub use fields::Fields;
pub use lists::{Numbers, Places, Words};
pub use provider::{Provider, other};
pub use secret::{KeySpec, TreeKind, TreeSecret};
pub use share::ShareFn;
