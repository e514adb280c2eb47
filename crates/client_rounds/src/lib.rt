//! The client's half of a session: the words that it draws, the key frames of a round, the note that it keeps, and what
//! the note and two answers come to.
#![tactic(auto)]

mod draws;
mod faults;
mod finishing;
mod judging;
pub mod laws;
mod roots;
mod rounds;
mod starting;

pub use draws::draw_roots;
pub use faults::{AskFault, Source};
pub use finishing::{finish, result_text};
pub use judging::{Judged, judge_answer, judge_note};
pub use roots::Roots;
pub use rounds::{RoundHead, round_frames};
pub use starting::{RoundOut, start};
