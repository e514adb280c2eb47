//! Key frames, which carry a query's keys to a provider, and notes, by which the client keeps what it needs to read
//! the answers: their fields, and their one spelling.
#![tactic(auto)]

mod frame;
mod frame_reading;
mod frame_writing;
mod key_reading;
mod key_writing;
mod keys;
pub mod laws;
mod note;
mod note_reading;
mod note_writing;
mod texts;
mod trees;

pub use frame::{KeyFrame, frame_digest};
pub use frame_reading::read_key_frame;
pub use frame_writing::write_key_frame;
pub use keys::{Key, Keys};
pub use note::Note;
pub use note_reading::read_note;
pub use note_writing::write_note;
pub use trees::tree_length;
