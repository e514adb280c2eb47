//! Where two things that have to agree do not.
use crate::Provider;

/// The first field in which two frames, or a frame and what was asked for, differ.
///
/// Of two values the wanted one comes first: the note's, the command's or the expected one. Of two
/// answers neither is wanted: the value of Zero's comes first.
#[derive(Clone, Copy, Debug, PartialEq, Eq)]
pub enum Differ {
    /// The sessions, of a note and an answer.
    Session(u128, u128),
    /// The rounds, of a note and an answer.
    Round(u32, u32),
    /// The providers, of a command and its key frame.
    Provider(Provider, Provider),
    /// The digests of the key frame of this provider, of a note and an answer.
    Key(Provider, [u8; 32], [u8; 32]),
    /// The digests of the table, of Zero's answer and One's, or of a note and Zero's answer.
    Table([u8; 32], [u8; 32]),
    /// The numbers of words, the expected one and an answer's.
    Words(u32, u32),
    /// The shapes differ first in this line.
    ShapeLine(u32),
    /// The layouts of the keys differ first at this key.
    Layout(u32),
}
