//! What an answer frame holds.
use spl_words::{Provider, Words};

/// A provider's answer to one key frame.
#[derive(Debug, Drop)]
pub struct AnswerFrame {
    pub session: u128,
    /// 1 or 2.
    pub round: u32,
    pub provider: Provider,
    /// The SHA-256 of the whole key frame that it answers.
    pub key: [u8; 32],
    /// The digest of the table that it answers over.
    pub table: [u8; 32],
    /// 1 to 65,536 words.
    pub words: Words,
}
