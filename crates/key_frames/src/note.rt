//! What a note holds.
use spl_values::{Bytes, Shape};
use spl_words::Numbers;

/// What a client keeps of a round. It is the client's secret, since it holds the query's parameters.
#[derive(Debug, Drop)]
pub struct Note {
    pub session: u128,
    /// 1 or 2.
    pub round: u32,
    /// The query's text, with its question marks: 1 to 4,096 printable ASCII bytes.
    pub query: Bytes,
    /// The shape of the table that is asked.
    pub shape: Shape,
    /// The code of each parameter, 1 to 255 of them.
    pub params: Numbers,
    /// The SHA-256 of the whole key frame of provider Zero.
    pub key_zero: [u8; 32],
    /// The SHA-256 of the whole key frame of provider One.
    pub key_one: [u8; 32],
    /// In round 1 only zeros; in round 2 the digest of the table that the answers of round 1 were over.
    pub table: [u8; 32],
}
