//! What a key frame holds, and its digest.
ghost use Rattle.std.specs.Prelude.{◌≡◌};
ghost use Rattle.sha2.specs.Sha256.{sha256};

use crate::keys::Keys;
use frame_fields::digest_of;
use spl_values::{Bytes, Shape};
use spl_words::Provider;

/// What one provider is sent for one round of a query.
#[derive(Debug, Drop)]
pub struct KeyFrame {
    pub session: u128,
    /// 1 or 2.
    pub round: u32,
    pub provider: Provider,
    /// The query's text, with its question marks: 1 to 4,096 printable ASCII bytes.
    pub query: Bytes,
    /// The shape of the table that is asked.
    pub shape: Shape,
    /// 1 to 512 keys, each of 1 to 128 levels.
    pub keys: Keys,
}

/// The SHA-256 (FIPS 180-4) of a whole key frame, its own digest included, by which the answer to it is told from others.
/// Takes no memory.
pub fn frame_digest(bytes: &[u8]) -> [u8; 32]
    ensures { result ≡ sha256 bytes.now }
{
    digest_of(bytes)
}
