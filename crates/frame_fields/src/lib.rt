//! The fields that all frames share: reading them from the front with the first fault that is met, and writing
//! them one behind the other. The proofs here tie each field's reading to its one spelling.
#![tactic(auto)]

mod reading;
mod typed;
mod writing;

pub use reading::{
    be16, be32, be64, be128, byte, digest, digest_of, magic, provider_field, start, take, take32,
    version, within, within16, within32,
};
pub use typed::{see_bytes, see_number, see_slice, see_words};
pub use writing::{provider_byte_of, put, put_bytes, put_provider, put8, put16, put64, put128};
