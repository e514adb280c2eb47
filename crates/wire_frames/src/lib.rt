//! Frames on a wire: the four bytes of a length, the highest first, and so many bytes. Requests and replies are such.
#![tactic(auto)]

ghost use Rattle.std.specs.Prelude.{◌≡◌, ◌<◌, ◌^◌, ◌+◌, ◌-◌, [], ◌∷◌, ◌++◌, length, IfOk};
ghost use Rattle.std.specs.Int.{w32, to_be_bytes};

use std::alloc::{AllocError, Global};

mod door_frames;
pub mod laws;
mod link_frames;

pub use door_frames::{fill_from_door, send_at_door};
pub use link_frames::{fill_from_link, send_over_link};

/// The most bytes of a request.
pub const LONGEST_REQUEST: usize = 4_194_304;

/// The most bytes of a reply's body.
pub const LONGEST_BODY: usize = 4_194_305;

/// The length that four bytes say.
pub fn length_in(bytes: [u8; 4]) -> u32
    ensures { to_be_bytes w32 result ≡ bytes }
{
    u32::from_be_bytes(bytes)
}

/// The length of a byte and so many more, and that byte.
fn head_of(first: u8, rest: u32) -> [u8; 5]
    requires { rest < 2 ^ 32 - 1 }
    ensures { result ≡ to_be_bytes w32 (rest + 1) ++ first ∷ [] }
{
    let [a, b, c, d] = (rest + 1).to_be_bytes();
    [a, b, c, d, first]
}

/// Room for so many bytes.
pub fn room_of(alloc: Global, size: usize) -> Result<Vec<u8>, AllocError>
    ensures { IfOk result (λ room. length room.items ≡ size) }
{
    vec![in alloc; 0; size]
}
