//! Why bytes are no frame.
ghost use Rattle.std.specs.Prelude.{◌≡◌};
ghost use Rattle.spl_words.specs.declared.fault.FrameFault.TheVariants.{OutOfMemory};

use std::alloc::{AllocError, AllocFailed};

/// The first fault that a reader of a frame met.
#[derive(Clone, Copy, Debug, PartialEq, Eq)]
pub enum FrameFault {
    /// A field needs this many bytes from the front, and there are only so many: needed, had.
    Short(u64, u64),
    /// The first bytes aren't those of this kind of frame.
    BadMagic,
    /// The frame's version is this one, which isn't read here.
    BadVersion(u8),
    /// The field, or the byte of a text, at this offset has no value that a frame may hold.
    BadField(u64),
    /// There are more bytes than a frame may have.
    TooLarge,
    /// Bytes follow the frame's end, which is at this offset.
    Trailing(u64),
    /// The digest in the frame isn't that of its bytes: found, computed.
    BadDigest([u8; 32], [u8; 32]),
    /// There was no memory for it.
    OutOfMemory,
}

impl From<AllocError> for FrameFault {
    ghost from_gives = { λ _ e. e ≡ OutOfMemory };

    fn from(_: AllocError) -> Self {
        FrameFault::OutOfMemory
    }
}

impl<T: Drop> From<AllocFailed<T>> for FrameFault {
    ghost from_gives = { λ _ e. e ≡ OutOfMemory };

    fn from(_: AllocFailed<T>) -> Self {
        FrameFault::OutOfMemory
    }
}
