//! Why a provider refuses.
ghost use Rattle.std.specs.Prelude.{◌≡◌};
ghost use Rattle.provider_core.specs.declared.fault.ProviderFault.TheVariants as fault;

use query_reader::QueryFault;
use spl_words::{FrameFault, Provider};
use std::alloc::AllocError;
use sum_bounds::AtRow;

/// Why a provider doesn't answer a key frame. Of several reasons the first in this order is told.
#[derive(Debug, Drop)]
pub enum ProviderFault {
    /// The bytes are no key frame.
    Frame(FrameFault),
    /// The frame is for this provider, the other one.
    WrongProvider(Provider),
    /// The frame's shape isn't the table's: the first line, from 1, at which their canonical texts differ.
    ShapeDiffers(u32),
    /// The frame's query isn't read, or isn't accepted for the table.
    Query(QueryFault),
    /// The first key, from 0, that isn't of the kind and the depth of its tree in the plan's round. A key that is missing
    /// or too many counts at its place, and each key is too many where the plan has no such round.
    WrongLayout(u32),
    /// The first column under SUM or AVG whose sum over all rows isn't below 2^64, and the row where it first isn't.
    SumBound(u32, AtRow),
    OutOfMemory,
}

impl From<AllocError> for ProviderFault {
    ghost from_gives = { λ _ e. e ≡ fault.OutOfMemory };

    fn from(_: AllocError) -> Self {
        ProviderFault::OutOfMemory
    }
}
