//! Why words form no command.
ghost use Rattle.std.specs.Prelude.{◌≡◌};
ghost use Rattle.command_words.specs.declared.fault.FormFault.TheVariants as fault;

use std::alloc::AllocError;

/// Why words form no command.
#[derive(Clone, Copy, Debug, PartialEq, Eq)]
pub enum FormFault {
    /// They have the form of none.
    Usage,
    /// There was not enough memory to read them.
    OutOfMemory,
}

impl From<AllocError> for FormFault {
    ghost from_gives = { λ _ e. e ≡ fault.OutOfMemory };

    fn from(_: AllocError) -> Self {
        FormFault::OutOfMemory
    }
}
