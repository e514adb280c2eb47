//! How the error of a step becomes that of the phases round it.
ghost use Rattle.std.specs.Prelude.{◌≡◌};
ghost use Rattle.splinter_status.specs.declared.stops.InputStop.TheVariants as input;
ghost use Rattle.splinter_status.specs.declared.stops.ReadStop.TheVariants as read;
ghost use Rattle.splinter_status.specs.Phases.{read_stop};
ghost use Rattle.splinter_status.specs.declared.stops.Stopped.TheVariants as stopped;

use crate::stops::{InputStop, ReadStop, Refusal, Stopped};
use spl_outside::Failed;
use std::alloc::AllocError;

impl From<AllocError> for ReadStop {
    ghost from_gives = { λ _ e. e ≡ read.OutOfMemory };

    fn from(_: AllocError) -> Self {
        ReadStop::OutOfMemory
    }
}

impl From<ReadStop> for InputStop {
    ghost from_gives = { λ s e. e ≡ read_stop s };

    fn from(stop: ReadStop) -> Self {
        match stop {
            ReadStop::Missing(name) => InputStop::Refused(Refusal::MissingFile(name)),
            ReadStop::TooLong(name) => InputStop::Refused(Refusal::FileTooLong(name)),
            ReadStop::Fault => InputStop::FileFault,
            ReadStop::OutOfMemory => InputStop::OutOfMemory,
        }
    }
}

impl From<Refusal> for InputStop {
    ghost from_gives = { λ r e. e ≡ input.Refused r };

    fn from(refusal: Refusal) -> Self {
        InputStop::Refused(refusal)
    }
}

impl From<InputStop> for Stopped {
    ghost from_gives = { λ s e. e ≡ stopped.Input s };

    fn from(stop: InputStop) -> Self {
        Stopped::Input(stop)
    }
}

impl From<Failed> for Stopped {
    ghost from_gives = { λ _ e. e ≡ stopped.DrawFault };

    fn from(_: Failed) -> Self {
        Stopped::DrawFault
    }
}

impl From<AllocError> for Stopped {
    ghost from_gives = { λ _ e. e ≡ stopped.OutOfMemory };

    fn from(_: AllocError) -> Self {
        Stopped::OutOfMemory
    }
}
