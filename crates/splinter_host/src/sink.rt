//! The output of the system.
ghost use Rattle.std.specs.Prelude.{◌≡◌, None};

use spl_outside::{Sink, Stop};
use std::alloc::Global;

/// Standard output.
#[derive(Drop)]
pub struct HostSink<R> {
    rt: R,
    faults: u64,
}

impl<R> HostSink<R> {
    /// The standard output of the runtime, before any fault.
    pub fn new(rt: R) -> Self
        ensures { result.faults ≡ 0 }
    {
        HostSink { rt, faults: 0 }
    }
}

impl<R: Print> Sink for HostSink<R> {
    ghost written = { λ _. None };

    ghost faults = { λ s. s.faults };

    fn write(&mut self, _alloc: Global, bytes: &[u8]) -> Result<(), Stop> {
        match self.rt.write_all(bytes) {
            Ok(()) => Ok(()),
            Err(_) => {
                self.faults = self.faults.saturating_add(1);
                Err(Stop::Failed)
            }
        }
    }
}
