//! Random words of the system.
ghost use Rattle.std.specs.Prelude.{◌≡◌, None};

use spl_outside::{Draw, Failed};
use std::random::RandomSource;

/// Words of the system's random source.
#[derive(Drop)]
pub struct HostDraw<R> {
    rt: R,
    faults: u64,
}

impl<R> HostDraw<R> {
    /// The random source of the runtime, before any fault.
    pub fn new(rt: R) -> Self
        ensures { result.faults ≡ 0 }
    {
        HostDraw { rt, faults: 0 }
    }
}

impl<R: RandomSource> Draw for HostDraw<R> {
    ghost words = { λ _. None };

    ghost faults = { λ s. s.faults };

    fn word(&mut self) -> Result<u64, Failed> {
        let mut bytes = [0; 8];
        match self.rt.fill_bytes(&mut bytes) {
            Ok(()) => Ok(u64::from_be_bytes(bytes)),
            Err(_) => {
                self.faults = self.faults.saturating_add(1);
                Err(Failed)
            }
        }
    }
}
