//! A link over TCP.
ghost use Rattle.std.specs.Prelude.{◌≡◌, None};

use crate::files::stop_of;
use crate::sockets::{connect, read_some, send_all};
use spl_outside::{Failed, Link, Stop};
use std::alloc::Global;
use std::net::Net;

/// A connection over TCP that this program opens.
///
/// A read, a send or the opening that has waited for a minute is a fault.
#[derive(Drop)]
pub struct TcpLink<R: Net> {
    rt: R,
    stream: Option<R::Stream>,
    faults: u64,
}

impl<R: Net> TcpLink<R> {
    /// Not connected, before any fault.
    pub fn new(rt: R) -> Self
        ensures { result.faults ≡ 0 }
    {
        TcpLink {
            rt,
            stream: None,
            faults: 0,
        }
    }
}

impl<R: Net> Link for TcpLink<R> {
    ghost told = { λ _. None };

    ghost faults = { λ s. s.faults };

    fn open(&mut self, _alloc: Global, address: &str) -> Result<(), Stop> {
        let stop = match connect(&self.rt, address) {
            Ok(stream) => {
                self.stream = Some(stream);
                return Ok(());
            }
            Err(error) => stop_of(error.kind()),
        };
        if stop == Stop::Failed {
            self.faults = self.faults.saturating_add(1);
        }
        Err(stop)
    }

    fn send(&mut self, _alloc: Global, bytes: &[u8]) -> Result<(), Stop> {
        match send_all(self.stream.as_mut(), bytes) {
            Ok(()) => Ok(()),
            Err(Failed) => {
                self.faults = self.faults.saturating_add(1);
                Err(Stop::Failed)
            }
        }
    }

    fn receive(&mut self, buf: &mut [u8]) -> Result<usize, Failed> {
        match read_some(self.stream.as_mut(), buf) {
            Ok(count) => Ok(count),
            Err(Failed) => {
                self.faults = self.faults.saturating_add(1);
                Err(Failed)
            }
        }
    }
}
