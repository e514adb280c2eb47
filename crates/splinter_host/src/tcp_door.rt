//! A door over TCP.
ghost use Rattle.std.specs.Prelude.{◌≡◌, None, is_some};

use crate::files::stop_of;
use crate::sockets::{accept, read_some, send_all};
use spl_outside::{Door, Failed, Stop};
use std::alloc::Global;
use std::net::{Net, TcpListener};

/// A place where connections come in over TCP.
///
/// A read or a send that has waited for a minute is a loss. The wait for a connection has no limit.
#[derive(Drop)]
pub struct TcpDoor<R: Net> {
    rt: R,
    listener: Option<R::Listener>,
    stream: Option<R::Stream>,
    faults: u64,
    losses: u64,
}

impl<R: Net> TcpDoor<R> {
    /// Not open, before any fault or loss.
    pub fn new(rt: R) -> Self
        ensures faults { result.faults ≡ 0 }
        ensures losses { result.losses ≡ 0 }
    {
        TcpDoor {
            rt,
            listener: None,
            stream: None,
            faults: 0,
            losses: 0,
        }
    }
}

impl<R: Net> Door for TcpDoor<R> {
    ghost told = { λ _. None };

    ghost present = { λ s. is_some s.stream };

    ghost faults = { λ s. s.faults };

    ghost losses = { λ s. s.losses };

    fn open(&mut self, _alloc: Global, address: &str) -> Result<(), Stop> {
        let stop = match TcpListener::bind(&self.rt, address) {
            Ok(listener) => {
                self.listener = Some(listener);
                return Ok(());
            }
            Err(error) => stop_of(error.kind()),
        };
        if stop == Stop::Failed {
            self.faults = self.faults.saturating_add(1);
        }
        Err(stop)
    }

    fn next_connection(&mut self) -> Result<bool, Failed> {
        // The one before is closed before the wait for the next.
        self.stream = None;
        if let Some(listener) = &self.listener
            && let Ok(stream) = accept(listener)
        {
            self.stream = Some(stream);
            return Ok(true);
        }
        self.faults = self.faults.saturating_add(1);
        Err(Failed)
    }

    fn receive(&mut self, buf: &mut [u8]) -> Result<usize, Failed> {
        match read_some(self.stream.as_mut(), buf) {
            Ok(count) => Ok(count),
            Err(Failed) => {
                self.losses = self.losses.saturating_add(1);
                Err(Failed)
            }
        }
    }

    fn send(&mut self, _alloc: Global, bytes: &[u8]) -> Result<(), Stop> {
        match send_all(self.stream.as_mut(), bytes) {
            Ok(()) => Ok(()),
            Err(Failed) => {
                self.losses = self.losses.saturating_add(1);
                Err(Stop::Failed)
            }
        }
    }
}
