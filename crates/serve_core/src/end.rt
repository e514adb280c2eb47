//! How a connection ends.
ghost use Rattle.std.specs.Prelude.{◌≡◌};
ghost use Rattle.serve_core.specs.Taking.{end_of};

use spl_outside::Stop;

/// How a connection ended.
#[derive(Clone, Copy, Debug, PartialEq, Eq)]
pub enum ServeEnd {
    /// The input ended between two requests.
    Clean,
    /// The input ended inside a length or a frame: the bytes of it that came, and those that it needs.
    Cut(u64, u64),
    /// A length is over the longest that a request may have.
    TooLong(u32),
    /// As many requests as a connection may have were answered.
    Full,
    /// A call on the connection failed.
    Lost,
    /// There was no memory for the requests' room or for a send.
    OutOfMemory,
}

/// The end that a failed send makes.
pub fn end_of(stop: Stop) -> ServeEnd
    ensures { result ≡ end_of stop }
{
    match stop {
        Stop::Failed => ServeEnd::Lost,
        Stop::OutOfMemory => ServeEnd::OutOfMemory,
    }
}
