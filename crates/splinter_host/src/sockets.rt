//! What a link and a door over TCP do with their sockets.
ghost use Rattle.std.specs.Prelude.{◌≤◌, IfOk, length};

use spl_outside::Failed;
use std::io;
use std::io::{ErrorKind, Read, Write};
use std::net::{Net, OpenListener, OpenStream, TcpStream, ToSocketAddrs};
use std::time::Duration;

/// How many seconds a read, a send or the opening of a link waits for the peer.
const PATIENCE: u64 = 60;

/// How many of the places that an address names are tried, each with its part of the patience.
const MOST_PLACES: u64 = 4;

/// How many connections in a row may be given up before they come in.
const MOST_GIVEN_UP: u32 = 1_000;

/// How many times a read is begun anew because a signal came between.
const MOST_SIGNALS: u32 = 16;

/// A stream to the first of the address's places that answers.
pub fn connect<R: Net>(rt: &R, address: &str) -> io::Result<R::Stream> {
    let patience = Duration::from_secs(PATIENCE / MOST_PLACES);
    let mut last = io::Error::from(ErrorKind::InvalidInput);
    for place in address.to_socket_addrs(rt)?.take(MOST_PLACES as usize) {
        match TcpStream::connect_timeout(rt, &place, patience) {
            Ok(stream) => {
                limit_waits(&stream)?;
                return Ok(stream);
            }
            Err(error) => last = error,
        }
    }
    Err(last)
}

/// The next connection at a listener. Those that were given up before they came in are passed over.
pub fn accept<L: OpenListener<Stream: OpenStream>>(listener: &L) -> io::Result<L::Stream> {
    for _ in 0..MOST_GIVEN_UP {
        match listener.accept() {
            Ok((stream, _)) => {
                if limit_waits(&stream).is_ok() {
                    return Ok(stream);
                }
            }
            Err(error) if is_passed_over(error.kind()) => {}
            Err(error) => return Err(error),
        }
    }
    Err(io::Error::from(ErrorKind::ConnectionAborted))
}

/// Whether such an error is one connection's, or a signal's, and says nothing of the listener.
fn is_passed_over(kind: ErrorKind) -> bool {
    matches!(
        kind,
        ErrorKind::ConnectionAborted | ErrorKind::ConnectionReset | ErrorKind::Interrupted
    )
}

/// Limits each wait in a read or a send.
fn limit_waits<S: OpenStream>(stream: &S) -> io::Result<()> {
    let patience = Some(Duration::from_secs(PATIENCE));
    stream.set_read_timeout(patience)?;
    stream.set_write_timeout(patience)?;
    stream.set_nodelay(true)
}

/// Reads some bytes to the front of the buffer, and says how many.
pub fn read_some<S: Read>(stream: Option<&mut S>, buf: &mut [u8]) -> Result<usize, Failed>
    ensures { IfOk result (λ k. k ≤ length buf.new) }
{
    let Some(stream) = stream else {
        return Err(Failed);
    };
    for _ in 0..MOST_SIGNALS {
        match stream.read(buf) {
            Ok(count) => return Ok(count),
            Err(error) if error.kind() == ErrorKind::Interrupted => {}
            Err(_) => return Err(Failed),
        }
    }
    Err(Failed)
}

/// Sends all of the bytes.
pub fn send_all<S: Write>(stream: Option<&mut S>, bytes: &[u8]) -> Result<(), Failed> {
    let Some(stream) = stream else {
        return Err(Failed);
    };
    match stream.write_all(bytes) {
        Ok(()) => Ok(()),
        Err(_) => Err(Failed),
    }
}
