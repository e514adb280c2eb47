//! The real files, random words, output and connections that the program hands to its top call.
//!
//! They tell nothing of what they hold, and count each fault.
#![tactic(auto)]

mod draw;
mod files;
mod sink;
mod sockets;
mod tcp_door;
mod tcp_link;

pub use draw::HostDraw;
pub use files::{HostFiles, Readers};
pub use sink::HostSink;
pub use tcp_door::TcpDoor;
pub use tcp_link::TcpLink;
