//! Laws of connections: each is the contract of a function that does nothing.
ghost use Rattle.serve_core.specs.Laws.{ConnectionsEndOnce};

/// The bytes that come on a connection say how it ends and which requests are answered, unless it is lost or memory is
/// wanting.
pub fn connections_end_once()
    ensures { ConnectionsEndOnce }
{}
