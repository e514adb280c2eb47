//! Links and doors: the forms in memory, and over TCP.
use spl_outside::{
    Door, Failed, Link, MemoryDoor, ScriptLink, Sizes, SteadyDoor, SteadyLink, Stop,
};
use splinter_host::{TcpDoor, TcpLink};
use std::alloc::{AllocError, Global};
use std::net::Net;

/// Where the door of the test stands.
const PLACE: &str = "127.0.0.1:47613";

/// Whether a link takes these bytes in one call.
fn link_takes<L: Link>(link: &mut L, wanted: &[u8]) -> bool {
    let mut buf = [0; 8];
    match link.receive(&mut buf) {
        Ok(count) => &buf[..count] == wanted,
        Err(Failed) => false,
    }
}

/// Whether the next connection at a door brings three bytes, and takes two.
fn door_takes_three<D: Door>(alloc: Global, door: &mut D) -> bool {
    let mut buf = [0; 8];
    match door.next_connection() {
        Ok(true) => {}
        _ => return false,
    }
    door.receive(&mut buf) == Ok(3) && buf.starts_with(b"abc") && door.send(alloc, b"de").is_ok()
}

/// Whether three bytes go over a link to a door, and two come back.
fn three_go_and_two_come_back<N: Net>(
    alloc: Global,
    door: &mut TcpDoor<N>,
    link: &mut TcpLink<N>,
) -> bool {
    door.open(alloc, PLACE).is_ok()
        && link.open(alloc, PLACE).is_ok()
        && link.send(alloc, b"abc").is_ok()
        && door_takes_three(alloc, door)
        && link_takes(link, b"de")
}

#[test]
fn three_bytes_go_over_tcp_and_two_come_back(rt: HostRuntime) -> Result<(), AllocError> {
    let alloc = rt.alloc();
    let mut door = TcpDoor::new(&rt);
    let mut link = TcpLink::new(&rt);
    let early = door.next_connection().is_err() && link.send(alloc, b"a").is_err();
    assert!(rt; early && three_go_and_two_come_back(alloc, &mut door, &mut link));
    Ok(())
}

/// These two lists.
fn two(alloc: Global, first: &[u8], second: &[u8]) -> Result<Vec<Vec<u8>>, AllocError> {
    let mut lists = Vec::new(alloc);
    lists.push(Vec::from_slice(alloc, first)?)?;
    lists.push(Vec::from_slice(alloc, second)?)?;
    Ok(lists)
}

/// A link whose first piece has two bytes, and whose third call fails.
fn cut_link(alloc: Global) -> Result<ScriptLink, AllocError> {
    let mut link = ScriptLink::new(alloc, two(alloc, b"abc", b"de")?, vec![in alloc; 3]?);
    link.cut(Sizes::from_vec(vec![in alloc; 2]?));
    Ok(link)
}

/// Whether what comes due at two sends is taken in pieces.
fn comes_in_pieces(alloc: Global, link: &mut ScriptLink) -> bool {
    link.send(alloc, b"x").is_ok()
        && link_takes(link, b"ab")
        && link.send(alloc, b"y") == Err(Stop::Failed)
        && link.send(alloc, b"z").is_ok()
        && link_takes(link, b"cde")
        && link_takes(link, b"")
}

#[test]
fn a_link_in_memory_fails_at_its_numbered_call(rt: HostRuntime) -> Result<(), AllocError> {
    let alloc = rt.alloc();
    let mut link = cut_link(alloc)?;
    assert!(rt; comes_in_pieces(alloc, &mut link) && link.sent() == b"xz".as_slice());
    Ok(())
}

/// Whether two connections come in, the first of which brings three bytes, and no third.
fn two_come_in(alloc: Global, door: &mut MemoryDoor) -> bool {
    door_takes_three(alloc, door)
        && door.next_connection() == Err(Failed)
        && door.next_connection() == Ok(true)
        && door.next_connection() == Ok(false)
}

#[test]
fn a_door_in_memory_fails_at_its_numbered_call(rt: HostRuntime) -> Result<(), AllocError> {
    let alloc = rt.alloc();
    let mut door = MemoryDoor::new(alloc, two(alloc, b"abc", b"")?, vec![in alloc; 4]?);
    let came = two_come_in(alloc, &mut door);
    assert!(rt; came && door.sent(0) == Some(b"de".as_slice()) && door.sent(2).is_none());
    Ok(())
}

#[test]
fn steady_forms_never_fail(rt: HostRuntime) -> Result<(), AllocError> {
    let alloc = rt.alloc();
    let mut door = SteadyDoor::new(alloc, two(alloc, b"abc", b"")?);
    let mut link = SteadyLink::new(alloc, two(alloc, b"abc", b"")?);
    let sent = link.send(alloc, b"x").is_ok() && link_takes(&mut link, b"abc");
    assert!(rt; sent && door_takes_three(alloc, &mut door));
    Ok(())
}
