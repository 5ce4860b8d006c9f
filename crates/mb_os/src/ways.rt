//! The ways to peers: for each a socket of its own, which sends to it alone.
//!
//! A socket that has one peer finds the way to it once, so that its sends take less time than those that name an address. It has a second address of this
//! machine, so that it takes none of the ports that hosts may want. The system tells it that nobody held the peer's port as an earlier datagram came there.
//! That is no failure of a link: the send that learns it sends nothing, and is made again.
//!
//! Nor is it one where a datagram finds no way: where no network leads to the peer, where that network is down, where the system forbids it or has no room for
//! it. Such a datagram is lost, as one is that is lost further on, and the next one is tried anew.

use crate::addresses::{known_address, port_of};
use std::io;
use std::io::ErrorKind;
use std::net::{Ipv4Addr, Net, SocketAddr, SocketAddrV4, UdpSocket};

/// How many peers have a way at a time. The hosts of the largest cluster, 0 to 6, and the client program stand at different places.
const PLACES: usize = 8;

/// Linux's number of the error at a route that leads nowhere.
const NOWHERE: i32 = 22;

/// Where it has no room for a datagram.
const NO_ROOM: i32 = 105;

/// Where a host is known to be down.
const HOST_DOWN: i32 = 112;

/// The way to a peer.
#[derive(Drop)]
struct Way {
    peer: u8,
    socket: UdpSocket,
}

/// The ways to the peers that something was sent to, from the first host's port on.
#[derive(Drop)]
pub(crate) struct Ways {
    port: u16,
    ways: [Option<Way>; PLACES],
}

impl Ways {
    /// No way is known yet.
    pub(crate) fn new(port: u16) -> Ways {
        Ways {
            port,
            ways: [None, None, None, None, None, None, None, None],
        }
    }

    /// The number of a peer's port.
    pub(crate) fn port_of(&self, peer: u8) -> u32 {
        port_of(self.port, peer)
    }

    /// Sends a datagram to a peer. One that finds no way is lost.
    pub(crate) fn send<R: Net>(&mut self, rt: &R, to: u8, bytes: &[u8]) -> io::Result<()> {
        let address = known_address(self.port, to)?;
        match self.send_to(rt, to, address, bytes) {
            Err(e) if finds_no_way(&e) => Ok(()),
            result => result,
        }
    }

    fn send_to<R: Net>(
        &mut self,
        rt: &R,
        to: u8,
        address: SocketAddr,
        bytes: &[u8],
    ) -> io::Result<()> {
        let place = usize::from(to) % PLACES;
        match &self.ways[place] {
            Some(way) if way.peer == to => sent(&way.socket, bytes),
            _ => {
                let way = Way {
                    peer: to,
                    socket: socket_to(rt, address)?,
                };
                let result = sent(&way.socket, bytes);
                self.ways[place] = Some(way);
                result
            }
        }
    }
}

/// Whether an error of a send says that the datagram finds no way now. A descriptor that is none and a datagram that is too long are faults.
fn finds_no_way(error: &io::Error) -> bool {
    match error.kind() {
        ErrorKind::NetworkUnreachable
        | ErrorKind::HostUnreachable
        | ErrorKind::NetworkDown
        | ErrorKind::AddrNotAvailable
        | ErrorKind::PermissionDenied
        | ErrorKind::WouldBlock
        | ErrorKind::OutOfMemory => true,
        _ => matches!(error.raw_os_error(), Some(NOWHERE | NO_ROOM | HOST_DOWN)),
    }
}

/// A socket that sends to this address.
fn socket_to<R: Net>(rt: &R, address: SocketAddr) -> io::Result<UdpSocket> {
    let own = SocketAddrV4::new(Ipv4Addr::new(127, 0, 0, 2), 0);
    let socket = UdpSocket::bind(rt, SocketAddr::V4(own))?;
    socket.connect(address)?;
    Ok(socket)
}

/// One send, made again as long as it is interrupted, or was told of an earlier datagram to a port that nobody held.
fn sent(socket: &UdpSocket, bytes: &[u8]) -> io::Result<()> {
    for _ in 0..u64::MAX {
        match socket.send(bytes) {
            Ok(_) => return Ok(()),
            Err(e) => match e.kind() {
                ErrorKind::Interrupted | ErrorKind::ConnectionRefused => {}
                _ => return Err(e),
            },
        }
    }
    Err(io::Error::from(ErrorKind::Interrupted))
}
