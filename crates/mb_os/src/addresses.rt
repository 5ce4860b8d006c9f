//! The addresses of peers.

ghost use Rattle.std.specs.Prelude.{◌≡◌, ◌<◌, ◌+◌, ◌^◌, IfOk, IsOk, IfSome, IsSome};
ghost use Rattle.mb_os.specs.Addresses.{above, IsHere};

use std::io;
use std::io::ErrorKind;
use std::net::{Ipv4Addr, SocketAddr, SocketAddrV4};

/// The peer that is the client program.
pub(crate) const CLIENT: u8 = 255;

/// How far the client program's port is above the first host's.
const CLIENT_PORT: u16 = 100;

/// How far the port of a peer is above the first host's: each host has its number, and the client program 100.
fn above(peer: u8) -> u16
    ensures { result ≡ above peer }
{
    if peer == CLIENT {
        CLIENT_PORT
    } else {
        u16::from(peer)
    }
}

/// The number of a peer's port, which may be higher than any port.
pub(crate) fn port_of(port: u16, peer: u8) -> u32
    ensures { result ≡ port + above peer }
{
    u32::from(port) + u32::from(above(peer))
}

/// The address of a peer, where there is a port that high.
fn address(port: u16, peer: u8) -> Option<SocketAddr>
    ensures here { IfSome result (λ a. IsHere a (port + above peer)) }
    ensures some { port + above peer < 2 ^ 16 → IsSome result }
{
    let port = port.checked_add(above(peer))?;
    let here = Ipv4Addr::new(127, 0, 0, 1);
    Some(SocketAddr::V4(SocketAddrV4::new(here, port)))
}

/// The address of a peer. The error comes exactly where no port is that high.
pub(crate) fn known_address(port: u16, peer: u8) -> io::Result<SocketAddr>
    ensures here { IfOk result (λ a. IsHere a (port + above peer)) }
    ensures ok { port + above peer < 2 ^ 16 → IsOk result }
{
    match address(port, peer) {
        Some(address) => Ok(address),
        None => Err(io::Error::new(ErrorKind::InvalidInput, "no port is that high")),
    }
}
