//! The room that a socket has for datagrams that wait.
//!
//! A host that is at work with a message of megabytes receives nothing for some milliseconds, and one that gets no processor receives nothing for longer. What
//! its socket has no room for is lost. Without asking a socket has room for six or seven of the longest datagrams.

use libc::net;
use std::net::UdpSocket;
use std::os::fd::AsRawFd;

/// The bytes of the longest message.
const ROOM: i32 = 4_194_304;

/// How many bytes of a value the system reads.
const WIDTH: u32 = 4;

/// Asks the system for room for the longest message. It gives no more than it is set to give, which is no fault.
pub(crate) fn make_room(socket: &UdpSocket) {
    let mut value = [0u8; 16];
    value[..4].copy_from_slice(&ROOM.to_ne_bytes());
    let socket = socket.as_raw_fd();
    let _ = unsafe { net::setsockopt(socket, net::SOL_SOCKET, net::SO_RCVBUF, &value, WIDTH) };
}
