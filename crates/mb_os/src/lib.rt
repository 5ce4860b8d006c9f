//! What the system has, as the devices of the program: its readers and writers as a source and a sink, sockets of this machine as a link, child programs
//! as a spawner, and a file as a disk; and the program's own words and path, and who started it. They tell nothing of content, and count their faults; of
//! each fault they tell a line on standard error, with the system's cause.
//! This is the edge that is trusted. What is a value in it has a clause: the address of a peer, in how long a quiet is due, the datagram that ends a burst, the
//! words of a child, the status of an end. That a receive tells a quiet once it is due, though datagrams wait, is shown by tests alone, since no clause can
//! tell of the system's clock.
#![tactic(auto)]

mod addresses;
mod bursts;
mod children;
mod files;
mod program;
mod quiets;
mod room;
mod rounds;
mod sockets;
mod starter;
mod streams;
mod telling;
mod watch;
mod ways;

pub use children::ChildSpawner;
pub use files::FileDisk;
pub use program::{own_path, starter_of, words_of};
pub use sockets::UdpLink;
pub use streams::{StdSink, StdSource};
