//! What the program asks of the outside, and the same in memory: sources and sinks of bytes, with reading and writing them whole, datagrams
//! from and to peers, child programs, and a file that a crash may cut short.
#![tactic(auto)]

mod byte_sink;
mod byte_source;
mod calls;
mod copying;
mod disk;
mod link;
mod list_link;
mod list_spawner;
mod memory_disk;
mod outside;
mod reading;
mod spawner;
mod writing;

pub use byte_sink::ByteSink;
pub use byte_source::ByteSource;
pub use disk::Disk;
pub use link::{Got, Link};
pub use list_link::ListLink;
pub use list_spawner::ListSpawner;
pub use memory_disk::MemoryDisk;
pub use outside::{Failed, Sink, Source};
pub use reading::{PIECE, ReadStop, read_all};
pub use spawner::{Child, Spawner, Start};
pub use writing::{WriteStop, write_all};
