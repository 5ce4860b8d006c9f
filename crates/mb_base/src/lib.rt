//! The ground of the product: how many hosts there are, names of numbers, lists, and the fields of byte formats.
#![tactic(auto)]

mod duplicate;
mod fields;
mod items;
mod limited;
mod limits;
mod names;
mod shape;
mod writing;

pub use duplicate::{Duplicate, duplicate_all};
pub use fields::{BadField, Fields, Short};
pub use items::Items;
pub use limits::MESSAGE_LIMIT;
pub use names::{Client, Counter, Digest, Host, Key, Pos, Seq, Ui, View};
pub use shape::{BadShape, Shape};
pub use writing::{NoMemory, put_bytes, put_u8, put_u16, put_u32, put_u64};
