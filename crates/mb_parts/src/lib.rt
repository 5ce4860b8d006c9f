//! The parts of messages, their bytes, and how they are read and written.
#![tactic(auto)]

mod batch;
mod certificates;
mod copies;
mod counting;
mod evidence;
mod fault;
mod floor;
mod floors;
mod laws;
mod limits;
mod numbers;
mod part;
mod plain;
mod reading;
mod request;
mod requests;
mod stable;
mod writing;

pub use batch::Batch;
pub use certificates::{
    Evidence, EvidenceMember, FloorCert, FloorMember, StableCert, StableMember,
};
pub use counting::{count_bytes, count_u8, count_u16, count_u32, count_u64};
pub use evidence::read_evidence_in;
pub use fault::Undecoded;
pub use floor::{Floor, Mark, Phase};
pub use floors::floors_digest;
pub use laws::{
    certificates_carry_over, limits_are_those_defined, ordered_lists_go_on_from_floors,
    prefixes_are_consistent,
};
pub use limits::{
    LOG_INTERVALS, MAX_BATCH_BYTES, MAX_BATCH_REQUESTS, MAX_ENTRIES, MAX_PLACE, MAX_POS, MAX_VIEW,
    OTHER_LIMIT, PART_COUNT, TEXT_LIMIT,
};
pub use numbers::{
    is_base, is_counter, is_end, is_place, is_position, read_base, read_client, read_counter,
    read_digest, read_end, read_host, read_place, read_point, read_position, read_text, text_fits,
};
pub use part::{
    Member, Part, Readable, all_fit, are_members, count_all, count_listed, put_all, put_listed,
    read_listed, read_members, read_parts, rise,
};
pub use reading::{
    read_batch, read_evidence, read_floor, read_floor_cert, read_request, read_stable,
};
pub use request::{Request, count_text, put_text, read_ui_from};
pub use requests::Requests;
pub use stable::{floors_fit, read_floors, read_stable_in};
pub use writing::{put_batch, put_evidence, put_floor, put_floor_cert, put_request, put_stable};
