//! The text formats: schedules, reports, configs and records.
#![tactic(auto)]

mod bad_text;
mod configs;
mod event_lines;
mod header;
mod lines;
mod parsing;
mod printing;
mod records;
mod schedule_text;
mod settings;
mod text_lines;
mod words;

pub use bad_text::BadText;
pub use configs::{
    Config, MAX_CONFIG, configs_are_their_spellings, parse_config, print_config,
    printed_configs_are_read,
};
pub use mb_schedule::{
    ClientLine, HostLine, HostState, LastResult, Name, RefusedLine, Report, Schedule, Word,
    WorldEvent,
};
pub use parsing::{MAX_TEXT, parse_schedule, printed_schedules_are_read, texts_are_schedules};
pub use printing::{hex_word, print_report, print_slots};
pub use records::{
    Entry, MAX_RECORD, Record, cut_records_are_read, parse_record, print_entry, print_record_head,
    printed_records_are_read, records_are_their_spellings,
};
pub use schedule_text::print_schedule;
pub use words::{is_word, number_in};
