//! The statuses, and the texts that go with them.

ghost use Rattle.std.specs.Prelude.{◌≡◌, IfOk};
ghost use Rattle.mb_answer.specs.Texts.{usage_text, too_long_text, bad_line_text, exists_text, bad_journal_text, forged_text, forged_tag_text};
ghost use Rattle.mb_answer.specs.Refusals.{IsRefusal};

use mb_base::{Counter, Host, NoMemory};
use mb_sched::BadText;
use std::alloc::Global;

/// All is done, and the answer is written.
pub const DONE: u8 = 0;
/// The words are no command, or name no host of the system.
pub const USAGE: u8 = 1;
/// A text is too long or has a bad line, or an event of a schedule cannot be.
pub const BAD_INPUT: u8 = 2;
/// An event delivers what is forged.
pub const FORGED: u8 = 3;
/// Two messages in a record have one counter.
pub const DOUBLE: u8 = 3;
/// Memory ran out.
pub const NO_MEMORY: u8 = 4;
/// The source failed.
pub const SOURCE_FAULT: u8 = 5;
/// The sink failed.
pub const SINK_FAULT: u8 = 6;
/// The link failed.
pub const LINK_FAULT: u8 = 7;
/// The spawner failed.
pub const SPAWN_FAULT: u8 = 8;
/// All receives are spent.
pub const BUDGET: u8 = 9;
/// What a record says differs from what was found.
pub const DIFFERS: u8 = 10;
/// A message in a record may not stand where it stands.
pub const ILLEGAL: u8 = 12;
/// A counter is missing in a record.
pub const GAP: u8 = 13;
/// The disk failed.
pub const DISK_FAULT: u8 = 14;
/// A journal has no room for the next event.
pub const JOURNAL_FULL: u8 = 15;
/// The file of a journal that is to be made has bytes already.
pub const JOURNAL_EXISTS: u8 = 16;
/// A file is no journal of this config and host.
pub const BAD_JOURNAL: u8 = 17;
/// A node ended with another status than 0.
pub const CHILD_ENDED: u8 = 18;

/// How the program is used.
pub const USAGE_TEXT: &[u8] =
    b"usage: minbft replay | soak SEED N | node ID EVENTS [PATH] | retrace | cluster TURNS | audit H | learn | journal ID PATH\n";

/// The answer to a text.
#[derive(Drop)]
pub struct Output {
    /// The exit status.
    pub status: u8,
    /// What is written with it.
    pub text: Vec<u8>,
}

/// The words name a host that there is not.
pub fn usage(alloc: Global) -> Result<Output, NoMemory>
    ensures { IfOk result (λ a. (a.status ≡ 1) × (a.text.items ≡ usage_text)) }
{
    Ok(Output {
        status: USAGE,
        text: Vec::from_slice(alloc, USAGE_TEXT)?,
    })
}

/// The source has more bytes than the longest text.
pub(crate) fn too_long(alloc: Global) -> Result<Output, NoMemory>
    ensures { IfOk result (λ a. (a.status ≡ 2) × (a.text.items ≡ too_long_text)) }
{
    Ok(Output {
        status: BAD_INPUT,
        text: Vec::from_slice(alloc, b"too long\n")?,
    })
}

/// The first bad line of a text, by its number from 1.
pub fn bad_line(alloc: Global, number: u64) -> Result<Output, NoMemory>
    ensures { IfOk result (λ a. (a.status ≡ 2) × (a.text.items ≡ bad_line_text number)) }
{
    let text = format!(in alloc; "bad line {number}\n")?;
    Ok(Output {
        status: BAD_INPUT,
        text: text.into_bytes(),
    })
}

/// The file of a journal that is to be made has so many bytes already.
pub fn journal_exists(alloc: Global, length: u64) -> Result<Output, NoMemory>
    ensures { IfOk result (λ a. (a.status ≡ 16) × (a.text.items ≡ exists_text length)) }
{
    let text = format!(in alloc; "exists {length}\n")?;
    Ok(Output {
        status: JOURNAL_EXISTS,
        text: text.into_bytes(),
    })
}

/// A file is no journal of this config and host, by the offset of its first fault.
pub fn bad_journal(alloc: Global, at: u64) -> Result<Output, NoMemory>
    ensures { IfOk result (λ a. (a.status ≡ 17) × (a.text.items ≡ bad_journal_text at)) }
{
    let text = format!(in alloc; "bad journal at {at}\n")?;
    Ok(Output {
        status: BAD_JOURNAL,
        text: text.into_bytes(),
    })
}

/// The event, by its number from 1, that would deliver a certificate which its host never gave at that counter.
pub fn forged(alloc: Global, event: u64, host: Host, counter: Counter) -> Result<Output, NoMemory>
    ensures { IfOk result (λ a. (a.status ≡ 3) × (a.text.items ≡ forged_text event host counter)) }
{
    let text = format!(in alloc; "forged event {event} h{host} {counter}\n")?;
    Ok(Output {
        status: FORGED,
        text: text.into_bytes(),
    })
}

/// The event, by its number from 1, that would deliver a tag which nobody made.
pub fn forged_tag(alloc: Global, event: u64) -> Result<Output, NoMemory>
    ensures { IfOk result (λ a. (a.status ≡ 3) × (a.text.items ≡ forged_tag_text event)) }
{
    let text = format!(in alloc; "forged event {event} tag\n")?;
    Ok(Output {
        status: FORGED,
        text: text.into_bytes(),
    })
}

/// The answer to a text that says nothing.
pub fn refusal(alloc: Global, fault: BadText) -> Result<Output, NoMemory>
    ensures { IfOk result (λ a. IsRefusal fault a.status a.text.items) }
{
    match fault {
        BadText::TooLong => too_long(alloc),
        BadText::BadLine { number } => bad_line(alloc, u64::from(number)),
        BadText::NoMemory => Err(NoMemory),
    }
}
