//! The lines of a record: what an event was, how many messages it sent, and their digest.

ghost use Rattle.std.specs.Prelude.{◌≡◌, ◌<◌, ◌^◌, ◌++◌, ℕ, List, length, IfOk};
ghost use Rattle.std.specs.List.{flat_map};
ghost use Rattle.mb_node.specs.Recording.{to_byte, sent_text, entry_with, lines_with, sent_digest};
ghost use Rattle.mb_node.specs.Messages.{IsMessage, AreMessages};

use mb_base::{Digest, NoMemory};
use mb_msg::{Event, Sent, To};
use mb_sched::{Entry, print_entry};
use sha2::{Digest as Hasher, Sha256};
use std::alloc::Global;

/// Stands for all hosts in the digest of what is sent.
const TO_ALL: u8 = 254;

/// Stands for a client in the digest of what is sent.
const TO_CLIENT: u8 = 255;

fn to_byte(to: To) -> u8
    ensures { result ≡ to_byte to }
{
    match to {
        To::All => TO_ALL,
        To::Host(host) => host,
        To::Client(_) => TO_CLIENT,
    }
}

/// Feeds a hasher with to whom a message is sent, its length, and its bytes.
#[tactic(auto, unfolding(mb_base::specs::Spelling::number))]
fn feed<H: Hasher>(hasher: &mut H, message: &Sent)
    requires { IsMessage message.now }
    ensures { (m : List ℕ) → H.holds hasher.old m → H.holds hasher.new (m ++ sent_text message.now) }
{
    let bytes = message.bytes.as_slice();
    hasher.update(to_byte(message.to).to_be_bytes());
    hasher.update((bytes.len() as u32).to_be_bytes());
    hasher.update(bytes);
}

fn feed_all<H: Hasher>(hasher: &mut H, sent: &[Sent])
    requires { AreMessages sent.now }
    ensures { (m : List ℕ) → H.holds hasher.old m → H.holds hasher.new (m ++ flat_map sent_text sent.now) }
{
    for message in sent {
        feed(hasher, message);
    }
}

/// SHA-256 (FIPS 180-4) of no bytes. In two events of three a backup sends nothing.
const OF_NOTHING: Digest = [
    0xe3, 0xb0, 0xc4, 0x42, 0x98, 0xfc, 0x1c, 0x14, 0x9a, 0xfb, 0xf4, 0xc8, 0x99, 0x6f, 0xb9, 0x24,
    0x27, 0xae, 0x41, 0xe4, 0x64, 0x9b, 0x93, 0x4c, 0xa4, 0x95, 0x99, 0x1b, 0x78, 0x52, 0xb8, 0x55,
];

/// SHA-256 over three fields for each message: to whom (u8: the host, 254 for all, 255 for a client), the length (u32), and the bytes.
pub(crate) fn sent_digest(sent: &[Sent]) -> Digest
    requires { AreMessages sent.now }
    ensures { result ≡ sent_digest sent.now }
{
    match sent {
        [] => OF_NOTHING,
        _ => hashed(sent),
    }
}

#[tactic(auto, unfolding(crate::specs::Recording::sent_digest))]
fn hashed(sent: &[Sent]) -> Digest
    requires { AreMessages sent.now }
    ensures { result ≡ sent_digest sent.now }
{
    let mut hasher = Sha256::new();
    feed_all(&mut hasher, sent);
    hasher.finalize()
}

/// The entry of an event that sends these messages.
pub(crate) fn entry_of(event: Event, sent: &[Sent]) -> Entry
    requires messages { AreMessages sent.now }
    requires few { length sent.now < 2 ^ 32 }
    ensures { result ≡ entry_with event sent.now }
{
    Entry {
        event,
        count: sent.len() as u32,
        digest: sent_digest(sent),
    }
}

/// The two lines of an event, and `end` behind those of a right STOP.
pub(crate) fn lines(
    alloc: Global,
    event: Event,
    sent: &[Sent],
    ends: bool,
) -> Result<Vec<u8>, NoMemory>
    requires messages { AreMessages sent.now }
    requires few { length sent.now < 2 ^ 32 }
    ensures { IfOk result (λ text. text.items ≡ lines_with (entry_with event sent.now) ends) }
{
    let entry = entry_of(event, sent);
    let mut text = print_entry(alloc, &entry)?;
    if ends {
        text.extend_from_slice(b"end\n")?;
    }
    Ok(text)
}
