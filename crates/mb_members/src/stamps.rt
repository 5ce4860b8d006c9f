//! What a correct host's step leaves in the ledger: what it stamped, and the tags that it made.

ghost use Rattle.std.specs.Prelude.{◌≡◌, ◌<◌};
ghost use Rattle.mb_base.specs.Shapes.{host_count};
ghost use Rattle.mb_members.specs.Stamps.{NotesStep, NotesMessage};

use mb_base::{Duplicate, Host, NoMemory};
use mb_forgery::Ledger;
use mb_replica::Outgoing;
use std::alloc::Global;

/// A step of a correct host: what it stamped and the tags that it made are kept, in the order in which they were sent. An error comes where
/// memory runs out, and only there.
pub fn note_step(
    alloc: Global,
    ledger: &mut Ledger,
    host: Host,
    sent: &[Outgoing],
) -> Result<(), NoMemory>
    requires { host < host_count ledger.old.shape }
    ensures keeps { NotesStep ledger.old host sent.now result ledger.new }
    ensures shape { ledger.new.shape ≡ ledger.old.shape }
{
    for message in sent {
        note_message(alloc, ledger, host, message)?;
    }
    Ok(())
}

/// One message that a correct host sent.
fn note_message(
    alloc: Global,
    ledger: &mut Ledger,
    host: Host,
    sent: &Outgoing,
) -> Result<(), NoMemory>
    requires { host < host_count ledger.old.shape }
    ensures keeps { NotesMessage ledger.old host sent.now result ledger.new }
    ensures shape { ledger.new.shape ≡ ledger.old.shape }
{
    match &sent.said {
        Some(said) => {
            let bare = said.bare.duplicate(alloc)?;
            ledger.note_stamp(host, bare)?;
            ledger.note_sent(alloc, sent.bytes.as_slice())
        }
        None => ledger.note_sent(alloc, sent.bytes.as_slice()),
    }
}
