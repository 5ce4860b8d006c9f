//! What the host of a record was given.

ghost use Rattle.std.specs.Prelude.{◌≡◌, ◌++◌, OnOk, IfOk};
ghost use Rattle.mb_audit.specs.Stamps.{texts};
ghost use Rattle.mb_reviewing.specs.Given.{given_by, given_in};

use mb_base::{Items, NoMemory};
use mb_msg::Event;
use mb_sched::Entry;
use std::alloc::Global;

/// Appends the byte string that an event gave.
fn add_given(event: Event, given: &mut Vec<Vec<u8>>) -> Result<(), NoMemory>
    ensures { OnOk result (texts given.new.items ≡ texts given.old.items ++ given_by event) }
{
    match event {
        Event::Given(bytes) => {
            given.push(bytes.into_vec())?;
            Ok(())
        }
        Event::Patience | Event::Nudge => Ok(()),
    }
}

/// All byte strings that these entries say were given, in order.
pub(crate) fn given_in(alloc: Global, entries: Items<Entry>) -> Result<Vec<Vec<u8>>, NoMemory>
    ensures { IfOk result (λ given. texts given.items ≡ given_in entries) }
{
    let mut given = Vec::new(alloc);
    for entry in entries.into_vec() {
        add_given(entry.event, &mut given)?;
    }
    Ok(given)
}
