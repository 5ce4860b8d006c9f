//! What a faulty host stamps: its next counter is bound to a content, or to any bytes.

ghost use Rattle.std.specs.Prelude.{◌≡◌, ◌<◌, ◌≤◌, ◌+◌, ◌-◌, ◌^◌, ◌++◌, ◌∷◌, [], ℕ, List, length, IfOk, OnOk};
ghost use Rattle.mb_msg.specs.Fits.{FitsStamped};
ghost use Rattle.mb_model.specs.Histories.{History};
ghost use Rattle.mb_schedule.specs.declared.schedule.Schedule.{Schedule};
ghost use Rattle.mb_world_model.specs.World.{System, FaultyStamp};
ghost use Rattle.mb_members.specs.Members.{AllRun, AreOf, IsStamper, RepresentsMembers, StampedWithin};
ghost use Rattle.mb_members.specs.Stamping.{IsContentStamp, IsRawStamp, StampsContent, StampsBytes, kept_stamp};

use crate::members::{FaultyHost, Member, Stamp};
use mb_base::{Host, Items, NoMemory, Shape};
use mb_msg::{Stamped, encode_stamped};
use mb_parts::Part;
use mb_service::Service;
use mb_usig::Spent;
use std::alloc::Global;

/// A faulty host stamps a content, whatever identifier is in it: its next counter is bound to the bare bytes of the content, and the message
/// with the new identifier is kept. None exactly at a correct host, which stays as it was. An error comes where memory runs out, and only there.
pub fn stamp_content<V: Service + Drop>(
    alloc: Global,
    shape: &Shape,
    members: &mut Vec<Member<V>>,
    host: Host,
    content: Stamped,
) -> Result<Option<Stamp>, NoMemory>
    requires host { host < length members.old.items }
    requires fits { FitsStamped shape.now content }
    requires of { AreOf shape.now members.old.items }
    requires few { StampedWithin (2 ^ 64 - 2) members.old.items }
    ensures stands { (y : System V) (d : ℕ → History) (stamps : ℕ → List FaultyStamp) → RepresentsMembers y members.old.items d stamps
        → IfOk result (λ o. StampsContent y host content d stamps o members.new.items) }
    ensures runs { AllRun members.old.items → AllRun members.new.items }
    ensures within { (n : ℕ) → StampedWithin n members.old.items → StampedWithin (n + 1) members.new.items }
    ensures of { AreOf shape.now members.new.items }
    ensures len { length members.new.items ≡ length members.old.items }
{
    match &mut members[usize::from(host)] {
        Member::Correct(_) => Ok(None),
        Member::Faulty(faulty) => Ok(Some(content_by(alloc, shape, faulty, content)?)),
    }
}

/// A faulty host stamps any bytes: its next counter is bound to them, and the message, which is these bytes and the identifier, is kept. None
/// exactly at a correct host, which stays as it was. An error comes where memory runs out, and only there.
pub fn stamp_bytes<V: Service + Drop>(
    alloc: Global,
    shape: &Shape,
    members: &mut Vec<Member<V>>,
    host: Host,
    bare: &[u8],
) -> Result<Option<Stamp>, NoMemory>
    requires host { host < length members.old.items }
    requires of { AreOf shape.now members.old.items }
    requires few { StampedWithin (2 ^ 64 - 2) members.old.items }
    ensures stands { (y : System V) (d : ℕ → History) (stamps : ℕ → List FaultyStamp) → RepresentsMembers y members.old.items d stamps
        → IfOk result (λ o. StampsBytes y host bare.now d stamps o members.new.items) }
    ensures runs { AllRun members.old.items → AllRun members.new.items }
    ensures within { (n : ℕ) → StampedWithin n members.old.items → StampedWithin (n + 1) members.new.items }
    ensures of { AreOf shape.now members.new.items }
    ensures len { length members.new.items ≡ length members.old.items }
{
    match &mut members[usize::from(host)] {
        Member::Correct(_) => Ok(None),
        Member::Faulty(faulty) => Ok(Some(bytes_by(alloc, shape, faulty, bare)?)),
    }
}

fn content_by(
    alloc: Global,
    shape: &Shape,
    faulty: &mut FaultyHost,
    content: Stamped,
) -> Result<Stamp, NoMemory>
    requires fits { FitsStamped shape.now content }
    requires of { faulty.old.usig.shape ≡ shape.now }
    requires few { faulty.old.usig.counter < 2 ^ 64 - 1 }
    ensures stamp { IfOk result (λ r. IsContentStamp faulty.old.usig content r) }
    ensures stands { (s : Schedule) (h : ℕ) (l : List FaultyStamp) → IsStamper s h faulty.old l → IfOk result (λ r. IsStamper s h faulty.new (kept_stamp r ∷ l)) }
    ensures counter { faulty.new.usig.counter ≤ faulty.old.usig.counter + 1 }
    ensures of { faulty.new.usig.shape ≡ faulty.old.usig.shape }
{
    let bare = content.bare(alloc, shape)?;
    let _host = faulty.usig.host();
    match faulty.usig.create_ui(bare.as_slice()) {
        Ok(ui) => {
            let message = encode_stamped(alloc, shape, &content.with_ui(ui))?;
            keep(alloc, &mut faulty.messages, message.as_slice())?;
            Ok(Stamp {
                bare: Items::from_vec(bare),
                message,
            })
        }
        Err(Spent) => unreachable!(),
    }
}

fn bytes_by(
    alloc: Global,
    shape: &Shape,
    faulty: &mut FaultyHost,
    bare: &[u8],
) -> Result<Stamp, NoMemory>
    requires of { faulty.old.usig.shape ≡ shape.now }
    requires few { faulty.old.usig.counter < 2 ^ 64 - 1 }
    ensures stamp { IfOk result (λ r. IsRawStamp faulty.old.usig bare.now r) }
    ensures stands { (s : Schedule) (h : ℕ) (l : List FaultyStamp) → IsStamper s h faulty.old l → IfOk result (λ r. IsStamper s h faulty.new (kept_stamp r ∷ l)) }
    ensures counter { faulty.new.usig.counter ≤ faulty.old.usig.counter + 1 }
    ensures of { faulty.new.usig.shape ≡ faulty.old.usig.shape }
{
    let _host = faulty.usig.host();
    match faulty.usig.create_ui(bare) {
        Ok(ui) => {
            let mut message = Vec::from_slice(alloc, bare)?;
            ui.put(shape, &mut message)?;
            keep(alloc, &mut faulty.messages, message.as_slice())?;
            Ok(Stamp {
                bare: Items::from_vec(Vec::from_slice(alloc, bare)?),
                message,
            })
        }
        Err(Spent) => unreachable!(),
    }
}

/// One more message of a faulty host, at the end.
fn keep(alloc: Global, messages: &mut Vec<Items<u8>>, bytes: &[u8]) -> Result<(), NoMemory>
    ensures { OnOk result (messages.new.items ≡ messages.old.items ++ bytes.now ∷ []) }
{
    messages.push(Items::from_vec(Vec::from_slice(alloc, bytes)?))?;
    Ok(())
}
