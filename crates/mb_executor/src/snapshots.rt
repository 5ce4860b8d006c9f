//! Snapshots of the state, and what is sent of them.

ghost use Rattle.std.specs.Prelude.{◌≡◌, ◌≤◌, ◌<◌, ◌^◌, ◌++◌, length, drop, IfOk, OnOk};
ghost use Rattle.mb_base.specs.Limits.{part_count};
ghost use Rattle.mb_model.specs.States.{parts_of, part_digests};
ghost use Rattle.mb_model.specs.Making.{fitting, first_fitting};
ghost use Rattle.mb_cache.specs.Represents.{joined, snapshots_of};
ghost use Rattle.mb_service.specs.declared.service.TheConstants.{PARTS, MAX_PART};
ghost use Rattle.mb_fetch.specs.Shelves.{bytes_of};
ghost use Rattle.mb_executor.specs.Keeping.{AreShort};
ghost use Rattle.mb_executor.specs.Sent.{kept_at};

use crate::keeper::Keeper;
use mb_base::{Digest, Host, Items, NoMemory, Pos};
use mb_cache::Table;
use mb_fetch::{HashedPart, Shelf};
use mb_msg::StateMsg;
use mb_service::{PARTS, Service};
use std::alloc::Global;

/// How many parts a state has with its client table, which is the last of them.
pub(crate) const PART_COUNT: u8 = PARTS + 1;

/// The most bytes that the parts of a STATE have together, where there are several.
const MAX_PART_BYTES: usize = 65_536;

impl<V: Service + Drop> Keeper<V> {
    ghost use Rattle.std.specs.Prelude.{◌≡◌, List, Some, IfOk};
    ghost use Rattle.mb_base.specs.Shapes.{Bytes};
    ghost use Rattle.mb_msg.specs.declared.message.Message.TheVariants as message;
    ghost use Rattle.mb_model.specs.Histories.{Identity};
    ghost use Rattle.mb_model.specs.Making.{state_message};
    ghost use Rattle.mb_fetch.specs.Snapshots.{parts_at};
    ghost use Rattle.mb_executor.specs.Keeping.{AreShort};
    ghost use Rattle.mb_executor.specs.Sent.{kept_at, state_of_parts};

    /// The STATE in the name of a host: the digests of all parts of the snapshot of a position, and the parts from a number on, as many as fit
    /// into one message. Where no snapshot is kept of the position, there is neither.
    pub fn state_message(
        &self,
        alloc: Global,
        host: Host,
        pos: Pos,
        first: u8,
    ) -> Result<StateMsg, NoMemory>
        ensures parts { IfOk result (λ m. m ≡ state_of_parts host pos first (kept_at self.now.snapshots pos)) }
        ensures short { IfOk result (λ m. AreShort (kept_at self.now.snapshots pos)) }
        ensures stands { (id : Identity V) (parts : List Bytes) → id.host ≡ host → parts_at self.now.snapshots pos ≡ Some parts → IfOk result (λ m. message.State m ≡ state_message id pos first parts) }
    {
        Ok(StateMsg {
            host,
            pos,
            digests: digests_of(alloc, &self.shelf, pos)?,
            first,
            parts: fitting_parts(alloc, &self.shelf, pos, first)?,
        })
    }
}

/// The parts of a state with their digests: those of the service, which stays as it is, and behind them the client table.
pub(crate) fn present_parts<V: Service>(
    alloc: Global,
    service: &mut V,
    table: &Table,
) -> Result<Vec<HashedPart>, NoMemory>
    ensures parts { IfOk result (λ v. bytes_of v.items ≡ parts_of (snapshots_of V.machine) (joined service.old table.now)) }
    ensures short { IfOk result (λ v. AreShort (bytes_of v.items)) }
    ensures kept { service.new ≡ service.old }
{
    let mut parts = Vec::with_capacity(alloc, usize::from(PART_COUNT))?;
    for part in 0..PARTS {
        parts.push(present_part(alloc, service, part)?)?;
    }
    parts.push(HashedPart::of(table.part(alloc)?))?;
    Ok(parts)
}

/// A part of the service, which keeps the digests of its parts.
fn present_part<V: Service>(
    alloc: Global,
    service: &mut V,
    part: u8,
) -> Result<HashedPart, NoMemory>
    requires { part < PARTS }
    ensures part { IfOk result (λ p. p.bytes ≡ V.machine.part_of service.old part) }
    ensures short { IfOk result (λ p. length p.bytes ≤ MAX_PART) }
    ensures kept { service.new ≡ service.old }
{
    let digest = service.part_digest(alloc, part)?;
    let bytes = service.snapshot(alloc, part)?;
    Ok(HashedPart { bytes, digest })
}

/// The digests of all parts of the snapshot of a position.
fn digests_of(alloc: Global, shelf: &Shelf, pos: Pos) -> Result<Items<Digest>, NoMemory>
    requires { length (kept_at shelf.now pos) ≤ part_count }
    ensures { IfOk result (λ l. l ≡ part_digests (kept_at shelf.now pos)) }
{
    let mut digests = Items::new(alloc);
    for part in 0..PART_COUNT {
        let Some(digest) = shelf.digest(pos, part) else {
            return Ok(digests);
        };
        digests.push(digest)?;
    }
    Ok(digests)
}

/// Parts of the snapshot of a position from a number on, while their lengths together stay within the limit. The first one always goes.
fn fitting_parts(
    alloc: Global,
    shelf: &Shelf,
    pos: Pos,
    first: u8,
) -> Result<Items<Items<u8>>, NoMemory>
    requires { length (kept_at shelf.now pos) ≤ part_count }
    ensures { IfOk result (λ l. l ≡ first_fitting (drop first (kept_at shelf.now pos))) }
{
    let mut parts = Items::new(alloc);
    let Some(part) = shelf.part(pos, first) else {
        return Ok(parts);
    };
    let used = part.len();
    parts.push(Items::from_vec(Vec::from_slice(alloc, part)?))?;
    add_fitting(alloc, shelf, pos, first + 1, used, &mut parts)?;
    Ok(parts)
}

/// Adds parts from a number on, while their lengths together with so many bytes stay within the limit.
fn add_fitting(
    alloc: Global,
    shelf: &Shelf,
    pos: Pos,
    next: u8,
    taken: usize,
    parts: &mut Items<Items<u8>>,
) -> Result<(), NoMemory>
    requires few { length (kept_at shelf.now pos) ≤ part_count }
    requires short { taken < 2 ^ 63 }
    ensures { OnOk result (parts.new ≡ parts.old ++ fitting taken (drop next (kept_at shelf.now pos))) }
{
    let mut used = taken;
    for number in next..PART_COUNT {
        let Some(part) = shelf.part(pos, number) else {
            return Ok(());
        };
        if used + part.len() > MAX_PART_BYTES {
            return Ok(());
        }
        used += part.len();
        parts.push(Items::from_vec(Vec::from_slice(alloc, part)?))?;
    }
    Ok(())
}
