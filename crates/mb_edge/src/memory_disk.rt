//! A disk in memory.

ghost use Rattle.std.specs.Prelude.{◌≡◌, IfOk};
ghost use Rattle.mb_edge.specs.Disks.{overwritten};

use crate::calls::Calls;
use crate::copying::copy_front;
use crate::disk::Disk;
use crate::outside::Failed;
use mb_base::{Items, NoMemory};
use std::alloc::{AllocError, Global};
use std::marker::Model;

/// A call that changed what stands on the disk.
#[derive(Drop)]
pub(crate) enum Done {
    Written { at: u64, bytes: Items<u8> },
    Synced,
}

/// A file in memory as a disk. It keeps what its calls did, and so tells each moment. Calls fail by their number. A write that fails leaves the
/// first half of its bytes, and zeros for the rest, where there is memory for that; other calls that fail do nothing.
#[derive(Drop)]
pub struct MemoryDisk {
    alloc: Global,
    first: Items<u8>,
    done: Vec<Done>,
    bytes: Vec<u8>,
    calls: Calls,
}

impl Model for MemoryDisk {
    ghost use Rattle.std.specs.Prelude.{◌≡◌};
    ghost use Rattle.mb_edge.specs.MemoryDisks.{DiskState, first_moment, moments_after};

    ghost Value = { DiskState };

    ghost view = { λ d. record { first = d.first; done = d.done.items; calls = d.calls } };

    ghost invariant = { λ d. d.bytes.items ≡ (moments_after (first_moment d.first) d.done.items).now.reads };
}

impl MemoryDisk {
    ghost use Rattle.std.specs.Prelude.{◌≡◌, length, IfOk, OnErr, OnOk};
    ghost use Rattle.mb_edge.specs.MemoryDisks.{moments_of, new_disk, with_done, IsTornWrite};
    ghost use Rattle.mb_edge.specs.declared.memory_disk.Done.TheVariants.{Written};

    /// A disk whose file has these bytes, all of them safe. The calls whose numbers stand in `failing`, counted from 1, answer
    /// `Failed::Device`.
    pub fn new(alloc: Global, bytes: Vec<u8>, failing: Vec<u64>) -> Result<MemoryDisk, NoMemory>
        ensures { IfOk result (λ disk. disk ≡ new_disk bytes.items failing.items) }
    {
        let first = Items::from_vec(bytes.to_vec(alloc)?);
        Ok(MemoryDisk {
            alloc,
            first,
            done: Vec::new(alloc),
            bytes,
            calls: Calls::new(failing),
        })
    }

    /// The bytes as they read.
    pub fn bytes(&self) -> &[u8]
        ensures { result.now ≡ (moments_of self.now).now.reads }
    {
        self.bytes.as_slice()
    }

    /// Puts bytes at a place.
    fn put(&mut self, at: u64, from: &[u8]) -> Result<(), AllocError>
        ensures done { OnOk result (self.new ≡ with_done self.old (Written at from.now)) }
        ensures stays { OnErr result (self.new ≡ self.old) }
    {
        let bytes = Items::from_vec(from.to_vec(self.alloc)?);
        let new = overwritten(self.alloc, &self.bytes, at as usize, from)?;
        self.done.push(Done::Written { at, bytes })?;
        self.bytes = new;
        Ok(())
    }

    /// Puts the first half of bytes whose write fails, and zeros for the rest.
    fn tear(&mut self, at: u64, from: &[u8]) -> Result<(), AllocError>
        ensures torn { OnOk result (IsTornWrite at (length from.now) self.old self.new) }
        ensures stays { OnErr result (self.new ≡ self.old) }
        ensures calls { self.new.calls ≡ self.old.calls }
    {
        let mut half = from[..from.len() / 2].to_vec(self.alloc)?;
        half.resize(from.len(), 0)?;
        self.put(at, &half)?;
        Ok(())
    }
}

/// Other bytes at a place. A gap before them is filled with zeros.
fn overwritten(alloc: Global, old: &[u8], at: usize, from: &[u8]) -> Result<Vec<u8>, AllocError>
    ensures { IfOk result (λ new. new.items ≡ overwritten at from.now old.now) }
{
    let front = at.min(old.len());
    let mut new = old[..front].to_vec(alloc)?;
    new.resize(at, 0)?;
    new.extend_from_slice(from)?;
    let end = new.len();
    if end < old.len() {
        new.extend_from_slice(&old[end..])?;
    }
    Ok(new)
}

impl Disk for MemoryDisk {
    ghost use Rattle.std.specs.Prelude.{◌≡◌, ◌↔◌, [], length, Some, IfOk, IsTrue, IsErrOf};
    ghost use Rattle.std.specs.Io.{ReadsAtMost};
    ghost use Rattle.mb_edge.specs.Faults.{HasCause, HasNoFault};
    ghost use Rattle.mb_edge.specs.Calls.{after_call, fails_next};
    ghost use Rattle.mb_edge.specs.Disks.{WhereTold, Writes, Syncs, ReadsAt};
    ghost use Rattle.mb_edge.specs.MemoryDisks.{moments_of};
    ghost use Rattle.mb_edge.specs.DiskLaws.{image_told};
    ghost use Rattle.mb_edge.specs.Seen.{disk_state};

    ghost seen = { λ d. disk_state (Some (moments_of d)) d.calls.faults };

    ghost never_fails = { λ d. d.calls.failing ≡ [] };

    ghost reads_back = { λ d m is. image_told d.first d.done m is };

    #[tactic(auto, using(crate::proofs::CallLemmas::fault_told))]
    fn open(&mut self, _path: &str) -> Result<(), Failed>
        ensures same { Some (moments_of self.new) ≡ Some (moments_of self.old) }
        ensures cause { HasCause self.old.calls.faults self.new.calls.faults result }
        ensures sound { self.old.calls.failing ≡ [] → self.new.calls.failing ≡ [] }
        ensures quiet { self.old.calls.failing ≡ [] → HasNoFault self.old.calls.faults self.new.calls.faults (IsErrOf result Failed.Device) }

        // Which calls fail.
        ensures call { self.new.calls ≡ after_call self.old.calls }
        ensures fails { IsErrOf result Failed.Device ↔ IsTrue (fails_next self.old.calls) }
    {
        if self.calls.next_fails() {
            return Err(Failed::Device);
        }
        Ok(())
    }

    #[tactic(auto, using(crate::proofs::CallLemmas::fault_told))]
    fn len(&mut self) -> Result<u64, Failed>
        ensures len { IfOk result (λ len. WhereTold (Some (moments_of self.old)) (λ m. len ≡ length m.now.reads)) }
        ensures same { Some (moments_of self.new) ≡ Some (moments_of self.old) }
        ensures cause { HasCause self.old.calls.faults self.new.calls.faults result }
        ensures sound { self.old.calls.failing ≡ [] → self.new.calls.failing ≡ [] }
        ensures quiet { self.old.calls.failing ≡ [] → HasNoFault self.old.calls.faults self.new.calls.faults (IsErrOf result Failed.Device) }

        // Which calls fail.
        ensures call { self.new.calls ≡ after_call self.old.calls }
        ensures fails { IsErrOf result Failed.Device ↔ IsTrue (fails_next self.old.calls) }
    {
        if self.calls.next_fails() {
            return Err(Failed::Device);
        }
        Ok(self.bytes.len() as u64)
    }

    #[tactic(auto, using(crate::proofs::CallLemmas::fault_told))]
    fn read_at(&mut self, at: u64, into: &mut [u8]) -> Result<usize, Failed>
        ensures bound { ReadsAtMost result into.new }
        ensures bytes { IfOk result (λ count. WhereTold (Some (moments_of self.old)) (λ m. ReadsAt m.now.reads at (length into.old) count into.new)) }
        ensures same { Some (moments_of self.new) ≡ Some (moments_of self.old) }
        ensures cause { HasCause self.old.calls.faults self.new.calls.faults result }
        ensures sound { self.old.calls.failing ≡ [] → self.new.calls.failing ≡ [] }
        ensures quiet { self.old.calls.failing ≡ [] → HasNoFault self.old.calls.faults self.new.calls.faults (IsErrOf result Failed.Device) }

        // Which calls fail.
        ensures call { self.new.calls ≡ after_call self.old.calls }
        ensures fails { IsErrOf result Failed.Device ↔ IsTrue (fails_next self.old.calls) }
    {
        if self.calls.next_fails() {
            return Err(Failed::Device);
        }
        let place = (at as usize).min(self.bytes.len());
        Ok(copy_front(into, &self.bytes[place..]))
    }

    #[tactic(auto, using(crate::proofs::CallLemmas::fault_told))]
    fn write_at(&mut self, at: u64, from: &[u8]) -> Result<(), Failed>
        ensures written { WhereTold (Some (moments_of self.old)) (λ m. Writes at from.now result m (Some (moments_of self.new))) }
        ensures cause { HasCause self.old.calls.faults self.new.calls.faults result }
        ensures sound { self.old.calls.failing ≡ [] → self.new.calls.failing ≡ [] }
        ensures quiet { self.old.calls.failing ≡ [] → HasNoFault self.old.calls.faults self.new.calls.faults (IsErrOf result Failed.Device) }

        // Which calls fail.
        ensures call { self.new.calls ≡ after_call self.old.calls }
        ensures fails { IsErrOf result Failed.Device ↔ IsTrue (fails_next self.old.calls) }
    {
        if self.calls.next_fails() {
            let _ = self.tear(at, from);
            return Err(Failed::Device);
        }
        self.put(at, from)?;
        Ok(())
    }

    #[tactic(auto, using(crate::proofs::CallLemmas::fault_told))]
    fn sync(&mut self) -> Result<(), Failed>
        ensures synced { WhereTold (Some (moments_of self.old)) (λ m. Syncs result m (Some (moments_of self.new))) }
        ensures cause { HasCause self.old.calls.faults self.new.calls.faults result }
        ensures sound { self.old.calls.failing ≡ [] → self.new.calls.failing ≡ [] }
        ensures quiet { self.old.calls.failing ≡ [] → HasNoFault self.old.calls.faults self.new.calls.faults (IsErrOf result Failed.Device) }

        // Which calls fail.
        ensures call { self.new.calls ≡ after_call self.old.calls }
        ensures fails { IsErrOf result Failed.Device ↔ IsTrue (fails_next self.old.calls) }
    {
        if self.calls.next_fails() {
            return Err(Failed::Device);
        }
        self.done.push(Done::Synced)?;
        Ok(())
    }
}
