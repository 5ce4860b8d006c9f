//! Making a journal, and opening it.

ghost use Rattle.std.specs.Prelude.{◌≡◌, ◌≢◌, ◌⊎◌, ◌+◌, ℕ, [], false, length, IfOk, OnOk, Err, IsErrOf};
ghost use Rattle.mb_edge.specs.Faults.{TellsFaults};
ghost use Rattle.mb_edge.specs.Disks.{WhereTold, LeavesOnly, settled};
ghost use Rattle.mb_journal.specs.Files.{contents_of, Holds};
ghost use Rattle.mb_journal.specs.Keeping.{RestsAt, IsAtRest};
ghost use Rattle.mb_journal.specs.Opening.{KeepsFile};
ghost use Rattle.mb_journal.specs.Making.{SaysNothing};
ghost use Rattle.mb_journal.specs.Headers.{header_text};

use crate::header::{empty_file, header_of};
use crate::journal::Journal;
use crate::keeping::write_and_sync;
use crate::opening::{OpenStop, open_file};
use mb_base::{Host, NoMemory};
use mb_edge::{Disk, Failed};
use mb_msg::Event;
use mb_sched::Config;
use std::alloc::Global;

/// Why no journal was made.
#[derive(Clone, Copy, Debug, PartialEq, Eq)]
pub enum MakeStop {
    /// The file has bytes already. Their number is told.
    Exists { length: u64 },
    /// The disk failed.
    DiskFault,
    /// Memory ran out.
    NoMemory,
}

impl From<Failed> for MakeStop {
    ghost use Rattle.std.specs.Prelude.{◌≡◌};
    ghost use Rattle.mb_journal.specs.Making.{make_stop};

    ghost from_gives = { λ failed stop. stop ≡ make_stop failed };

    fn from(failed: Failed) -> MakeStop {
        match failed {
            Failed::Device => MakeStop::DiskFault,
            Failed::NoMemory => MakeStop::NoMemory,
        }
    }
}

impl From<NoMemory> for MakeStop {
    ghost use Rattle.std.specs.Prelude.{◌≡◌};
    ghost use Rattle.mb_journal.specs.declared.making.MakeStop.TheVariants as stops;

    ghost from_gives = { λ _ stop. stop ≡ stops.NoMemory };

    fn from(_e: NoMemory) -> MakeStop {
        MakeStop::NoMemory
    }
}

/// A journal that was opened, and the events that it holds.
#[derive(Drop)]
pub struct Opened {
    /// The journal, at rest.
    pub journal: Journal,
    /// Its events, oldest first.
    pub events: Vec<Event>,
}

impl Journal {
    /// Makes the file of a journal without events.
    ///
    /// `Exists` comes exactly where the file has bytes already, unless the disk fails or memory runs out first.
    pub fn make<D: Disk>(
        alloc: Global,
        disk: &mut D,
        config: &Config,
        id: Host,
    ) -> Result<(), MakeStop>
        ensures exists { (len : ℕ) → IsErrOf result (MakeStop.Exists len) → (len ≢ 0) × WhereTold (D.seen disk.old).moments (λ old. len ≡ length old.now.reads) }
        ensures kept { (len : ℕ) → IsErrOf result (MakeStop.Exists len) → (D.seen disk.new).moments ≡ (D.seen disk.old).moments }
        ensures empty { OnOk result (WhereTold (D.seen disk.old).moments (λ old. old.now.reads ≡ [])) }
        ensures rests { OnOk result (WhereTold (D.seen disk.old).moments (λ old. WhereTold (D.seen disk.new).moments (λ new. RestsAt (header_text config.now id) 45 [] new.now))) }

        // A file with bytes stays as it is, whatever the answer.
        ensures there { WhereTold (D.seen disk.old).moments (λ old. old.now.reads ≢ [] → (D.seen disk.new).moments ≡ (D.seen disk.old).moments) }

        // Over a file without bytes, a crash at any moment leaves no journal, or one without events.
        ensures any_moment { WhereTold (D.seen disk.old).moments (λ old. old.now ≡ settled [] → LeavesOnly (SaysNothing (header_text config.now id)) old (D.seen disk.new).moments) }

        ensures faults { TellsFaults (D.never_fails disk.old) (D.never_fails disk.new) (D.seen disk.old).faults (D.seen disk.new).faults (IsErrOf result MakeStop.DiskFault) }
    {
        let length = disk.len()?;
        if length != 0 {
            return Err(MakeStop::Exists { length });
        }
        let start = empty_file(alloc, config, id)?;
        write_and_sync(disk, 0, &start)?;
        Ok(())
    }

    /// Opens the file of a journal. What it answers is acknowledged.
    ///
    /// `BadJournal` comes exactly where a byte of the header is another than this config and host give, with the first such place; where the file ends
    /// before its first gate, with its length; or where no whole record with a gate behind it follows a gate of 1, with that gate's place; unless
    /// the disk fails or memory runs out first.
    pub fn open<D: Disk>(
        alloc: Global,
        disk: &mut D,
        config: &Config,
        id: Host,
        limit: u64,
    ) -> Result<Opened, OpenStop>
        ensures journal { IfOk result (λ opened. opened.journal ≡ record { header = header_text config.now id; end = opened.journal.end; limit = limit; halted = false }) }
        ensures events { IfOk result (λ opened. WhereTold (D.seen disk.old).moments (λ old. Holds (header_text config.now id) opened.events.items old.now.reads)) }
        ensures bad { (at : ℕ) → IsErrOf result (OpenStop.BadJournal at) → WhereTold (D.seen disk.old).moments (λ old. contents_of (header_text config.now id) old.now.reads ≡ Err at) }
        ensures rests { IfOk result (λ opened. WhereTold (D.seen disk.old).moments (λ old. WhereTold (D.seen disk.new).moments (λ new. IsAtRest opened.journal opened.events.items new.now))) }

        // A crash at any moment leaves what one before might have left, or a file that is whole: one that is no journal of this host as it reads, and of one
        // that is its events.
        ensures any_moment { WhereTold (D.seen disk.old).moments (λ old. KeepsFile (header_text config.now id) old (D.seen disk.new).moments) }

        ensures faults { TellsFaults (D.never_fails disk.old) (D.never_fails disk.new) (D.seen disk.old).faults (D.seen disk.new).faults (IsErrOf result OpenStop.DiskFault) }
    {
        let header = header_of(alloc, config, id)?;
        let found = open_file(alloc, disk, &header)?;
        Ok(Opened {
            journal: Journal::at_rest(alloc, header, found.gate as u64, limit),
            events: found.events,
        })
    }
}
