//! The state that is fetched: its parts are held, and with all of them it takes the place of the present one.

ghost use Rattle.std.specs.Prelude.{◌≡◌, ℕ, Option};
ghost use Rattle.mb_base.specs.Shapes.{Bytes};
ghost use Rattle.mb_fetch.specs.Checks.{HasParts};
ghost use Rattle.mb_fetch.specs.Parts.{Represents};
ghost use Rattle.mb_executor.specs.Taking.{are_held};

use crate::keeper::Keeper;
use mb_base::{Digest, Items, NoMemory, Pos};
use mb_cache::Table;
use mb_fetch::{Kept, Parts};
use mb_msg::StateMsg;
use mb_service::{PARTS, Restore, Service};
use std::alloc::Global;

/// What became of a STATE.
#[derive(Clone, Copy, PartialEq, Eq)]
pub enum Fetched {
    /// The first part whose digest is another than the certified one. 65 is the list of digests. The same parts are held.
    WrongDigest { part: u8 },
    /// All its parts are held already.
    Nothing,
    /// Its parts are held, and others are missing still.
    Parts,
    /// With its parts all were held, and their state is installed.
    State,
    /// With its parts all were held, and they are no state: the first bad part and the offset in it. All parts are dropped.
    BadState { part: u8, at: u32 },
}

impl<V: Service + Drop> Keeper<V> {
    ghost use Rattle.std.specs.Prelude.{◌≡◌, ℕ, length, Option, None, IfOk};
    ghost use Rattle.mb_base.specs.Limits.{part_count};
    ghost use Rattle.mb_base.specs.Shapes.{Bytes};
    ghost use Rattle.mb_model.specs.Histories.{Identity, History};
    ghost use Rattle.mb_model.specs.Execution.{missing};
    ghost use Rattle.mb_fetch.specs.Checks.{HasParts};
    ghost use Rattle.mb_fetch.specs.Parts.{Represents, first_missing};
    ghost use Rattle.mb_cache.specs.Represents.{snapshots_of};
    ghost use Rattle.mb_executor.specs.Keeping.{found, AreOf, fetched_from, with_fetched};
    ghost use Rattle.mb_executor.specs.Taking.{Takes, Completes, Installs, InstallsAll, emptied};
    ghost use Rattle.mb_executor.specs.Represents.{RepresentsFetched};

    /// The first part of the state at the stable position that is not held. None exactly where all are.
    pub fn missing(&self) -> Option<u8>
        ensures part { result ≡ first_missing (found self.now.fetched) }
        ensures stands { (id : Identity V) (d : History) → RepresentsFetched id self.now.fetched d → result ≡ missing id d }
    {
        match &self.parts {
            Some(parts) => parts.missing(),
            None => Some(0),
        }
    }

    /// Drops parts that were fetched for a position below this one.
    pub(crate) fn drop_parts_below(&mut self, low: Pos)
        ensures { self.new ≡ with_fetched self.old (fetched_from low self.old.fetched) }
    {
        let is_below = match &self.parts {
            Some(parts) => parts.pos() < low,
            None => false,
        };
        if is_below {
            self.parts = None;
        }
    }

    /// Takes a STATE of the stable position, at which the certified state digest is this one. Parts that are held are of that position and that
    /// digest.
    ///
    /// After `NoMemory` no part is held any more, and the state is as it was.
    pub fn take_state(
        &mut self,
        alloc: Global,
        certified: &Digest,
        m: &StateMsg,
    ) -> Result<Fetched, NoMemory>
        requires held { AreOf self.old.fetched m.now.pos certified.now }
        requires parts { HasParts m.now }
        ensures { Takes (snapshots_of V.machine) certified.now (found self.old.fetched) m.now self.old self.new result }
    {
        let parts = self.take_parts(alloc, m.pos, certified)?;
        self.join(alloc, parts, m)
    }

    /// The held parts of the state at the stable position.
    fn take_parts(&mut self, alloc: Global, pos: Pos, certified: &Digest) -> Result<Parts, NoMemory>
        requires { AreOf self.old.fetched pos certified.now }
        ensures parts { IfOk result (λ t. Represents t pos certified.now (found self.old.fetched)) }
        ensures rest { self.new ≡ emptied self.old }
    {
        match self.parts.take() {
            Some(parts) => Ok(parts),
            None => Parts::make(alloc, pos, *certified),
        }
    }

    /// Joins those of a STATE to parts that were taken out.
    fn join(&mut self, alloc: Global, parts: Parts, m: &StateMsg) -> Result<Fetched, NoMemory>
        requires out { self.old.fetched ≡ None }
        requires position { m.now.pos ≡ parts.pos }
        requires parts { HasParts m.now }
        ensures { (search : ℕ → Option Bytes) → Represents parts m.now.pos parts.digest search → Takes (snapshots_of V.machine) parts.digest search m.now self.old self.new result }
    {
        let mut parts = parts;
        let are_held = are_all_held(&parts, m);
        match parts.keep(alloc, m) {
            Ok(()) if are_held => {
                self.parts = Some(parts);
                Ok(Fetched::Nothing)
            }
            Ok(()) => self.install_where_all(alloc, parts),
            Err(Kept::WrongDigest { part, .. }) => {
                self.parts = Some(parts);
                Ok(Fetched::WrongDigest { part })
            }
            Err(Kept::NoMemory) => Err(NoMemory),
        }
    }

    /// With all parts their state is installed. Where they are no state, all are dropped.
    fn install_where_all(&mut self, alloc: Global, parts: Parts) -> Result<Fetched, NoMemory>
        requires out { self.old.fetched ≡ None }
        ensures { (pos : ℕ) (digest : Bytes) (search : ℕ → Option Bytes) → Represents parts pos digest search → Completes (snapshots_of V.machine) pos digest search self.old self.new result }
    {
        match parts.assemble() {
            Err(missing) => {
                self.parts = Some(missing.parts);
                Ok(Fetched::Parts)
            }
            Ok(all) => self.install_all(alloc, all.as_slice()),
        }
    }

    /// Takes the state of all parts, and tells whether they are one.
    fn install_all(&mut self, alloc: Global, parts: &[Items<u8>]) -> Result<Fetched, NoMemory>
        requires { length parts.now ≡ part_count }
        ensures { InstallsAll (snapshots_of V.machine) parts.now self.old self.new result }
    {
        match self.install(alloc, parts) {
            Ok(()) => Ok(Fetched::State),
            Err(Restore::BadSnapshot { part, at }) => Ok(Fetched::BadState { part, at }),
            Err(Restore::NoMemory) => Err(NoMemory),
        }
    }

    /// Takes the state of all parts. The table is read first. Where anything fails, state and table stay.
    fn install(&mut self, alloc: Global, parts: &[Items<u8>]) -> Result<(), Restore>
        requires { length parts.now ≡ part_count }
        ensures { Installs (snapshots_of V.machine) parts.now self.old self.new result }
    {
        let count = usize::from(PARTS);
        let mut table = Table::make(alloc, self.shape)?;
        table.restore(alloc, parts[count].as_slice())?;
        self.service.restore(alloc, &parts[..count])?;
        self.table = table;
        Ok(())
    }
}

/// Whether all parts of a STATE are held.
fn are_all_held(parts: &Parts, m: &StateMsg) -> bool
    requires { HasParts m.now }
    ensures { (pos : ℕ) (digest : Bytes) (search : ℕ → Option Bytes) → Represents parts.now pos digest search → result ≡ are_held search m.now }
{
    for index in 0..m.parts.len() {
        if !parts.held(m.first + index as u8) {
            return false;
        }
    }
    true
}
