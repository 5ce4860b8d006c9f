//! A window of positions above a low end, over one ring.

use crate::refused::Refused;
use circular_buffer::HeapCircularBuffer;
use mb_base::{NoMemory, Pos};
use std::alloc::Global;
use std::marker::Model;

/// For each position above a low end, up to the capacity, what a search in a host's history finds there.
///
/// The ring is full: what lies at index i is the place of position low + 1 + i.
/// What a window stands for is such a search (`Represents` in the specs); `put`, `raise` and `clear` say what they make of it.
#[derive(Drop)]
pub struct Window<T> {
    low: Pos,
    ring: HeapCircularBuffer<Option<T>>,
}

impl<T> Model for Window<T> {
    ghost use Rattle.mb_window.specs.Places.{Places, places_code};

    ghost Value = { Places T };

    ghost coded = { places_code T.code };

    ghost use Rattle.mb_window.specs.Inside.{seen, IsWindow};

    ghost view = { seen };

    ghost invariant = { IsWindow };
}

impl<T> Window<T> {
    ghost use Rattle.std.specs.Prelude.{◌≡◌, ◌≢◌, ◌↔◌, ◌+◌, ◌-◌, ◌^◌, ◌≤◌, ◌<◌, ℕ, length, replicate, slice_get, slice_set, option_copied, IfOk, IsErrOf, OnOk, OnErr, Err, None, Some};
    ghost use Rattle.std.specs.Option.{option_copied_mut};
    ghost use Rattle.std.specs.Borrow.{sem};
    ghost use Rattle.mb_window.specs.Places.{places, item_at, raised, first_none};
    ghost use Rattle.mb_window.specs.Refusing.{Refuses};
    ghost use Rattle.mb_window.specs.Represents.{StandsWith, StandsAbove, StandsForNothing};
    ghost use Rattle.mb_window.specs.Lent.{lends_item};

    /// A window above a low end, all of whose places are empty.
    pub fn make(alloc: Global, low: Pos, capacity: u32) -> Result<Window<T>, NoMemory>
    where
        T: Drop,
        requires some { 1 ≤ capacity }
        requires top { low + capacity ≤ 2 ^ 64 - 2 }
        ensures empty { IfOk result (λ w. w ≡ places low (replicate capacity None)) }
        ensures nothing { IfOk result (λ w. StandsForNothing w low) }
    {
        let ring = HeapCircularBuffer::with_capacity(alloc, capacity as usize)?;
        Ok(Window {
            low,
            ring: empties(ring, capacity),
        })
    }

    /// The low end.
    pub fn low(&self) -> Pos
        ensures { result ≡ self.now.low }
    {
        self.low
    }

    /// The item at a position. None exactly where the position is outside the window, or its place is empty.
    pub fn get(&self, pos: Pos) -> Option<&T>
        ensures { option_copied result ≡ item_at self.now pos }
    {
        if pos <= self.low {
            return None;
        }
        match self.ring.get((pos - self.low - 1) as usize) {
            Some(slot) => slot.as_ref(),
            None => None,
        }
    }

    /// Puts an item into the empty place of a position. Where it is refused nothing changes. It takes no memory.
    pub fn put(&mut self, pos: Pos, item: T) -> Result<(), Refused<T>>
    where
        T: Drop,
        ensures refused { Refuses self.old pos item result }
        ensures ok { OnOk result (self.new ≡ places self.old.low (slice_set self.old.items (pos - self.old.low - 1) (Some item))) }
        ensures stands { OnOk result (StandsWith self.old pos item self.new) }
        ensures err { OnErr result (self.new ≡ self.old) }
    {
        let low = self.low;
        if pos <= low {
            return Err(Refused::Below { low, item });
        }
        let index = pos - low - 1;
        if index >= self.ring.len() as u64 {
            return Err(Refused::Beyond { low, item });
        }
        let index = index as usize;
        if is_held(&self.ring, index) {
            return Err(Refused::Filled { item });
        }
        place(&mut self.ring, index, item);
        Ok(())
    }

    /// Raises the low end. What lies at or below it is dropped, the other places keep their items, new ones are empty. It takes no memory.
    pub fn raise(&mut self, low: Pos)
    where
        T: Drop,
        requires low { self.old.low ≤ low }
        requires top { low + length self.old.items ≤ 2 ^ 64 - 2 }
        ensures places { self.new ≡ places low (raised (low - self.old.low) self.old.items) }
        ensures stands { StandsAbove self.old low self.new }
    {
        shift(&mut self.ring, low - self.low);
        self.low = low;
    }

    /// Empties all places. It takes no memory.
    pub fn clear(&mut self)
    where
        T: Drop,
        ensures empty { self.new ≡ places self.old.low (replicate (length self.old.items) None) }
        ensures nothing { StandsForNothing self.new self.old.low }
    {
        let count = self.ring.len() as u64;
        shift(&mut self.ring, count);
    }

    /// The lowest empty position, that behind the window where there is none.
    pub fn first_gap(&self) -> Pos
        ensures { result ≡ self.now.low + 1 + first_none self.now.items }
    {
        self.low + 1 + first_empty(&self.ring)
    }

    /// The item at a position, to be changed. None exactly where `get` finds none.
    pub fn get_mut(&mut self, pos: Pos) -> Option<&mut T>
        ensures* writes_back { sem 𝓛 (lends_item T.row self.entry pos result) }
        ensures value { option_copied_mut result ≡ item_at self.old pos }
    {
        let index = index_of(self.low, pos);
        self.ring.get_mut(index)?.as_mut()
    }
}

ghost use Rattle.std.specs.Prelude.{◌≡◌, ◌<◌, ◌≤◌, ◌^◌, ◌-◌, [], length, replicate, slice_get, slice_set, is_some, Some, None, nat_le, if◌then◌else◌};
ghost use Rattle.mb_window.specs.Places.{raised, flat, first_none};

/// Fills a ring with empty places.
fn empties<T: Drop>(
    mut ring: HeapCircularBuffer<Option<T>>,
    capacity: u32,
) -> HeapCircularBuffer<Option<T>>
    requires empty { ring.items ≡ [] }
    requires capacity { ring.capacity ≡ capacity }
    ensures items { result.items ≡ replicate capacity None }
    ensures capacity { result.capacity ≡ capacity }
{
    for _ in 0..capacity {
        let _ = ring.try_push_back(None);
    }
    ring
}

/// Drops so many places at the front, with new ones behind, all of them at most.
fn shift<T: Drop>(ring: &mut HeapCircularBuffer<Option<T>>, steps: u64)
    requires { length ring.old.items ≡ ring.old.capacity }
    ensures items { ring.new.items ≡ raised steps ring.old.items }
    ensures capacity { ring.new.capacity ≡ ring.old.capacity }
{
    let count = steps.min(ring.len() as u64);
    for _ in 0..count {
        ring.push_back(None);
    }
}

/// The index of the first empty place, that behind the last where there is none.
fn first_empty<T>(ring: &HeapCircularBuffer<Option<T>>) -> u64
    ensures value { result ≡ first_none ring.now.items }
    ensures within { result ≤ length ring.now.items }
{
    let count = ring.len();
    for i in 0..count {
        if !is_held(ring, i) {
            return i as u64;
        }
    }
    count as u64
}

/// Whether a place holds an item.
fn is_held<T>(ring: &HeapCircularBuffer<Option<T>>, index: usize) -> bool
    requires { index < length ring.now.items }
    ensures { result ≡ is_some (flat (slice_get ring.now.items index)) }
{
    match ring.get(index) {
        Some(slot) => slot.is_some(),
        None => false,
    }
}

/// Writes an item into a place.
fn place<T: Drop>(ring: &mut HeapCircularBuffer<Option<T>>, index: usize, item: T)
    requires { index < length ring.old.items }
    ensures items { ring.new.items ≡ slice_set ring.old.items index (Some item) }
    ensures capacity { ring.new.capacity ≡ ring.old.capacity }
{
    if let Some(slot) = ring.get_mut(index) {
        *slot = Some(item);
    }
}

/// The index of a position's place. It is past each ring at or below the low end.
fn index_of(low: Pos, pos: Pos) -> usize
    ensures { result ≡ (if nat_le pos low then 2 ^ 64 - 1 else pos - low - 1) }
{
    if pos <= low {
        usize::MAX
    } else {
        (pos - low - 1) as usize
    }
}
