//! Slots, and which requests they order.

ghost use Rattle.std.specs.Prelude.{◌≡◌, ◌<◌, ◌≤◌, ◌+◌, ◌-◌, ◌^◌, ℕ, length, map, replicate, slice_index_or, option_copied, IfOk};
ghost use Rattle.mb_base.specs.Shapes.{span, client_count};
ghost use Rattle.mb_model.specs.EnabledRules.{greatest, number_of};
ghost use Rattle.mb_normal.specs.Ordered.{greatest_in_known, IsGreatest, AreMore};

use mb_base::{Client, NoMemory, Pos, Seq, Shape};
use mb_model::KnownSlot;
use mb_msg::Request;
use mb_window::{Refused, Window};
use std::alloc::Global;

/// For each position of the window what is known of it, the search `slot_at` in a host's history, and for each client the greatest number of
/// its requests in these slots, `greatest_in_slots`.
#[derive(Drop)]
pub(crate) struct Slots {
    shape: Shape,
    pub(crate) window: Window<KnownSlot>,
    greatest: Vec<Seq>,
    ghost width: { length window.items ≡ span shape },
    ghost clients: { length greatest.items ≡ client_count shape },
    ghost is_greatest: { IsGreatest window.items greatest.items },
}

impl Slots {
    ghost use Rattle.std.specs.Prelude.{◌≡◌, ◌≤◌, ◌<◌, ◌+◌, ◌-◌, ◌^◌, ℕ, Option, IfOk, OnOk, OnErr};
    ghost use Rattle.std.specs.Option.{option_copied};
    ghost use Rattle.mb_base.specs.Shapes.{span, client_count};
    ghost use Rattle.mb_model.specs.declared.known.KnownSlot.{KnownSlot as SlotValue};
    ghost use Rattle.mb_window.specs.Refusing.{Refuses};
    ghost use Rattle.mb_window.specs.Represents.{Represents, StandsWith, StandsAbove, StandsForNothing};
    ghost use Rattle.mb_window.specs.Places.{item_at};
    ghost use Rattle.mb_normal.specs.Ordered.{greatest_in_window};

    /// No slots above the stable position 0. All memory is taken here.
    pub(crate) fn make(alloc: Global, shape: Shape) -> Result<Slots, NoMemory>
        ensures shape { IfOk result (λ t. t.shape ≡ shape) }
        ensures nothing { IfOk result (λ t. StandsForNothing t.window 0) }
    {
        Ok(Slots {
            shape,
            window: Window::make(alloc, 0, shape.span())?,
            greatest: zeros(alloc, shape.clients())?,
        })
    }

    /// The slot of a position.
    pub(crate) fn get(&self, pos: Pos) -> Option<&KnownSlot>
        ensures { option_copied result ≡ item_at self.now.window pos }
    {
        self.window.get(pos)
    }

    /// Puts the slot of a position. Where it is refused nothing changes. It takes no memory.
    pub(crate) fn put(&mut self, pos: Pos, slot: KnownSlot) -> Result<(), Refused<KnownSlot>>
        ensures refused { Refuses self.old.window pos slot result }
        ensures ok { OnOk result (StandsWith self.old.window pos slot self.new.window) }
        ensures shape { self.new.shape ≡ self.old.shape }
        ensures err { OnErr result (self.new ≡ self.old) }
    {
        self.window.put(pos, slot)?;
        note(&mut self.greatest, self.window.get(pos));
        Ok(())
    }

    /// The greatest number of a client's requests in the slots, 0 where there is none.
    pub(crate) fn greatest_of(&self, client: Client) -> Seq
        requires { client < client_count self.now.shape }
        ensures { (low : ℕ) (search : ℕ → Option SlotValue) → Represents self.now.window low search → result ≡ greatest_in_window self.now.shape low search client }
    {
        self.greatest[usize::from(client)]
    }

    /// The stable position becomes this one. It takes no memory.
    pub(crate) fn raise(&mut self, low: Pos)
        requires low { self.old.window.low ≤ low }
        requires top { low + span self.old.shape ≤ 2 ^ 64 - 2 }
        ensures stands { StandsAbove self.old.window low self.new.window }
        ensures shape { self.new.shape ≡ self.old.shape }
    {
        self.window.raise(low);
        recount(&self.window, self.shape.span(), &mut self.greatest);
    }

    /// No slots any more. It takes no memory.
    pub(crate) fn clear(&mut self)
        ensures nothing { StandsForNothing self.new.window self.old.window.low }
        ensures shape { self.new.shape ≡ self.old.shape }
    {
        self.window.clear();
        forget(&mut self.greatest);
    }
}

fn zeros(alloc: Global, count: u8) -> Result<Vec<Seq>, NoMemory>
    ensures { IfOk result (λ v. v.items ≡ replicate count 0) }
{
    let mut all = Vec::with_capacity(alloc, usize::from(count))?;
    for _ in 0..count {
        all.push(0)?;
    }
    Ok(all)
}

/// Every number becomes 0.
fn forget(numbers: &mut Vec<Seq>)
    ensures length { length numbers.new.items ≡ length numbers.old.items }
    ensures zero { (c : ℕ) → c < length numbers.new.items → slice_index_or numbers.new.items c 0 ≡ 0 }
{
    for number in numbers.iter_mut() {
        *number = 0;
    }
}

/// Counts the requests of a slot. Those of clients that there are not do not count.
fn note(numbers: &mut Vec<Seq>, slot: Option<&KnownSlot>)
    ensures length { length numbers.new.items ≡ length numbers.old.items }
    ensures max { AreMore (λ c. greatest_in_known c (option_copied slot.entry)) numbers.old.items numbers.new.items }
{
    let Some(slot) = slot else {
        return;
    };
    if let Some(batch) = &slot.batch {
        note_requests(numbers, batch.requests.as_slice());
    }
}

fn note_requests(numbers: &mut Vec<Seq>, requests: &[Request])
    ensures length { length numbers.new.items ≡ length numbers.old.items }
    ensures max { AreMore (λ c. greatest (map (number_of c) requests.now)) numbers.old.items numbers.new.items }
{
    for request in requests {
        note_request(numbers, request);
    }
}

fn note_request(numbers: &mut Vec<Seq>, request: &Request)
    ensures length { length numbers.new.items ≡ length numbers.old.items }
    ensures max { AreMore (λ c. number_of c request.now) numbers.old.items numbers.new.items }
{
    let client = usize::from(request.client);
    if client < numbers.len() {
        numbers[client] = numbers[client].max(request.seq);
    }
}

/// Counts the requests of all slots anew.
fn recount(window: &Window<KnownSlot>, span: u32, numbers: &mut Vec<Seq>)
    requires width { length window.now.items ≡ span }
    requires top { window.now.low + span ≤ 2 ^ 64 - 2 }
    ensures length { length numbers.new.items ≡ length numbers.old.items }
    ensures all { IsGreatest window.now.items numbers.new.items }
{
    forget(numbers);
    let low = window.low();
    for step in 0..u64::from(span) {
        note(numbers, window.get(low + 1 + step));
    }
}
