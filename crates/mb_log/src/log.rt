//! The own log.

use crate::kept::Kept;
use crate::kinds::{is_normal, is_normal_kind};
use crate::proof::Proof;
use circular_buffer::HeapCircularBuffer;
use mb_base::{Counter, Digest, Duplicate, Host, Items, NoMemory, Shape};
use mb_msg::{Floor, FloorCert, FloorMember, Shown, StableCert, Stamped};
use mb_parts::{LOG_INTERVALS, MAX_ENTRIES, OTHER_LIMIT, Part};
use std::alloc::Global;
use std::marker::Model;

/// The most bytes that the entries of a LOG have together, where there are several.
const MAX_SENT_BYTES: usize = 800_000;

/// What a host stamped since its floor, oldest first, in the forms in which it is kept.
///
/// It stands for three searches in the host's history: what it stamped, the floor certificate with which its log was cut last, and the most that
/// its log ever held. A host appends what it stamps in order, so there the entry at index i has the counter start + 1 + i.
#[derive(Drop)]
pub struct OwnLog {
    shape: Shape,
    host: Host,
    /// The certificate with which the log was cut last.
    floor: Option<FloorCert>,
    /// This host's counter in it, 0 without one.
    start: Counter,
    entries: HeapCircularBuffer<Kept>,
    /// How many entries are PREPARE, COMMIT or CHECKPOINT.
    normal: u32,
    longest: u32,
}

impl Model for OwnLog {
    ghost use Rattle.mb_log.specs.Logs.{Log};

    ghost Value = { Log };

    ghost use Rattle.mb_log.specs.Inside.{seen, IsLog};

    ghost view = { seen };

    ghost invariant = { IsLog };
}

impl OwnLog {
    ghost use Rattle.std.specs.Prelude.{◌≡◌, ◌+◌, ◌-◌, ◌≤◌, List, ℕ, Option, Some, true, not, length, map, min, reverse, count_by, IfOk, OnOk, OnErr, IsTrue};
    ghost use Rattle.std.specs.Option.{option_copied};
    ghost use Rattle.mb_parts.specs.declared.certificates.FloorCert.{FloorCert as Certificate};
    ghost use Rattle.mb_msg.specs.declared.stamped.Stamped.{Stamped as StampedMessage};
    ghost use Rattle.mb_msg.specs.Fits.{FitsStamped};
    ghost use Rattle.mb_msg.specs.AsStamped.{stamped_digest, is_spelled_to_hash};
    ghost use Rattle.mb_msg.specs.Spelling.{stamped_kind};
    ghost use Rattle.mb_log.specs.Logs.{empty_log, start, floor_counter, has_room_for, appended, cut_at, proof_of, given_from};
    ghost use Rattle.mb_model.specs.OwnLog.{is_normal, as_shown};
    ghost use Rattle.mb_log.specs.Represents.{StandsWith, StandsCut, Shows, Gives};

    /// Nothing was stamped yet. Room for all entries is taken here.
    pub fn make(alloc: Global, shape: Shape, host: Host) -> Result<OwnLog, NoMemory>
        ensures empty { IfOk result (λ log. log ≡ empty_log shape host) }
    {
        let room = normal_limit(&shape) + OTHER_LIMIT as u32;
        Ok(OwnLog {
            shape,
            host,
            floor: None,
            start: 0,
            entries: HeapCircularBuffer::with_capacity(alloc, room as usize)?,
            normal: 0,
            longest: 0,
        })
    }

    /// Whether there is room for one more message of the kind with this first byte: fewer than 6K PREPAREs, COMMITs and CHECKPOINTs are kept, or
    /// fewer than 768 of the others.
    pub fn room(&self, kind: u8) -> bool
        ensures { result ≡ has_room_for self.now kind }
    {
        if is_normal_kind(kind) {
            self.normal < normal_limit(&self.shape)
        } else {
            self.others() < OTHER_LIMIT as u32
        }
    }

    #[tactic(auto, using(crate::proofs::Keeping::both_sorts))]
    fn others(&self) -> u32
        ensures { result ≡ count_by (λ m. not (is_normal m)) self.now.entries }
    {
        self.len() - self.normal
    }

    /// Appends a message, for which there is room. Behind an OPEN, JOIN or VIEW_CHANGE some earlier entries lose their bodies. Its own
    /// body is hashed, for which memory may be wanted of a VIEW_CHANGE, a NEW_VIEW or an OPEN alone: then the log is as it was. Of the other kinds it
    /// always succeeds.
    pub fn append(&mut self, alloc: Global, message: Stamped) -> Result<(), NoMemory>
        requires room { has_room_for self.old (stamped_kind message) ≡ true }
        requires fits { FitsStamped self.old.shape message }
        ensures ok { OnOk result (self.new ≡ appended message self.old) }
        ensures stands { OnOk result (StandsWith self.old message self.new) }
        ensures err { OnErr result (self.new ≡ self.old) }
        ensures kind { OnErr result (IsTrue (is_spelled_to_hash message)) }
    {
        let body = message.body_digest(alloc, &self.shape)?;
        self.append_with(message, body);
        Ok(())
    }

    /// The same, where the digest of its body is known. It takes no memory.
    #[tactic(auto, using(crate::proofs::Keeping::has_place, crate::proofs::Keeping::normal_more, crate::proofs::Keeping::others_more, crate::proofs::Keeping::all_fit_behind, crate::proofs::Histories::with_stands))]
    pub fn append_with(&mut self, message: Stamped, body: Digest)
        requires room { has_room_for self.old (stamped_kind message) ≡ true }
        requires fits { FitsStamped self.old.shape message }
        requires body { body ≡ stamped_digest message }
        ensures appended { self.new ≡ appended message self.old }
        ensures stands { StandsWith self.old message self.new }
    {
        shorten_behind(&mut self.entries, &message);
        self.normal += weight(&message);
        push(&mut self.entries, message, body);
        self.longest = self.longest.max(self.entries.len() as u32);
    }

    /// Drops the entries up to this host's counter in a floor certificate that was checked for it, and keeps the certificate. It takes no memory.
    #[tactic(auto, using(crate::proofs::Keeping::both_sorts, crate::proofs::Keeping::count_split, crate::proofs::Keeping::all_fit_dropped, crate::proofs::Histories::cut_stands))]
    pub fn cut(&mut self, floor: FloorCert)
        requires forward { start self.old ≤ floor_counter self.old.host (Some floor) }
        requires stamped { floor_counter self.old.host (Some floor) ≤ start self.old + length self.old.entries }
        ensures cut { self.new ≡ cut_at floor self.old }
        ensures stands { StandsCut self.old floor self.new }
    {
        let counter = counter_for(self.host, &floor);
        self.normal -= drop_first(&mut self.entries, counter - self.start);
        self.start = counter;
        self.floor = Some(floor);
    }

    /// The floor certificate, a stable one, and every entry, as a VIEW_CHANGE shows them. An error is want of memory.
    pub fn proof(&self, alloc: Global, stable: &StableCert) -> Result<Proof, NoMemory>
        ensures proof { IfOk result (λ p. p ≡ proof_of self.now stable.now) }
        ensures shows { IfOk result (λ p. Shows self.now p) }
    {
        Ok(Proof {
            floor: self.floor.duplicate(alloc)?,
            stable: stable.duplicate(alloc)?,
            entries: all_shown(alloc, &self.entries)?,
        })
    }

    /// The entries from a counter on, as a LOG has them: at most 64 and together at most 800,000 bytes in the form in which they are kept, but the
    /// first one always. An error is want of memory.
    #[tactic(auto, using(crate::proofs::Packing::drop_min, crate::proofs::Histories::since_gives))]
    pub fn since(&self, alloc: Global, from: Counter) -> Result<Items<Stamped>, NoMemory>
        ensures given { IfOk result (λ given. given ≡ given_from self.now from) }
        ensures gives { IfOk result (λ given. Gives self.now from given) }
    {
        sent_from(alloc, &self.shape, &self.entries, self.index_from(from))
    }

    /// The index of the entry with a counter: 0 where that is not behind the floor, and the length where it was not reached.
    fn index_from(&self, from: Counter) -> usize
        ensures { result ≡ min (from - (start self.now + 1)) (length self.now.entries) }
    {
        let skipped = from.saturating_sub(self.start.saturating_add(1));
        skipped.min(self.entries.len() as u64) as usize
    }

    /// The floor certificate with which the log was cut last, None exactly before the first `cut`.
    pub fn floor(&self) -> Option<&FloorCert>
        ensures { option_copied result ≡ self.now.floor }
    {
        self.floor.as_ref()
    }

    /// This host's counter in the floor certificate, 0 without one. The entries go on from it.
    pub fn start(&self) -> Counter
        ensures { result ≡ start self.now }
    {
        self.start
    }

    /// The number of entries.
    pub fn len(&self) -> u32
        ensures { result ≡ length self.now.entries }
    {
        self.entries.len() as u32
    }

    /// The most entries that the log ever held.
    pub fn longest(&self) -> u32
        ensures { result ≡ self.now.longest }
    {
        self.longest
    }
}

ghost use Rattle.std.specs.Prelude.{◌≡◌, ◌<◌, ◌^◌, ◌*◌, ◌++◌, [], ◌∷◌, length, map, take, drop, slice_get, slice_set, count_by, if◌then◌else◌};
ghost use Rattle.mb_msg.specs.AsStamped.{stamped_digest};
ghost use Rattle.mb_msg.specs.declared.stamped.Stamped.{Stamped as StampedMessage};
ghost use Rattle.mb_log.specs.Packing.{is_too_much};
ghost use Rattle.mb_base.specs.Shapes.{interval};
ghost use Rattle.mb_model.specs.UsableLogs.{normal_limit};
ghost use Rattle.std.specs.Prelude.{◌≤◌, IfOk};
ghost use Rattle.std.specs.List.{AllByRecursion};
ghost use Rattle.mb_msg.specs.Fits.{FitsStamped};
ghost use Rattle.mb_model.specs.OwnLog.{is_normal, behind, as_shown, first_packed};
ghost use Rattle.mb_log.specs.Logs.{counter_in, floor_counter};
ghost use Rattle.mb_log.specs.Takers.{takes_bodies};
ghost use Rattle.mb_parts.specs.Certificates.{floor_for};
ghost use Rattle.std.specs.Prelude.{Some};

/// The most PREPAREs, COMMITs and CHECKPOINTs.
fn normal_limit(shape: &Shape) -> u32
    ensures { result ≡ normal_limit shape.now }
{
    LOG_INTERVALS as u32 * u32::from(shape.k())
}

/// The counter of a host's floor in the first member of a certificate, 0 where there is none.
fn counter_for(host: Host, cert: &FloorCert) -> Counter
    ensures { result ≡ floor_counter host (Some cert.now) }
{
    match cert.members.as_slice().first() {
        Some(member) => counter_in(host, member),
        None => 0,
    }
}

fn counter_in(host: Host, member: &FloorMember) -> Counter
    ensures { result ≡ counter_in (floor_for host member.now) }
{
    match member.floors.as_slice().get(usize::from(host)) {
        Some(Some(floor)) => floor.counter,
        Some(None) | None => 0,
    }
}

/// Every entry, as a VIEW_CHANGE shows it.
#[tactic(auto, using(crate::proofs::Keeping::shown_more))]
fn all_shown(alloc: Global, entries: &HeapCircularBuffer<Kept>) -> Result<Items<Shown>, NoMemory>
    ensures { IfOk result (λ shown. shown ≡ map as_shown entries.now.items) }
{
    let mut shown = Items::new(alloc);
    for index in 0..entries.len() {
        shown.push(kept_at(entries, index).as_shown(alloc)?)?;
    }
    Ok(shown)
}

/// The entries from an index on, as a LOG has them.
fn sent_from(
    alloc: Global,
    shape: &Shape,
    entries: &HeapCircularBuffer<Kept>,
    first: usize,
) -> Result<Items<Stamped>, NoMemory>
    requires first { first ≤ length entries.now.items }
    requires fit { AllByRecursion (FitsStamped shape.now) entries.now.items }
    ensures { IfOk result (λ sent. sent ≡ first_packed (drop first entries.now.items)) }
{
    let mut sent = Items::new(alloc);
    let mut bytes = 0;
    for index in first..entries.len() {
        let message = kept_at(entries, index).message();
        let with_message = message.count(shape, bytes);
        if is_too_much(sent.len(), with_message) {
            return Ok(sent);
        }
        sent.push(message.duplicate(alloc)?)?;
        bytes = with_message;
    }
    Ok(sent)
}

/// Whether a LOG has no room for one more message behind so many, where all have so many bytes.
fn is_too_much(sent: usize, bytes: usize) -> bool
    ensures { result ≡ is_too_much sent bytes }
{
    sent >= MAX_ENTRIES as usize || (sent > 0 && bytes > MAX_SENT_BYTES)
}

/// 1 for a PREPARE, COMMIT or CHECKPOINT, 0 for another message.
fn weight(message: &Stamped) -> u32
    ensures { result ≡ (if is_normal message.now then 1 else 0) }
{
    if is_normal(message) { 1 } else { 0 }
}

fn kept_at(entries: &HeapCircularBuffer<Kept>, index: usize) -> &Kept
    requires { index < length entries.now.items }
    ensures { slice_get entries.now.items index ≡ Some result.now }
{
    match entries.get(index) {
        Some(entry) => entry,
        None => unreachable!(),
    }
}

/// Appends a message with the digest of its body.
fn push(entries: &mut HeapCircularBuffer<Kept>, message: Stamped, body: Digest)
    requires room { length entries.old.items < entries.old.capacity }
    requires body { body ≡ stamped_digest message }
    ensures items { entries.new.items ≡ entries.old.items ++ message ∷ [] }
    ensures capacity { entries.new.capacity ≡ entries.old.capacity }
{
    let _ = entries.try_push_back(Kept::new(message, body));
}

/// Whether a message takes the bodies of some that stand before it.
fn takes_bodies(message: &Stamped) -> bool
    ensures { result ≡ takes_bodies message.now }
{
    match message {
        Stamped::ViewChange(_) | Stamped::Open(_) | Stamped::Join(_) => true,
        Stamped::Prepare(_)
        | Stamped::Commit(_)
        | Stamped::Checkpoint(_)
        | Stamped::NewView(_)
        | Stamped::Enter(_) => false,
    }
}

/// Takes from the entries the bodies that are not kept once this message is stamped behind them.
#[tactic(auto, using(crate::proofs::Keeping::none_taken))]
fn shorten_behind(entries: &mut HeapCircularBuffer<Kept>, message: &Stamped)
    ensures items { entries.new.items ≡ map (behind message.now) entries.old.items }
    ensures capacity { entries.new.capacity ≡ entries.old.capacity }
{
    if !takes_bodies(message) {
        return;
    }
    for index in 0..entries.len() {
        shorten_at(entries, index, message);
    }
}

/// Takes from one entry the body that is not kept once this message is stamped behind it.
fn shorten_at(entries: &mut HeapCircularBuffer<Kept>, index: usize, message: &Stamped)
    requires { index < length entries.old.items }
    ensures items { (x : StampedMessage) → slice_get entries.old.items index ≡ Some x → entries.new.items ≡ slice_set entries.old.items index (behind message.now x) }
    ensures capacity { entries.new.capacity ≡ entries.old.capacity }
{
    if let Some(entry) = entries.get_mut(index) {
        entry.shorten_behind(message);
    }
}

/// Drops so many entries at the front, all of them at most. Answers how many of these are PREPARE, COMMIT or CHECKPOINT.
#[tactic(auto, using(crate::proofs::Keeping::count_next, crate::proofs::Keeping::count_few))]
fn drop_first(entries: &mut HeapCircularBuffer<Kept>, count: u64) -> u32
    requires { length entries.old.items < 2 ^ 32 }
    ensures items { entries.new.items ≡ drop count entries.old.items }
    ensures capacity { entries.new.capacity ≡ entries.old.capacity }
    ensures value { result ≡ count_by is_normal (take count entries.old.items) }
{
    let mut normal = 0;
    for _ in 0..count {
        normal += drop_one(entries);
    }
    normal
}

/// Drops the first entry. Answers 1 where it is PREPARE, COMMIT or CHECKPOINT.
#[tactic(auto, using(crate::proofs::Keeping::first_counted, crate::proofs::Keeping::none_counted))]
fn drop_one(entries: &mut HeapCircularBuffer<Kept>) -> u32
    ensures items { entries.new.items ≡ drop 1 entries.old.items }
    ensures capacity { entries.new.capacity ≡ entries.old.capacity }
    ensures value { result ≡ count_by is_normal (take 1 entries.old.items) }
{
    match entries.pop_front() {
        Some(entry) => weight(entry.message()),
        None => 0,
    }
}
