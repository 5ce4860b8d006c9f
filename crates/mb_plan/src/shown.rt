//! Whether a VIEW_CHANGE is usable.

ghost use Rattle.std.specs.Prelude.{◌≡◌, ◌≤◌, ◌<◌, ◌+◌, ◌==◌, ◌&&◌, not, true, None, Some, [], Option, IfOk, IfSome, OnOk, IsTrue, length, count_by, nat_le, option_and_then};
ghost use Rattle.std.specs.Bool.{then_some};
ghost use Rattle.std.specs.Option.{option_or};
ghost use Rattle.std.specs.List.{AllByRecursion};
ghost use Rattle.mb_usig.specs.Tags.{is_certified};
ghost use Rattle.mb_base.specs.Shapes.{host_count};
ghost use Rattle.mb_parts.specs.declared.floor.Floor.{Floor as TheFloor};
ghost use Rattle.mb_parts.specs.Fits.{IsPlace, FitsFloorCert};
ghost use Rattle.mb_msg.specs.Bodies.{whole_body};
ghost use Rattle.mb_msg.specs.Fits.{FitsShown, FitsChangeBody, FitsViewChange};
ghost use Rattle.mb_msg.specs.Stamps.{bare_of_shown, ui_of_shown};
ghost use Rattle.mb_gate.specs.Represents.{Represents};
ghost use Rattle.mb_gate.specs.SenderLogs.{SenderLog, log_from, standing, may_stand};
ghost use Rattle.mb_model.specs.Verified.{verifies};
ghost use Rattle.mb_model.specs.UsableLogs.{floor_of, floor_position, is_ill_founded, is_too_long, is_normal_kind, entries_fault, newest_first, log_fault, fault_from, entry_claim, bares};
ghost use Rattle.mb_plan.specs.Faults.{Answers};
ghost use Rattle.mb_plan.specs.Looked.{IsVoteFound, AreFound};
ghost use Rattle.mb_plan.specs.Behind.{log_of, taking, is_next, gate_reason, body_reason, behind_founding};

use crate::bodies::{is_sound_body, shown_bare, shown_inner_valid};
use crate::certificates::{certified_floor, is_stable};
use crate::entries::{has_body, height, is_normal, opened_from, shows_body};
use crate::looked::{FoundVote, Place, find_vote};
use mb_base::{Host, NoMemory, Pos, Shape, Ui, View};
use mb_gate::{Gate, Offer};
use mb_msg::{Batch, Body, ChangeBody, Shown, ViewChange};
use mb_parts::{Floor, LOG_INTERVALS, OTHER_LIMIT, Phase};
use mb_usig::Usig;
use std::alloc::Global;

/// Why a VIEW_CHANGE is not usable.
#[derive(Clone, Copy, Debug, PartialEq, Eq)]
pub enum BadProof {
    /// The index of the first entry that fails, and the first reason that fails for it.
    At { index: u16, reason: u8 },
    NoMemory,
}

impl From<NoMemory> for BadProof {
    ghost use Rattle.std.specs.Prelude.{◌≡◌};
    ghost use Rattle.mb_plan.specs.declared.shown.BadProof.TheVariants as variants;

    ghost from_gives = { λ _ proof. proof ≡ variants.NoMemory };

    fn from(_e: NoMemory) -> BadProof {
        BadProof::NoMemory
    }
}

fn at(index: usize, reason: u8) -> BadProof
    requires { index < 65536 }
    ensures { result ≡ BadProof.At index reason }
{
    BadProof::At {
        index: index as u16,
        reason,
    }
}

/// Where a log begins: at its host's start, or at the floor that f+1 hosts certified.
fn floor_of(shape: &Shape, usig: &Usig, host: Host, body: &ChangeBody) -> Option<Floor>
    requires { FitsChangeBody shape.now body.now }
    ensures { result ≡ floor_of shape.now (verifies usig.now.secret) host body.now.floor }
{
    match &body.floor {
        None => Some(Floor {
            counter: 0,
            view: 0,
            phase: Phase::Open,
            last: 0,
            top: 0,
            point: 0,
        }),
        Some(cert) => certified_floor(shape, usig, host, cert),
    }
}

/// The position of the floor certificate; 0 at the start.
fn floor_position(body: &ChangeBody) -> Pos
    ensures { result ≡ floor_position body.now.floor }
{
    match &body.floor {
        None => 0,
        Some(cert) => cert.pos,
    }
}

/// Whether the stable certificate does not check, or is below the floor certificate.
fn is_ill_founded(shape: &Shape, usig: &Usig, body: &ChangeBody) -> bool
    requires { FitsChangeBody shape.now body.now }
    ensures { result ≡ is_ill_founded shape.now usig.now.secret (verifies usig.now.secret) body.now }
{
    !is_stable(shape, usig, &body.stable) || body.stable.pos < floor_position(body)
}

/// How many entries are PREPAREs, COMMITs and CHECKPOINTs.
fn count_normal(entries: &[Shown]) -> usize
    ensures value { result ≡ count_by is_normal_kind entries.now }
    ensures most { result ≤ length entries.now }
{
    let mut count = 0;
    for entry in entries {
        if is_normal(entry) {
            count += 1;
        }
    }
    count
}

/// Whether there are more entries than allowed, of one sort or the other.
#[tactic(auto, using(crate::proofs::Counts::count_others))]
fn is_too_long(shape: &Shape, usig: &Usig, entries: &[Shown]) -> bool
    ensures { result ≡ is_too_long shape.now usig.now.secret (verifies usig.now.secret) entries.now }
{
    let normal = count_normal(entries);
    normal > LOG_INTERVALS as usize * usize::from(shape.k())
        || entries.len() - normal > OTHER_LIMIT as usize
}

/// Whether a counter is the one that a gate waits for.
fn is_next(gate: &Gate, counter: u64) -> bool
    ensures { (log : SenderLog) → Represents gate.now log → result ≡ is_next log counter }
{
    let last = gate.at().counter;
    counter > last && counter - last == 1
}

/// Whether an identifier is the host's, and its tag that of these bytes.
fn is_claimed(usig: &Usig, host: Host, ui: &Ui, bare: &[u8]) -> bool
    ensures { result ≡ (ui.now.host == host && is_certified usig.now.secret host ui.now.counter bare.now ui.now.cert) }
{
    let claimed = Ui { host, ..*ui };
    ui.host == host && usig.verify_ui(bare, &claimed)
}

/// Whether an entry that is next may stand there. Then the gate takes it.
#[tactic(auto, using(crate::proofs::Marked::stamped, crate::proofs::Marked::marked))]
fn takes(gate: &mut Gate, entry: &Shown, inner: bool) -> bool
    ensures answer { (log : SenderLog) → Represents gate.old log → log.closed ≡ None → IsTrue (is_next log (ui_of_shown entry.now).counter) → result ≡ may_stand log inner (bare_of_shown entry.now) }
    ensures stands { (log : SenderLog) → Represents gate.old log → log.closed ≡ None → IsTrue (is_next log (ui_of_shown entry.now).counter) → IsTrue result → Represents gate.new (taking log entry.now) }
{
    match gate.offer(&entry.mark(), inner) {
        Offer::Next => true,
        _ => false,
    }
}

/// The first reason that fails for an entry by its counter, its identifier, and the gate. The gate takes an entry that may stand there. `found` is
/// what was found of it.
fn gate_reason(
    alloc: Global,
    shape: &Shape,
    usig: &Usig,
    host: Host,
    gate: &mut Gate,
    entry: &Shown,
    found: &FoundVote,
) -> Result<Option<u8>, NoMemory>
    requires { FitsShown shape.now entry.now × IsVoteFound shape.now usig.now.secret entry.now found.now }
    ensures reason { (log : SenderLog) → Represents gate.old log → log.shape ≡ shape.now → log.sender ≡ host → log.closed ≡ None
        → IfOk result (λ reason. reason ≡ gate_reason (verifies usig.now.secret) log entry.now) }
    ensures stands { (log : SenderLog) → Represents gate.old log → log.shape ≡ shape.now → log.sender ≡ host → log.closed ≡ None
        → IfOk result (λ reason. reason ≡ None → Represents gate.new (taking log entry.now)) }
{
    let ui = entry.ui();
    if !is_next(gate, ui.counter) {
        return Ok(Some(3));
    }
    let bare = shown_bare(alloc, shape, usig, entry, found)?;
    if !is_claimed(usig, host, &ui, bare.as_slice()) {
        return Ok(Some(4));
    }
    let inner = shown_inner_valid(shape, usig, entry, found);
    if !takes(gate, entry, inner) {
        return Ok(Some(5));
    }
    Ok(None)
}

/// The first reason that fails for the form, the height, and what the body shows. `last` says that no opening is behind the entry, and `known` are
/// batches that may keep their digests.
fn body_reason(
    alloc: Global,
    shape: &Shape,
    usig: &Usig,
    known: &[Batch],
    stable: Pos,
    last: bool,
    entry: &Shown,
    found: &FoundVote,
) -> Result<Option<u8>, NoMemory>
    requires { (usig.now.shape ≡ shape.now) × IsPlace stable × FitsShown shape.now entry.now × IsVoteFound shape.now usig.now.secret entry.now found.now }
    ensures { IfOk result (λ reason. reason ≡ body_reason shape.now usig.now.secret (verifies usig.now.secret) stable last entry.now) }
{
    if shows_body(entry) != (has_body(entry) && last) {
        return Ok(Some(6));
    }
    if height(entry) > stable + u64::from(shape.span()) {
        return Ok(Some(7));
    }
    if !is_sound_body(alloc, shape, usig, known, entry, found)? {
        return Ok(Some(8));
    }
    Ok(None)
}

/// Takes all entries, up to the first that fails. `places` is what was found of the votes of other logs.
fn take_entries<'a>(
    alloc: Global,
    shape: &Shape,
    usig: &Usig,
    known: &[Batch],
    places: &mut [Place<'a>],
    host: Host,
    stable: Pos,
    gate: &mut Gate,
    entries: &'a [Shown],
) -> Result<(), BadProof>
    requires fits { (usig.now.shape ≡ shape.now) × IsPlace stable × AllByRecursion (FitsShown shape.now) entries.now × (length entries.now < 65536) }
    requires places { AreFound shape.now usig.now.secret places.old }
    ensures fault { (o : TheFloor) → Represents gate.old (log_from shape.now host o)
        → Answers (entries_fault shape.now usig.now.secret (verifies usig.now.secret) host stable o [] entries.now) result }
    ensures stands { (o : TheFloor) → Represents gate.old (log_from shape.now host o)
        → OnOk result (Represents gate.new (log_of shape.now host o (newest_first [] entries.now))) }
    ensures places { AreFound shape.now usig.now.secret places.new }
{
    let opened = opened_from(entries);
    for index in 0..entries.len() {
        let entry = &entries[index];
        let found = find_vote(alloc, shape, usig, places, entry)?;
        if let Some(reason) = gate_reason(alloc, shape, usig, host, gate, entry, &found)? {
            return Err(at(index, reason));
        }
        let last = index >= opened;
        if let Some(reason) = body_reason(alloc, shape, usig, known, stable, last, entry, &found)? {
            return Err(at(index, reason));
        }
    }
    Ok(())
}

/// What is asked behind the last entry: the VIEW_CHANGE has the next counter, and goes to a later view.
fn check_end(gate: &Gate, view: View, counter: u64, end: usize) -> Result<(), BadProof>
    requires { end < 65536 }
    ensures { (log : SenderLog) → Represents gate.now log
        → Answers (option_or (then_some (not (is_next log counter)) (end, 3)) (then_some (nat_le view (standing log).view) (end, 5))) result }
{
    if !is_next(gate, counter) {
        return Err(at(end, 3));
    }
    if view <= gate.at().view {
        return Err(at(end, 5));
    }
    Ok(())
}

/// The first fault of a log that goes on from a floor, behind what is asked of its certificates.
fn check_entries<'a>(
    alloc: Global,
    shape: &Shape,
    usig: &Usig,
    known: &[Batch],
    places: &mut [Place<'a>],
    change: &ViewChange,
    body: &'a ChangeBody,
    floor: Floor,
) -> Result<(), BadProof>
    requires fits { (usig.now.shape ≡ shape.now) × FitsViewChange shape.now change.now × FitsChangeBody shape.now body.now }
    requires places { AreFound shape.now usig.now.secret places.old }
    ensures places { AreFound shape.now usig.now.secret places.new }
    ensures fault { Answers (behind_founding shape.now usig.now.secret (verifies usig.now.secret) change.now.ui.host change.now.view change.now.ui.counter body.now floor) result }
{
    let host = change.ui.host;
    let entries = body.entries.as_slice();
    let mut gate = Gate::from(*shape, host, floor);
    take_entries(
        alloc,
        shape,
        usig,
        known,
        places,
        host,
        body.stable.pos,
        &mut gate,
        entries,
    )?;
    check_end(&gate, change.view, change.ui.counter, entries.len())
}

/// The first fault of a whole log.
#[tactic(auto, unfolding(mb_model::specs::UsableLogs::log_fault))]
fn check_log<'a>(
    alloc: Global,
    shape: &Shape,
    usig: &Usig,
    known: &[Batch],
    places: &mut [Place<'a>],
    change: &ViewChange,
    body: &'a ChangeBody,
) -> Result<(), BadProof>
    requires fits { (usig.now.shape ≡ shape.now) × FitsViewChange shape.now change.now × FitsChangeBody shape.now body.now }
    requires places { AreFound shape.now usig.now.secret places.old }
    ensures places { AreFound shape.now usig.now.secret places.new }
    ensures fault { Answers (log_fault shape.now usig.now.secret (verifies usig.now.secret) change.now.ui.host change.now.view change.now.ui.counter body.now) result }
{
    let Some(floor) = floor_of(shape, usig, change.ui.host, body) else {
        return Err(at(0, 1));
    };
    if is_ill_founded(shape, usig, body) {
        return Err(at(0, 2));
    }
    if is_too_long(shape, usig, body.entries.as_slice()) {
        return Err(at(0, 9));
    }
    check_entries(alloc, shape, usig, known, places, change, body, floor)
}

/// Whether a VIEW_CHANGE is usable, as [`usable`] says. `places` is what was found of the votes of other logs.
pub(crate) fn usable_beside<'a>(
    alloc: Global,
    shape: &Shape,
    usig: &Usig,
    known: &[Batch],
    places: &mut [Place<'a>],
    change: &'a ViewChange,
) -> Result<(), BadProof>
    requires fits { (usig.now.shape ≡ shape.now) × FitsViewChange shape.now change.now }
    requires places { AreFound shape.now usig.now.secret places.old }
    ensures places { AreFound shape.now usig.now.secret places.new }
    ensures fault { Answers (option_and_then (log_fault shape.now usig.now.secret (verifies usig.now.secret) change.now.ui.host change.now.view change.now.ui.counter) (whole_body change.now.body)) result }
{
    match &change.body {
        Body::Whole(body) => check_log(alloc, shape, usig, known, places, change, body.as_part()),
        Body::Bare(_) => Ok(()),
    }
}

/// Whether a VIEW_CHANGE is usable: yes exactly where it has no fault, or else the first entry that fails, and the first reason that fails for
/// it. One whose body came as its digest shows nothing, so nothing fails. The shape is that of the trusted part, and each field has an allowed
/// value. `NoMemory` tells that memory ran out, and nothing of the VIEW_CHANGE.
pub fn usable(
    alloc: Global,
    shape: &Shape,
    usig: &Usig,
    change: &ViewChange,
) -> Result<(), BadProof>
    requires { (usig.now.shape ≡ shape.now) × FitsViewChange shape.now change.now }
    ensures { Answers (option_and_then (log_fault shape.now usig.now.secret (verifies usig.now.secret) change.now.ui.host change.now.view change.now.ui.counter) (whole_body change.now.body)) result }
{
    usable_knowing(alloc, shape, usig, &[], change)
}

/// The same, by who may know batches of it: `known` are some that may keep their digests, as those of a plan that is held. Of the same batches in an OPEN
/// these digests are taken.
pub fn usable_knowing(
    alloc: Global,
    shape: &Shape,
    usig: &Usig,
    known: &[Batch],
    change: &ViewChange,
) -> Result<(), BadProof>
    requires { (usig.now.shape ≡ shape.now) × FitsViewChange shape.now change.now }
    ensures { Answers (option_and_then (log_fault shape.now usig.now.secret (verifies usig.now.secret) change.now.ui.host change.now.view change.now.ui.counter) (whole_body change.now.body)) result }
{
    usable_beside(alloc, shape, usig, known, &mut [], change)
}
