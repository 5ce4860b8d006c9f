//! What the members of certificates claim: the bytes that their hosts' trusted counters are to have bound, without memory.

ghost use Rattle.std.specs.Prelude.{◌≡◌, ◌≤◌, ◌+◌, ◌++◌, ℕ, List, length, take};
ghost use Rattle.mb_parts.specs.Bares.{bare_bytes, Checkpoint, Enter, NewView};

use mb_base::{Counter, Digest, Pos, View};

/// Kind, position, state digest, and the digest of the floors, in bytes.
pub const CHECKPOINT_BARE: usize = 1 + 8 + 32 + 32;

/// Kind, view, the NEW_VIEW's counter, and the plan digest, in bytes.
pub const ENTER_BARE: usize = 1 + 8 + 8 + 32;

/// Kind, view, base, end, and the digests of plan and body, in bytes.
pub const NEW_VIEW_BARE: usize = 1 + 8 + 8 + 8 + 32 + 32;

/// The first bytes of the kinds.
const CHECKPOINT: u8 = 5;

const NEW_VIEW: u8 = 8;

const ENTER: u8 = 9;

/// Writes bytes behind those that stand in front of a place.
fn write(bare: &mut [u8], place: usize, bytes: &[u8])
    requires { place + length bytes.now ≤ length bare.old }
    ensures length { length bare.new ≡ length bare.old }
    ensures front { (front : List ℕ) → take place bare.old ≡ front → take (place + length bytes.now) bare.new ≡ front ++ bytes.now }
{
    bare[place..place + bytes.len()].copy_from_slice(bytes);
}

/// What the certificate of a CHECKPOINT covers. `floors` is the digest of its floors.
#[tactic(auto, unfolding(mb_parts::specs::Bares::bare_bytes))]
pub fn checkpoint_bare(pos: Pos, state: &Digest, floors: &Digest) -> [u8; CHECKPOINT_BARE]
    ensures { result ≡ bare_bytes (Checkpoint pos state.now floors.now) }
{
    let mut bare = [0; CHECKPOINT_BARE];
    write(&mut bare, 0, &[CHECKPOINT]);
    write(&mut bare, 1, &pos.to_be_bytes());
    write(&mut bare, 9, state);
    write(&mut bare, 41, floors);
    bare
}

/// What the certificate of an ENTER covers. `counter` is that of the NEW_VIEW which it answers.
#[tactic(auto, unfolding(mb_parts::specs::Bares::bare_bytes))]
pub fn enter_bare(view: View, counter: Counter, plan: &Digest) -> [u8; ENTER_BARE]
    ensures { result ≡ bare_bytes (Enter view counter plan.now) }
{
    let mut bare = [0; ENTER_BARE];
    write(&mut bare, 0, &[ENTER]);
    write(&mut bare, 1, &view.to_be_bytes());
    write(&mut bare, 9, &counter.to_be_bytes());
    write(&mut bare, 17, plan);
    bare
}

/// What the certificate of a NEW_VIEW covers. `body` is the digest of its VIEW_CHANGEs.
#[tactic(auto, unfolding(mb_parts::specs::Bares::bare_bytes))]
pub fn new_view_bare(
    view: View,
    base: Pos,
    end: Pos,
    plan: &Digest,
    body: &Digest,
) -> [u8; NEW_VIEW_BARE]
    ensures { result ≡ bare_bytes (NewView view base end plan.now body.now) }
{
    let mut bare = [0; NEW_VIEW_BARE];
    write(&mut bare, 0, &[NEW_VIEW]);
    write(&mut bare, 1, &view.to_be_bytes());
    write(&mut bare, 9, &base.to_be_bytes());
    write(&mut bare, 17, &end.to_be_bytes());
    write(&mut bare, 25, plan);
    write(&mut bare, 57, body);
    bare
}
