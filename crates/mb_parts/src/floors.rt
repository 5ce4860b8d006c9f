//! The digest of the floors of a CHECKPOINT.

ghost use Rattle.std.specs.Prelude.{◌≡◌, ◌++◌, ℕ, List};
ghost use Rattle.std.specs.List.{flat_map};
ghost use Rattle.sha2.specs.Sha256.{sha256};
ghost use Rattle.mb_base.specs.Spelling.{optional};
ghost use Rattle.mb_parts.specs.Spelling.{floor_bytes, floors_bytes};

use crate::floor::Floor;
use crate::request::byte;
use mb_base::Digest;
use sha2::{Digest as Hasher, Sha256};

/// Feeds a hasher with the bytes of a floor.
#[tactic(auto, unfolding(crate::specs::Spelling::floor_bytes))]
fn feed_floor<H: Hasher>(hasher: &mut H, floor: &Floor)
    ensures { (m : List ℕ) → H.holds hasher.old m → H.holds hasher.new (m ++ floor_bytes floor.now) }
{
    hasher.update(floor.counter.to_be_bytes());
    hasher.update(floor.view.to_be_bytes());
    hasher.update(byte(floor.phase.number()));
    hasher.update(floor.last.to_be_bytes());
    hasher.update(floor.top.to_be_bytes());
    hasher.update(floor.point.to_be_bytes());
}

/// Feeds a hasher with a floor, or with the byte that stands for none.
fn feed_place<H: Hasher>(hasher: &mut H, place: &Option<Floor>)
    ensures { (m : List ℕ) → H.holds hasher.old m → H.holds hasher.new (m ++ optional floor_bytes place.now) }
{
    match place {
        None => hasher.update(byte(0)),
        Some(floor) => {
            hasher.update(byte(1));
            feed_floor(hasher, floor);
        }
    }
}

/// Feeds a hasher with a floor, or none, of each host.
fn feed<H: Hasher>(hasher: &mut H, floors: &[Option<Floor>])
    ensures { (m : List ℕ) → H.holds hasher.old m → H.holds hasher.new (m ++ floors_bytes floors.now) }
{
    for place in floors {
        feed_place(hasher, place);
    }
}

/// The SHA-256 digest (FIPS 180-4) of the floors of a CHECKPOINT, by host.
pub fn floors_digest(floors: &[Option<Floor>]) -> Digest
    ensures { result ≡ sha256 (floors_bytes floors.now) }
{
    let mut hasher = Sha256::new();
    feed(&mut hasher, floors);
    hasher.finalize()
}
