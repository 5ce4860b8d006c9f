//! The digest of a state with its client table.

ghost use Rattle.std.specs.Prelude.{◌≡◌, ◌++◌, ℕ, List, IfOk, OnOk};
ghost use Rattle.std.specs.List.{flat_map, range_with_len};
ghost use Rattle.mb_service.specs.declared.service.TheConstants.{PARTS};
ghost use Rattle.mb_model.specs.States.{parts_of, state_digest};
ghost use Rattle.mb_cache.specs.Represents.{joined, snapshots_of};
ghost use Rattle.mb_cache.specs.Digests.{part_digest};

use crate::table::Table;
use mb_base::{Digest, NoMemory, Pos};
use mb_service::{PARTS, Service};
use sha2::{Digest as Hasher, Sha256};
use std::alloc::Global;

/// The digest of a state at a position: the SHA-256 (FIPS 180-4) of the digests of its parts, the client table's last, and the position.
/// The service keeps the digests of its parts, so that only those are hashed again that changed.
///
/// The state stays as it is, also after `NoMemory`.
pub fn digest<V: Service>(
    alloc: Global,
    service: &mut V,
    table: &Table,
    pos: Pos,
) -> Result<Digest, NoMemory>
    ensures digest { IfOk result (λ d. d ≡ state_digest (parts_of (snapshots_of V.machine) (joined service.old table.now)) pos) }
    ensures kept { service.new ≡ service.old }
{
    let mut hasher = Sha256::new();
    hash_parts(alloc, service, &mut hasher)?;
    let replies = table.part(alloc)?;
    hasher.update(Sha256::digest(replies.as_slice()));
    hasher.update(pos.to_be_bytes());
    Ok(hasher.finalize())
}

/// Feeds a hasher with the digest of each part of the service.
fn hash_parts<V: Service, H: Hasher>(
    alloc: Global,
    service: &mut V,
    hasher: &mut H,
) -> Result<(), NoMemory>
    ensures hashed { OnOk result ((m : List ℕ) → H.holds hasher.old m → H.holds hasher.new (m ++ flat_map (part_digest V.machine.part_of service.old) (range_with_len 0 PARTS))) }
    ensures kept { service.new ≡ service.old }
{
    for part in 0..PARTS {
        hasher.update(service.part_digest(alloc, part)?);
    }
    Ok(())
}
