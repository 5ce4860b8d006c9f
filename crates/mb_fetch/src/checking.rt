//! Whether the parts of a STATE are those that are certified.

ghost use Rattle.std.specs.Prelude.{◌≡◌, ◌++◌, ℕ, List};
ghost use Rattle.std.specs.List.{flat_map};
ghost use Rattle.sha2.specs.Sha256.{sha256};
ghost use Rattle.mb_model.specs.States.{digest_string};
ghost use Rattle.mb_model.specs.PlainChecks.{wrong_part};
ghost use Rattle.mb_fetch.specs.Checks.{HasParts, Keeps, first_wrong};

use crate::parts::Kept;
use mb_base::{Digest, Pos};
use mb_msg::StateMsg;
use mb_parts::PART_COUNT;
use sha2::{Digest as Hasher, Sha256};

/// The number that stands for the list of digests, behind those of the parts.
const LIST: u8 = PART_COUNT;

/// Whether the list of digests gives the certified state digest, and then each part in order has the SHA-256 that the list has.
pub(crate) fn check(digest: &Digest, state: &StateMsg) -> Result<(), Kept>
    requires { HasParts state.now }
    ensures { Keeps (first_wrong digest.now state.now) state.now result }
{
    let found = digest_of_list(state.digests.as_slice(), state.pos);
    if found != *digest {
        return Err(Kept::WrongDigest { part: LIST, found });
    }
    check_parts(state)
}

/// Whether each part in order has the SHA-256 that the list has.
fn check_parts(state: &StateMsg) -> Result<(), Kept>
    requires { HasParts state.now }
    ensures { Keeps (wrong_part state.now.digests state.now.first state.now.parts) state.now result }
{
    for index in 0..state.parts.len() {
        let place = usize::from(state.first) + index;
        let found = Sha256::digest(state.parts.as_slice()[index].as_slice());
        if found != state.digests.as_slice()[place] {
            return Err(Kept::WrongDigest {
                part: place as u8,
                found,
            });
        }
    }
    Ok(())
}

/// The state digest that a list of the digests of all parts gives at a position.
fn digest_of_list(digests: &[Digest], pos: Pos) -> Digest
    ensures { result ≡ sha256 (digest_string digests.now pos) }
{
    let mut hasher = Sha256::new();
    hash_all(&mut hasher, digests);
    hasher.update(pos.to_be_bytes());
    hasher.finalize()
}

/// Feeds a hasher with each digest.
fn hash_all<H: Hasher>(hasher: &mut H, digests: &[Digest])
    ensures { (m : List ℕ) → H.holds hasher.old m → H.holds hasher.new (m ++ flat_map (λ d. d) digests.now) }
{
    for digest in digests {
        hasher.update(*digest);
    }
}
