//! A host's stamps in the order of their counters, and at one counter of their bytes.

ghost use Rattle.std.specs.Prelude.{◌≡◌, ◌∷◌, [], ℕ, map, IfOk};
ghost use Rattle.std.specs.List.{AllByRecursion, flat_map};
ghost use Rattle.mb_base.specs.declared.shape.Shape.{Shape as TheShape};
ghost use Rattle.mb_model.specs.GateChecks.{stamp_claim};
ghost use Rattle.mb_certified.specs.Certified.{IsBareStamp};
ghost use Rattle.mb_audit.specs.Stamps.{claims_of};
ghost use Rattle.mb_audit.specs.Kept.{KeepsStamps, KeepsMore};

use mb_base::{Counter, Duplicate, Host, NoMemory, Shape};
use mb_certified::certified_in;
use mb_msg::{Stamped, Undecoded, decode};
use mb_usig::Usig;
use std::alloc::Global;
use std::collections::BTreeMap;

/// The counter of a stamp, and what the host's trusted counter covered there.
pub(crate) type Place = (Counter, Vec<u8>);

pub(crate) type Kept = BTreeMap<Place, Stamped>;

/// Keeps a bare message, where the host stamped it.
fn keep(
    alloc: Global,
    shape: &Shape,
    usig: &Usig,
    host: Host,
    stamp: &Stamped,
    kept: &mut Kept,
) -> Result<(), NoMemory>
    requires { IsBareStamp shape.now stamp.now }
    ensures { KeepsMore shape.now usig.now.secret host (stamp_claim stamp.now ∷ []) kept.old.entries result kept.new.entries }
{
    let ui = stamp.ui();
    if ui.host != host {
        return Ok(());
    }
    let bare = stamp.bare(alloc, shape)?;
    if !usig.verify_ui(bare.as_slice(), &ui) {
        return Ok(());
    }
    let same = kept.insert((ui.counter, bare), stamp.duplicate(alloc)?)?;
    drop(same);
    Ok(())
}

fn keep_all(
    alloc: Global,
    shape: &Shape,
    usig: &Usig,
    host: Host,
    stamps: &[Stamped],
    kept: &mut Kept,
) -> Result<(), NoMemory>
    requires { AllByRecursion (IsBareStamp shape.now) stamps.now }
    ensures { KeepsMore shape.now usig.now.secret host (map stamp_claim stamps.now) kept.old.entries result kept.new.entries }
{
    for stamp in stamps {
        keep(alloc, shape, usig, host, stamp, kept)?;
    }
    Ok(())
}

/// Keeps what the certificates in a byte string show of the host. Bytes that are no message show nothing.
fn keep_shown(
    alloc: Global,
    shape: &Shape,
    usig: &Usig,
    host: Host,
    bytes: &[u8],
    kept: &mut Kept,
) -> Result<(), NoMemory>
    ensures { KeepsMore shape.now usig.now.secret host (claims_of shape.now bytes.now) kept.old.entries result kept.new.entries }
{
    match decode(alloc, shape, bytes) {
        Ok(message) => {
            let stamps = certified_in(alloc, shape, message)?;
            keep_all(alloc, shape, usig, host, stamps.as_slice(), kept)
        }
        Err(Undecoded::Malformed { .. }) => Ok(()),
        Err(Undecoded::NoMemory) => Err(NoMemory),
    }
}

/// All that these byte strings show of a host.
pub(crate) fn keep_given(
    alloc: Global,
    shape: &Shape,
    usig: &Usig,
    host: Host,
    given: &[Vec<u8>],
) -> Result<Kept, NoMemory>
    ensures { IfOk result (λ kept. KeepsStamps shape.now usig.now.secret host (flat_map (claims_of shape.now) (map (λ v. v.items) given.now)) kept.entries) }
{
    let mut kept = BTreeMap::new(alloc);
    for bytes in given {
        keep_shown(alloc, shape, usig, host, bytes.as_slice(), &mut kept)?;
    }
    Ok(kept)
}
