//! The bytes of stamped messages.

ghost use Rattle.std.specs.Prelude.{◌≡◌, ◌↔◌, ◌++◌, IsTrue, OnOk};
ghost use Rattle.mb_base.specs.Fields.{place_of};
ghost use Rattle.mb_parts.specs.Decoded.{Decodes};
ghost use Rattle.mb_msg.specs.Fits.{FitsStamped};
ghost use Rattle.mb_msg.specs.Spelling.{behind_stamped_kind, stamped_bytes};
ghost use Rattle.mb_msg.specs.Reading.{behind_stamped_kind_at, stamped_at};

use crate::change::{Enter, Join, NewView, Open, ViewChange};
use crate::kinds::{
    CHECKPOINT, COMMIT, ENTER, NEW_VIEW, OPEN, PREPARE, VIEW_CHANGE, read_stamped_kind,
};
use crate::normal::{Checkpoint, Commit, Prepare};
use crate::stamped::Stamped;
use mb_base::{Fields, NoMemory, Shape, put_u8};
use mb_parts::{Part, Readable, Undecoded, count_u8};
use std::alloc::Global;

impl Part for Stamped {
    ghost text = { stamped_bytes };

    ghost valid = { FitsStamped };

    fn fits(&self, shape: &Shape) -> bool {
        match self {
            Stamped::Prepare(prepare) => prepare.fits(shape),
            Stamped::Commit(commit) => commit.fits(shape),
            Stamped::Checkpoint(checkpoint) => checkpoint.fits(shape),
            Stamped::ViewChange(change) => change.fits(shape),
            Stamped::NewView(new_view) => new_view.fits(shape),
            Stamped::Enter(enter) => enter.fits(shape),
            Stamped::Open(open) => open.fits(shape),
            Stamped::Join(join) => join.fits(shape),
        }
    }

    #[tactic(auto, using(mb_parts::proofs::CountedBytes::counted_behind), unfolding(crate::specs::Spelling::stamped_bytes))]
    fn count(&self, shape: &Shape, so_far: usize) -> usize {
        let so_far = count_u8(so_far, self.kind());
        match self {
            Stamped::Prepare(prepare) => prepare.count(shape, so_far),
            Stamped::Commit(commit) => commit.count(shape, so_far),
            Stamped::Checkpoint(checkpoint) => checkpoint.count(shape, so_far),
            Stamped::ViewChange(change) => change.count(shape, so_far),
            Stamped::NewView(new_view) => new_view.count(shape, so_far),
            Stamped::Enter(enter) => enter.count(shape, so_far),
            Stamped::Open(open) => open.count(shape, so_far),
            Stamped::Join(join) => join.count(shape, so_far),
        }
    }

    #[tactic(auto, unfolding(crate::specs::Spelling::stamped_bytes))]
    fn put(&self, shape: &Shape, out: &mut Vec<u8>) -> Result<(), NoMemory> {
        put_u8(out, self.kind())?;
        match self {
            Stamped::Prepare(prepare) => prepare.put(shape, out),
            Stamped::Commit(commit) => commit.put(shape, out),
            Stamped::Checkpoint(checkpoint) => checkpoint.put(shape, out),
            Stamped::ViewChange(change) => change.put(shape, out),
            Stamped::NewView(new_view) => new_view.put(shape, out),
            Stamped::Enter(enter) => enter.put(shape, out),
            Stamped::Open(open) => open.put(shape, out),
            Stamped::Join(join) => join.put(shape, out),
        }
    }
}

/// A stamped message behind its kind.
#[tactic(auto, unfolding(crate::specs::Reading::behind_stamped_kind_at))]
pub(crate) fn read_stamped(
    alloc: Global,
    shape: &Shape,
    kind: u8,
    fields: &mut Fields<'_>,
) -> Result<Stamped, Undecoded>
    ensures { Decodes result fields.new (behind_stamped_kind_at shape.now kind (place_of fields.old)) }
{
    match kind {
        PREPARE => Ok(Stamped::Prepare(Prepare::read(alloc, shape, fields)?)),
        COMMIT => Ok(Stamped::Commit(Commit::read(alloc, shape, fields)?)),
        CHECKPOINT => Ok(Stamped::Checkpoint(Checkpoint::read(alloc, shape, fields)?)),
        VIEW_CHANGE => Ok(Stamped::ViewChange(ViewChange::read(alloc, shape, fields)?)),
        NEW_VIEW => Ok(Stamped::NewView(NewView::read(alloc, shape, fields)?)),
        ENTER => Ok(Stamped::Enter(Enter::read(alloc, shape, fields)?)),
        OPEN => Ok(Stamped::Open(Open::read(alloc, shape, fields)?)),
        _ => Ok(Stamped::Join(Join::read(alloc, shape, fields)?)),
    }
}

impl Readable for Stamped {
    ghost reads = { stamped_at };

    #[tactic(auto, unfolding(crate::specs::Reading::stamped_at))]
    fn read(alloc: Global, shape: &Shape, fields: &mut Fields<'_>) -> Result<Stamped, Undecoded> {
        let kind = read_stamped_kind(fields)?;
        read_stamped(alloc, shape, kind, fields)
    }
}
