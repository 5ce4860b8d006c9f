//! The bytes of the entries that a VIEW_CHANGE shows.

ghost use Rattle.std.specs.Prelude.{◌≡◌, ◌++◌, ◌<◌, OnOk};
ghost use Rattle.mb_base.specs.Fields.{place_of};
ghost use Rattle.mb_parts.specs.Counted.{counted};
ghost use Rattle.mb_parts.specs.Decoded.{Decodes};
ghost use Rattle.mb_msg.specs.Fits.{FitsShown, FitsBareViewChange, FitsBareNewView};
ghost use Rattle.mb_msg.specs.Spelling.{shown_bytes, bare_view_change_bytes, plan_bytes, bare_new_view_bytes};
ghost use Rattle.mb_msg.specs.Reading.{behind_shown_kind_at, shown_at, bare_view_change_at, bare_new_view_at};

use crate::body::{BARE_FORM, read_bare_form};
use crate::change::{BareNewView, BareViewChange, Enter, Join, NewView, Open, ViewChange};
use crate::kinds::{
    CHECKPOINT, COMMIT, ENTER, NEW_VIEW, OPEN, PREPARE, VIEW_CHANGE, read_stamped_kind,
};
use crate::normal::{BareCheckpoint, Commit, Prepare};
use crate::stamped::Shown;
use mb_base::{Digest, Fields, NoMemory, Pos, Shape, Ui, put_bytes, put_u8, put_u64};
use mb_parts::{
    Part, Readable, Undecoded, count_bytes, count_u8, count_u64, is_base, is_end, is_position,
    read_base, read_digest, read_end, read_position,
};
use std::alloc::Global;

impl Part for BareViewChange {
    ghost text = { bare_view_change_bytes };

    ghost valid = { FitsBareViewChange };

    fn fits(&self, shape: &Shape) -> bool {
        is_position(self.view) && self.ui.fits(shape)
    }

    #[tactic(auto, using(mb_parts::proofs::CountedBytes::counted_behind), unfolding(crate::specs::Spelling::bare_view_change_bytes))]
    fn count(&self, shape: &Shape, so_far: usize) -> usize {
        let so_far = count_u8(so_far, BARE_FORM);
        let so_far = count_u64(so_far, self.view);
        let so_far = count_bytes(so_far, &self.body);
        self.ui.count(shape, so_far)
    }

    #[tactic(auto, unfolding(crate::specs::Spelling::bare_view_change_bytes))]
    fn put(&self, shape: &Shape, out: &mut Vec<u8>) -> Result<(), NoMemory> {
        put_u8(out, BARE_FORM)?;
        put_u64(out, self.view)?;
        put_bytes(out, &self.body)?;
        self.ui.put(shape, out)
    }
}

impl Readable for BareViewChange {
    ghost reads = { bare_view_change_at };

    #[tactic(auto, unfolding(crate::specs::Reading::bare_view_change_at))]
    fn read(
        alloc: Global,
        shape: &Shape,
        fields: &mut Fields<'_>,
    ) -> Result<BareViewChange, Undecoded> {
        read_bare_form(fields)?;
        let view = read_position(fields)?;
        let body = read_digest(fields)?;
        let ui = Ui::read(alloc, shape, fields)?;
        Ok(BareViewChange { view, body, ui })
    }
}

/// Appends where a view begins and ends, and the digest of what it carries on.
pub(crate) fn put_plan(
    out: &mut Vec<u8>,
    base: Pos,
    end: Pos,
    plan: &Digest,
) -> Result<(), NoMemory>
    ensures { OnOk result (out.new.items ≡ out.old.items ++ plan_bytes base end plan.now) }
{
    put_u64(out, base)?;
    put_u64(out, end)?;
    put_bytes(out, plan)
}

/// Counts where a view begins and ends, and the digest of what it carries on.
#[tactic(auto, using(mb_parts::proofs::CountedBytes::counted_behind))]
pub(crate) fn count_plan(so_far: usize, base: Pos, end: Pos, plan: &Digest) -> usize
    ensures { result ≡ counted so_far (plan_bytes base end plan.now) }
{
    count_bytes(count_u64(count_u64(so_far, base), end), plan)
}

impl Part for BareNewView {
    ghost text = { bare_new_view_bytes };

    ghost valid = { FitsBareNewView };

    fn fits(&self, shape: &Shape) -> bool {
        is_position(self.view)
            && is_base(shape, self.base)
            && is_end(shape, self.base, self.end)
            && self.ui.fits(shape)
    }

    #[tactic(auto, using(mb_parts::proofs::CountedBytes::counted_behind), unfolding(crate::specs::Spelling::bare_new_view_bytes))]
    fn count(&self, shape: &Shape, so_far: usize) -> usize {
        let so_far = count_u8(so_far, BARE_FORM);
        let so_far = count_u64(so_far, self.view);
        let so_far = count_plan(so_far, self.base, self.end, &self.plan);
        let so_far = count_bytes(so_far, &self.body);
        self.ui.count(shape, so_far)
    }

    #[tactic(auto, unfolding(crate::specs::Spelling::bare_new_view_bytes))]
    fn put(&self, shape: &Shape, out: &mut Vec<u8>) -> Result<(), NoMemory> {
        put_u8(out, BARE_FORM)?;
        put_u64(out, self.view)?;
        put_plan(out, self.base, self.end, &self.plan)?;
        put_bytes(out, &self.body)?;
        self.ui.put(shape, out)
    }
}

impl Readable for BareNewView {
    ghost reads = { bare_new_view_at };

    #[tactic(auto, unfolding(crate::specs::Reading::bare_new_view_at))]
    fn read(
        alloc: Global,
        shape: &Shape,
        fields: &mut Fields<'_>,
    ) -> Result<BareNewView, Undecoded> {
        read_bare_form(fields)?;
        let view = read_position(fields)?;
        let base = read_base(shape, fields)?;
        let end = read_end(shape, base, fields)?;
        let plan = read_digest(fields)?;
        let body = read_digest(fields)?;
        let ui = Ui::read(alloc, shape, fields)?;
        Ok(BareNewView {
            view,
            base,
            end,
            plan,
            body,
            ui,
        })
    }
}

impl Part for Shown {
    ghost text = { shown_bytes };

    ghost valid = { FitsShown };

    fn fits(&self, shape: &Shape) -> bool {
        match self {
            Shown::Prepare(prepare) => prepare.fits(shape),
            Shown::Commit(commit) => commit.fits(shape),
            Shown::Checkpoint(checkpoint) => checkpoint.fits(shape),
            Shown::ViewChange(change) => change.fits(shape),
            Shown::NewView(new_view) => new_view.fits(shape),
            Shown::Enter(enter) => enter.fits(shape),
            Shown::Open(open) => open.fits(shape),
            Shown::Join(join) => join.fits(shape),
        }
    }

    #[tactic(auto, using(mb_parts::proofs::CountedBytes::counted_behind), unfolding(crate::specs::Spelling::shown_bytes))]
    fn count(&self, shape: &Shape, so_far: usize) -> usize {
        let so_far = count_u8(so_far, self.kind());
        match self {
            Shown::Prepare(prepare) => prepare.count(shape, so_far),
            Shown::Commit(commit) => commit.count(shape, so_far),
            Shown::Checkpoint(checkpoint) => checkpoint.count(shape, so_far),
            Shown::ViewChange(change) => change.count(shape, so_far),
            Shown::NewView(new_view) => new_view.count(shape, so_far),
            Shown::Enter(enter) => enter.count(shape, so_far),
            Shown::Open(open) => open.count(shape, so_far),
            Shown::Join(join) => join.count(shape, so_far),
        }
    }

    #[tactic(auto, unfolding(crate::specs::Spelling::shown_bytes))]
    fn put(&self, shape: &Shape, out: &mut Vec<u8>) -> Result<(), NoMemory> {
        put_u8(out, self.kind())?;
        match self {
            Shown::Prepare(prepare) => prepare.put(shape, out),
            Shown::Commit(commit) => commit.put(shape, out),
            Shown::Checkpoint(checkpoint) => checkpoint.put(shape, out),
            Shown::ViewChange(change) => change.put(shape, out),
            Shown::NewView(new_view) => new_view.put(shape, out),
            Shown::Enter(enter) => enter.put(shape, out),
            Shown::Open(open) => open.put(shape, out),
            Shown::Join(join) => join.put(shape, out),
        }
    }
}

#[tactic(auto, unfolding(crate::specs::Reading::behind_shown_kind_at))]
fn read_shown(
    alloc: Global,
    shape: &Shape,
    kind: u8,
    fields: &mut Fields<'_>,
) -> Result<Shown, Undecoded>
    ensures { Decodes result fields.new (behind_shown_kind_at shape.now kind (place_of fields.old)) }
{
    match kind {
        PREPARE => Ok(Shown::Prepare(Prepare::read(alloc, shape, fields)?)),
        COMMIT => Ok(Shown::Commit(Commit::read(alloc, shape, fields)?)),
        CHECKPOINT => Ok(Shown::Checkpoint(BareCheckpoint::read(alloc, shape, fields)?)),
        VIEW_CHANGE => Ok(Shown::ViewChange(BareViewChange::read(alloc, shape, fields)?)),
        NEW_VIEW => Ok(Shown::NewView(BareNewView::read(alloc, shape, fields)?)),
        ENTER => Ok(Shown::Enter(Enter::read(alloc, shape, fields)?)),
        OPEN => Ok(Shown::Open(Open::read(alloc, shape, fields)?)),
        _ => Ok(Shown::Join(Join::read(alloc, shape, fields)?)),
    }
}

impl Readable for Shown {
    ghost reads = { shown_at };

    #[tactic(auto, unfolding(crate::specs::Reading::shown_at))]
    fn read(alloc: Global, shape: &Shape, fields: &mut Fields<'_>) -> Result<Shown, Undecoded> {
        let kind = read_stamped_kind(fields)?;
        read_shown(alloc, shape, kind, fields)
    }
}
