//! The bytes of VIEW_CHANGE and NEW_VIEW.

ghost use Rattle.std.specs.Prelude.{◌≡◌, ◌↔◌, ◌++◌, ◌<◌, IfOk, IsTrue, OnOk};
ghost use Rattle.std.specs.List.{flat_map, AllByRecursion};
ghost use Rattle.mb_base.specs.Fields.{place_of};
ghost use Rattle.mb_base.specs.Shapes.{host_count};
ghost use Rattle.mb_parts.specs.Counted.{counted};
ghost use Rattle.mb_parts.specs.Decoded.{Decodes};
ghost use Rattle.mb_msg.specs.Fits.{shown_limit, FitsChangeBody, FitsViewChange, FitsMember, FitsNewViewBody, FitsNewView};
ghost use Rattle.mb_msg.specs.Spelling.{change_body_bytes, view_change_bytes, member_bytes, new_view_body_bytes, new_view_bytes};
ghost use Rattle.mb_msg.specs.Reading.{change_body_at, view_change_from, view_change_at, member_at, new_view_body_at, new_view_at};

use crate::body::{BARE_FORM, WHOLE_FORM, read_body, read_form};
use crate::change::{ChangeBody, NewView, NewViewBody, ViewChange};
use crate::kinds::VIEW_CHANGE;
use crate::shown_bytes::{count_plan, put_plan};
use crate::stamped::Shown;
use mb_base::{Fields, Host, NoMemory, Shape, Ui, put_u8, put_u64};
use mb_parts::{
    LOG_INTERVALS, Member, OTHER_LIMIT, Part, Readable, StableCert, Undecoded, all_fit,
    count_listed, count_u8, count_u64, is_base, is_end, is_position, put_listed, read_base,
    read_digest, read_end, read_listed, read_members, read_position, read_ui_from, rise,
};
use std::alloc::Global;

/// The most entries that a VIEW_CHANGE shows, of votes and CHECKPOINTs and of the other kinds.
fn most_shown(shape: &Shape) -> u16
    ensures { result ≡ shown_limit shape.now }
{
    LOG_INTERVALS as u16 * u16::from(shape.k()) + OTHER_LIMIT
}

impl Part for ChangeBody {
    ghost text = { change_body_bytes };

    ghost valid = { FitsChangeBody };

    fn fits(&self, shape: &Shape) -> bool {
        self.floor.fits(shape)
            && self.stable.fits(shape)
            && self.entries.len() <= most_shown(shape) as usize
            && all_fit(shape, self.entries.as_slice())
    }

    #[tactic(auto, using(mb_parts::proofs::CountedBytes::counted_behind), unfolding(crate::specs::Spelling::change_body_bytes))]
    fn count(&self, shape: &Shape, so_far: usize) -> usize {
        let so_far = self.floor.count(shape, so_far);
        let so_far = self.stable.count(shape, so_far);
        count_listed(shape, so_far, &self.entries)
    }

    #[tactic(auto, unfolding(crate::specs::Spelling::change_body_bytes))]
    fn put(&self, shape: &Shape, out: &mut Vec<u8>) -> Result<(), NoMemory> {
        self.floor.put(shape, out)?;
        self.stable.put(shape, out)?;
        put_listed(shape, &self.entries, out)
    }
}

impl Readable for ChangeBody {
    ghost reads = { change_body_at };

    #[tactic(auto, unfolding(crate::specs::Reading::change_body_at))]
    fn read(
        alloc: Global,
        shape: &Shape,
        fields: &mut Fields<'_>,
    ) -> Result<ChangeBody, Undecoded> {
        let floor = Readable::read(alloc, shape, fields)?;
        let stable = StableCert::read(alloc, shape, fields)?;
        let entries = read_listed(alloc, shape, most_shown(shape), fields)?;
        Ok(ChangeBody {
            floor,
            stable,
            entries,
        })
    }
}

impl Part for ViewChange {
    ghost text = { view_change_bytes };

    ghost valid = { FitsViewChange };

    fn fits(&self, shape: &Shape) -> bool {
        is_position(self.view) && self.body.fits(shape) && self.ui.fits(shape)
    }

    #[tactic(auto, using(mb_parts::proofs::CountedBytes::counted_behind), unfolding(crate::specs::Spelling::view_change_bytes))]
    fn count(&self, shape: &Shape, so_far: usize) -> usize {
        let so_far = count_u8(so_far, self.body.form());
        let so_far = count_u64(so_far, self.view);
        let so_far = self.body.count(shape, so_far);
        self.ui.count(shape, so_far)
    }

    #[tactic(auto, unfolding(crate::specs::Spelling::view_change_bytes))]
    fn put(&self, shape: &Shape, out: &mut Vec<u8>) -> Result<(), NoMemory> {
        put_u8(out, self.body.form())?;
        put_u64(out, self.view)?;
        self.body.put(shape, out)?;
        self.ui.put(shape, out)
    }
}

/// A VIEW_CHANGE in a form that is at least this, of a host that is at least `least`, and not the one that is left out.
#[tactic(auto, unfolding(crate::specs::Reading::view_change_from))]
fn read_view_change(
    alloc: Global,
    shape: &Shape,
    least_form: u8,
    left_out: Option<Host>,
    least: Host,
    fields: &mut Fields<'_>,
) -> Result<ViewChange, Undecoded>
    ensures read { Decodes result fields.new (view_change_from shape.now least_form left_out least (place_of fields.old)) }
    ensures host { IfOk result (λ m. m.ui.host < host_count shape.now) }
{
    let form = fields.u8_in(least_form, WHOLE_FORM)?;
    let view = read_position(fields)?;
    let body = read_body(alloc, shape, form, fields)?;
    let ui = read_ui_from(shape, left_out, least, fields)?;
    Ok(ViewChange { view, body, ui })
}

impl Readable for ViewChange {
    ghost reads = { view_change_at };

    fn read(
        alloc: Global,
        shape: &Shape,
        fields: &mut Fields<'_>,
    ) -> Result<ViewChange, Undecoded> {
        read_view_change(alloc, shape, BARE_FORM, None, 0, fields)
    }
}

impl Member for ViewChange {
    ghost member_reads = { member_at };

    ghost host_of = { λ m. m.ui.host };

    #[tactic(auto, unfolding(crate::specs::Reading::member_at))]
    fn read_member(
        alloc: Global,
        shape: &Shape,
        left_out: Option<Host>,
        least: Host,
        fields: &mut Fields<'_>,
    ) -> Result<ViewChange, Undecoded> {
        fields.u8_in(VIEW_CHANGE, VIEW_CHANGE)?;
        read_view_change(alloc, shape, WHOLE_FORM, left_out, least, fields)
    }

    fn host(&self) -> Host {
        self.ui.host
    }
}

/// Whether each is a whole VIEW_CHANGE, each field of which has an allowed value.
fn are_whole(shape: &Shape, changes: &[ViewChange]) -> bool
    ensures { IsTrue result ↔ AllByRecursion (FitsMember shape.now) changes.now }
{
    for change in changes {
        if !change.fits(shape) || change.body.form() != WHOLE_FORM {
            return false;
        }
    }
    true
}

#[tactic(auto, unfolding(crate::specs::Spelling::member_bytes))]
fn put_members(shape: &Shape, changes: &[ViewChange], out: &mut Vec<u8>) -> Result<(), NoMemory>
    requires { AllByRecursion (FitsMember shape.now) changes.now }
    ensures { OnOk result (out.new.items ≡ out.old.items ++ flat_map member_bytes changes.now) }
{
    for change in changes {
        put_u8(out, VIEW_CHANGE)?;
        change.put(shape, out)?;
    }
    Ok(())
}

#[tactic(auto, unfolding(crate::specs::Spelling::member_bytes))]
fn count_members(shape: &Shape, so_far: usize, changes: &[ViewChange]) -> usize
    requires { AllByRecursion (FitsMember shape.now) changes.now }
    ensures { result ≡ counted so_far (flat_map member_bytes changes.now) }
{
    let mut all = so_far;
    for change in changes {
        all = change.count(shape, count_u8(all, VIEW_CHANGE));
    }
    all
}

impl Part for NewViewBody {
    ghost text = { new_view_body_bytes };

    ghost valid = { FitsNewViewBody };

    fn fits(&self, shape: &Shape) -> bool {
        self.changes.len() == shape.quorum() as usize
            && rise(self.changes.as_slice())
            && are_whole(shape, self.changes.as_slice())
    }

    #[tactic(auto, using(mb_parts::proofs::CountedBytes::counted_behind), unfolding(crate::specs::Spelling::new_view_body_bytes))]
    fn count(&self, shape: &Shape, so_far: usize) -> usize {
        count_members(shape, so_far, self.changes.as_slice())
    }

    #[tactic(auto, unfolding(crate::specs::Spelling::new_view_body_bytes))]
    fn put(&self, shape: &Shape, out: &mut Vec<u8>) -> Result<(), NoMemory> {
        put_members(shape, self.changes.as_slice(), out)
    }
}

impl Readable for NewViewBody {
    ghost reads = { new_view_body_at };

    #[tactic(auto, unfolding(crate::specs::Reading::new_view_body_at))]
    fn read(
        alloc: Global,
        shape: &Shape,
        fields: &mut Fields<'_>,
    ) -> Result<NewViewBody, Undecoded> {
        let changes = read_members(alloc, shape, None, shape.quorum(), fields)?;
        Ok(NewViewBody { changes })
    }
}

impl Part for NewView {
    ghost text = { new_view_bytes };

    ghost valid = { FitsNewView };

    fn fits(&self, shape: &Shape) -> bool {
        is_position(self.view)
            && is_base(shape, self.base)
            && is_end(shape, self.base, self.end)
            && self.body.fits(shape)
            && self.ui.fits(shape)
    }

    #[tactic(auto, using(mb_parts::proofs::CountedBytes::counted_behind), unfolding(crate::specs::Spelling::new_view_bytes))]
    fn count(&self, shape: &Shape, so_far: usize) -> usize {
        let so_far = count_u8(so_far, self.body.form());
        let so_far = count_u64(so_far, self.view);
        let so_far = count_plan(so_far, self.base, self.end, &self.plan);
        let so_far = self.body.count(shape, so_far);
        self.ui.count(shape, so_far)
    }

    #[tactic(auto, unfolding(crate::specs::Spelling::new_view_bytes))]
    fn put(&self, shape: &Shape, out: &mut Vec<u8>) -> Result<(), NoMemory> {
        put_u8(out, self.body.form())?;
        put_u64(out, self.view)?;
        put_plan(out, self.base, self.end, &self.plan)?;
        self.body.put(shape, out)?;
        self.ui.put(shape, out)
    }
}

impl Readable for NewView {
    ghost reads = { new_view_at };

    #[tactic(auto, unfolding(crate::specs::Reading::new_view_at))]
    fn read(alloc: Global, shape: &Shape, fields: &mut Fields<'_>) -> Result<NewView, Undecoded> {
        let form = read_form(fields)?;
        let view = read_position(fields)?;
        let base = read_base(shape, fields)?;
        let end = read_end(shape, base, fields)?;
        let plan = read_digest(fields)?;
        let body = read_body(alloc, shape, form, fields)?;
        let ui = Ui::read(alloc, shape, fields)?;
        Ok(NewView {
            view,
            base,
            end,
            plan,
            body,
            ui,
        })
    }
}
