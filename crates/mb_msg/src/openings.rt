//! The bytes of ENTER, OPEN and JOIN, and of a wish for another view.

ghost use Rattle.std.specs.Prelude.{◌≡◌, ◌↔◌, ◌++◌, ◌-◌, ◌^◌, ◌≤◌, ◌<◌, length, None, IfOk, IsTrue, OnOk};
ghost use Rattle.std.specs.List.{AllByRecursion};
ghost use Rattle.mb_base.specs.Fields.{place_of};
ghost use Rattle.mb_parts.specs.Bares.{if_there};
ghost use Rattle.mb_parts.specs.Counted.{counted};
ghost use Rattle.mb_parts.specs.Decoded.{Decodes};
ghost use Rattle.mb_parts.specs.Fits.{FitsStable, FitsEvidence, FitsJoined};
ghost use Rattle.mb_parts.specs.Reading.{stable_in, evidence_in, evidence_of_view};
ghost use Rattle.mb_msg.specs.Bodies.{FitsBody, body_at};
ghost use Rattle.mb_msg.specs.Fits.{FitsWish, FitsEnter, FitsOpenParts, FitsOpenBody, FitsOpen, FitsJoin};
ghost use Rattle.mb_msg.specs.Spelling.{wish_bytes, enter_bytes, open_body_bytes, open_bytes, join_bytes};
ghost use Rattle.mb_msg.specs.Reading.{wish_at, enter_at, open_body_at, open_at, join_at};

use crate::body::{BARE_FORM, read_bare_form, read_form};
use crate::change::{Enter, Join, Open, OpenBody, ReqViewChange};
use crate::message::Body;
use mb_base::{Fields, NoMemory, Shape, Ui, View, put_bytes, put_u8, put_u64};
use mb_parts::{
    Evidence, MAX_POS, MAX_VIEW, Part, Readable, Undecoded, all_fit, count_all, count_bytes,
    count_u8, count_u64, is_counter, is_place, is_position, put_all, read_counter, read_digest,
    read_evidence_in, read_host, read_parts, read_place, read_position, read_stable_in,
};
use std::alloc::Global;

impl Part for ReqViewChange {
    ghost text = { wish_bytes };

    ghost valid = { FitsWish };

    fn fits(&self, shape: &Shape) -> bool {
        self.host < shape.n() && is_position(self.view)
    }

    #[tactic(auto, using(mb_parts::proofs::CountedBytes::counted_behind), unfolding(crate::specs::Spelling::wish_bytes))]
    fn count(&self, shape: &Shape, so_far: usize) -> usize {
        let so_far = count_u8(so_far, self.host);
        let so_far = count_u64(so_far, self.view);
        count_bytes(so_far, &self.tag)
    }

    #[tactic(auto, unfolding(crate::specs::Spelling::wish_bytes))]
    fn put(&self, shape: &Shape, out: &mut Vec<u8>) -> Result<(), NoMemory> {
        put_u8(out, self.host)?;
        put_u64(out, self.view)?;
        put_bytes(out, &self.tag)
    }
}

impl Readable for ReqViewChange {
    ghost reads = { wish_at };

    #[tactic(auto, unfolding(crate::specs::Reading::wish_at))]
    fn read(
        alloc: Global,
        shape: &Shape,
        fields: &mut Fields<'_>,
    ) -> Result<ReqViewChange, Undecoded> {
        let host = read_host(shape, fields)?;
        let view = read_position(fields)?;
        let tag = read_digest(fields)?;
        Ok(ReqViewChange { host, view, tag })
    }
}

impl Part for Enter {
    ghost text = { enter_bytes };

    ghost valid = { FitsEnter };

    fn fits(&self, shape: &Shape) -> bool {
        is_position(self.view) && is_counter(self.counter) && self.ui.fits(shape)
    }

    #[tactic(auto, using(mb_parts::proofs::CountedBytes::counted_behind), unfolding(crate::specs::Spelling::enter_bytes))]
    fn count(&self, shape: &Shape, so_far: usize) -> usize {
        let so_far = count_u8(so_far, BARE_FORM);
        let so_far = count_u64(so_far, self.view);
        let so_far = count_u64(so_far, self.counter);
        let so_far = count_bytes(so_far, &self.plan);
        self.ui.count(shape, so_far)
    }

    #[tactic(auto, unfolding(crate::specs::Spelling::enter_bytes))]
    fn put(&self, shape: &Shape, out: &mut Vec<u8>) -> Result<(), NoMemory> {
        put_u8(out, BARE_FORM)?;
        put_u64(out, self.view)?;
        put_u64(out, self.counter)?;
        put_bytes(out, &self.plan)?;
        self.ui.put(shape, out)
    }
}

impl Readable for Enter {
    ghost reads = { enter_at };

    #[tactic(auto, unfolding(crate::specs::Reading::enter_at))]
    fn read(alloc: Global, shape: &Shape, fields: &mut Fields<'_>) -> Result<Enter, Undecoded> {
        read_bare_form(fields)?;
        let view = read_position(fields)?;
        let counter = read_counter(fields)?;
        let plan = read_digest(fields)?;
        let ui = Ui::read(alloc, shape, fields)?;
        Ok(Enter {
            view,
            counter,
            plan,
            ui,
        })
    }
}

impl Part for OpenBody {
    ghost text = { open_body_bytes };

    ghost valid = { FitsOpenParts };

    fn fits(&self, shape: &Shape) -> bool {
        self.stable.fits(shape) && all_fit(shape, self.batches.as_slice())
    }

    #[tactic(auto, using(mb_parts::proofs::CountedBytes::counted_behind), unfolding(crate::specs::Spelling::open_body_bytes))]
    fn count(&self, shape: &Shape, so_far: usize) -> usize {
        let so_far = self.stable.count(shape, so_far);
        count_all(shape, so_far, self.batches.as_slice())
    }

    #[tactic(auto, unfolding(crate::specs::Spelling::open_body_bytes))]
    fn put(&self, shape: &Shape, out: &mut Vec<u8>) -> Result<(), NoMemory> {
        self.stable.put(shape, out)?;
        put_all(shape, self.batches.as_slice(), out)
    }
}

/// The base's certificate, and a batch for each position from there to the end.
#[tactic(auto, unfolding(crate::specs::Reading::open_body_at))]
fn read_open_body(
    alloc: Global,
    shape: &Shape,
    evidence: &Evidence,
    fields: &mut Fields<'_>,
) -> Result<OpenBody, Undecoded>
    requires { evidence.now.base ≤ evidence.now.end }
    ensures { Decodes result fields.new (open_body_at shape.now evidence.now (place_of fields.old)) }
{
    let stable = read_stable_in(alloc, shape, evidence.base, evidence.base, fields)?;
    let batches = read_parts(alloc, shape, evidence.end - evidence.base, fields)?;
    Ok(OpenBody { stable, batches })
}

#[tactic(auto, unfolding(crate::specs::Bodies::body_at))]
fn read_opened(
    alloc: Global,
    shape: &Shape,
    form: u8,
    evidence: &Evidence,
    fields: &mut Fields<'_>,
) -> Result<Body<OpenBody>, Undecoded>
    requires { evidence.now.base ≤ evidence.now.end }
    ensures { Decodes result fields.new (body_at (open_body_at shape.now evidence.now) form (place_of fields.old)) }
{
    if form == BARE_FORM {
        return Ok(Body::Bare(read_digest(fields)?));
    }
    Ok(Body::Whole(read_open_body(alloc, shape, evidence, fields)?))
}

/// Whether a whole body carries on what the evidence says, by its base and its count.
fn is_of(evidence: &Evidence, body: &OpenBody) -> bool
    requires { evidence.now.base ≤ evidence.now.end }
    ensures { IsTrue result ↔ ((body.now.stable.pos ≡ evidence.now.base) × (length body.now.batches ≡ evidence.now.end - evidence.now.base)) }
{
    body.stable.pos == evidence.base && body.batches.len() as u64 == evidence.end - evidence.base
}

fn opened_fits(shape: &Shape, evidence: &Evidence, body: &Body<OpenBody>) -> bool
    requires { evidence.now.base ≤ evidence.now.end }
    ensures { IsTrue result ↔ FitsBody (FitsOpenBody shape.now evidence.now) body.now }
{
    match body {
        Body::Whole(body) => body.fits(shape) && is_of(evidence, body),
        Body::Bare(digest) => digest.fits(shape),
    }
}

impl Part for Open {
    ghost text = { open_bytes };

    ghost valid = { FitsOpen };

    fn fits(&self, shape: &Shape) -> bool {
        self.evidence.fits(shape)
            && opened_fits(shape, &self.evidence, &self.body)
            && self.ui.fits(shape)
    }

    #[tactic(auto, using(mb_parts::proofs::CountedBytes::counted_behind, crate::proofs::Opened::opened_parts), unfolding(crate::specs::Spelling::open_bytes))]
    fn count(&self, shape: &Shape, so_far: usize) -> usize {
        let so_far = count_u8(so_far, self.body.form());
        let so_far = self.evidence.count(shape, so_far);
        let so_far = self.body.count(shape, so_far);
        self.ui.count(shape, so_far)
    }

    #[tactic(auto, using(crate::proofs::Opened::opened_parts), unfolding(crate::specs::Spelling::open_bytes))]
    fn put(&self, shape: &Shape, out: &mut Vec<u8>) -> Result<(), NoMemory> {
        put_u8(out, self.body.form())?;
        self.evidence.put(shape, out)?;
        self.body.put(shape, out)?;
        self.ui.put(shape, out)
    }
}

impl Readable for Open {
    ghost reads = { open_at };

    #[tactic(auto, unfolding(crate::specs::Reading::open_at))]
    fn read(alloc: Global, shape: &Shape, fields: &mut Fields<'_>) -> Result<Open, Undecoded> {
        let form = read_form(fields)?;
        let evidence = read_evidence_in(alloc, shape, 1, MAX_VIEW, fields)?;
        let body = read_opened(alloc, shape, form, &evidence, fields)?;
        let ui = Ui::read(alloc, shape, fields)?;
        Ok(Open { evidence, body, ui })
    }
}

fn joined_fits(shape: &Shape, view: View, evidence: &Option<Evidence>) -> bool
    ensures { IsTrue result ↔ FitsJoined shape.now view evidence.now }
{
    match evidence {
        None => view == 0,
        Some(evidence) => evidence.fits(shape) && evidence.view == view,
    }
}

fn read_joined(
    alloc: Global,
    shape: &Shape,
    view: View,
    fields: &mut Fields<'_>,
) -> Result<Option<Evidence>, Undecoded>
    ensures { Decodes result fields.new (evidence_of_view shape.now view (place_of fields.old)) }
{
    if view == 0 {
        return Ok(None);
    }
    Ok(Some(read_evidence_in(alloc, shape, view, view, fields)?))
}

pub(crate) fn put_joined(
    shape: &Shape,
    view: View,
    evidence: &Option<Evidence>,
    out: &mut Vec<u8>,
) -> Result<(), NoMemory>
    requires { FitsJoined shape.now view evidence.now }
    ensures { OnOk result (out.new.items ≡ out.old.items ++ if_there evidence.now) }
{
    match evidence {
        None => Ok(()),
        Some(evidence) => evidence.put(shape, out),
    }
}

#[tactic(auto, using(mb_parts::proofs::CountedBytes::counted_behind, mb_parts::proofs::CountedBytes::counted_nothing))]
fn count_joined(shape: &Shape, so_far: usize, view: View, evidence: &Option<Evidence>) -> usize
    requires { FitsJoined shape.now view evidence.now }
    ensures { result ≡ counted so_far (if_there evidence.now) }
{
    match evidence {
        None => so_far,
        Some(evidence) => evidence.count(shape, so_far),
    }
}

impl Part for Join {
    ghost text = { join_bytes };

    ghost valid = { FitsJoin };

    fn fits(&self, shape: &Shape) -> bool {
        is_place(self.view)
            && joined_fits(shape, self.view, &self.evidence)
            && self.stable.fits(shape)
            && self.stable.pos >= 1
            && self.ui.fits(shape)
    }

    #[tactic(auto, using(mb_parts::proofs::CountedBytes::counted_behind), unfolding(crate::specs::Spelling::join_bytes))]
    fn count(&self, shape: &Shape, so_far: usize) -> usize {
        let so_far = count_u8(so_far, BARE_FORM);
        let so_far = count_u64(so_far, self.view);
        let so_far = count_joined(shape, so_far, self.view, &self.evidence);
        let so_far = self.stable.count(shape, so_far);
        self.ui.count(shape, so_far)
    }

    #[tactic(auto, unfolding(crate::specs::Spelling::join_bytes))]
    fn put(&self, shape: &Shape, out: &mut Vec<u8>) -> Result<(), NoMemory> {
        put_u8(out, BARE_FORM)?;
        put_u64(out, self.view)?;
        put_joined(shape, self.view, &self.evidence, out)?;
        self.stable.put(shape, out)?;
        self.ui.put(shape, out)
    }
}

impl Readable for Join {
    ghost reads = { join_at };

    #[tactic(auto, unfolding(crate::specs::Reading::join_at))]
    fn read(alloc: Global, shape: &Shape, fields: &mut Fields<'_>) -> Result<Join, Undecoded> {
        read_bare_form(fields)?;
        let view = read_place(fields)?;
        let evidence = read_joined(alloc, shape, view, fields)?;
        let stable = read_stable_in(alloc, shape, 1, MAX_POS, fields)?;
        let ui = Ui::read(alloc, shape, fields)?;
        Ok(Join {
            view,
            evidence,
            stable,
            ui,
        })
    }
}
