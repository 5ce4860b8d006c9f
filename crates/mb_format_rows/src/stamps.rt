//! Rows of stamped messages: what certificates cover, and what gates read.

ghost use Rattle.std.specs.Prelude.{◌≡◌, length, IfOk};
ghost use Rattle.std.specs.List.{AllByRecursion};
ghost use Rattle.mb_parts.specs.Fits.{CanDigest};
ghost use Rattle.mb_msg.specs.Plans.{CanHash};

use crate::stop::Stop;
use crate::teller::{Teller, Told};
use mb_base::{Duplicate, Fields, Items, Shape};
use mb_msg::{
    Body, MAX_POS, Mark, Message, NewViewBody, OpenBody, Plan, Shown, Stamped, ViewChange, bare_of,
    encode_stamped, fields_fit, mark_of,
};
use mb_parts::{Batch, Part, read_ui_from};
use sha2::{Digest as _, Sha256};
use std::alloc::Global;

/// What is said of a message that is not stamped.
const NOT_STAMPED: &str = "not stamped";

/// What a gate reads of a message, and the digest of what its certificate covers.
fn tell_stamp(teller: &mut Teller, mark: &Mark, covered: &[u8]) {
    mark.tell(teller);
    teller.bytes("covers", &Sha256::digest(covered));
}

/// What a gate reads of a message and the digest of what its certificate covers, if it is stamped.
pub fn mark_text(alloc: Global, shape: &Shape, message: &Message) -> Result<String, Stop> {
    if !fields_fit(shape, message) {
        return Err(Stop::Unfit);
    }
    match (mark_of(message), bare_of(alloc, shape, message)?) {
        (Some(mark), Some(bare)) => {
            let mut teller = Teller::new(alloc);
            tell_stamp(&mut teller, &mark, &bare);
            teller.finish()
        }
        (None, None) => Ok(String::from_str(alloc, NOT_STAMPED)?),
        _ => Err(Stop::Unfit),
    }
}

/// The answer to a row that takes its message apart.
pub fn stamped_text(
    alloc: Global,
    call: &str,
    shape: &Shape,
    message: Message,
    more: &[u8],
) -> Result<String, Stop> {
    match message.into_stamped() {
        Ok(stamped) => match call {
            "stamped" => {
                let text = covered_text(alloc, shape, &stamped);
                drop(stamped);
                text
            }
            "restamp" => restamped_text(alloc, shape, stamped, more),
            _ => kept_text(alloc, shape, stamped),
        },
        Err(other) => {
            drop(other);
            Ok(String::from_str(alloc, NOT_STAMPED)?)
        }
    }
}

/// The bytes of a stamped message in hexadecimal.
fn stamped_hex(alloc: Global, shape: &Shape, stamped: &Stamped) -> Result<String, Stop> {
    if !stamped.fits(shape) {
        return Err(Stop::Unfit);
    }
    let bytes = encode_stamped(alloc, shape, stamped)?;
    Ok(hex::encode(alloc, &bytes)?)
}

/// The digest of the body of a message, what its certificate covers, and its bytes.
fn covered_text(alloc: Global, shape: &Shape, stamped: &Stamped) -> Result<String, Stop> {
    if !stamped.fits(shape) {
        return Err(Stop::Unfit);
    }
    let digest = stamped.body_digest(alloc, shape)?;
    let bare = hex::encode(alloc, &stamped.bare_with(alloc, shape, &digest)?)?;
    let digest = hex::encode(alloc, digest)?;
    let bytes = stamped_hex(alloc, shape, stamped)?;
    Ok(format!(in alloc; "body {digest} covers {bare} bytes {bytes}")?)
}

/// The bytes of the message under the identifier that these bytes are.
fn restamped_text(
    alloc: Global,
    shape: &Shape,
    stamped: Stamped,
    ui: &[u8],
) -> Result<String, Stop> {
    match read_ui_from(shape, None, 0, &mut Fields::over(ui)) {
        Ok(ui) => {
            let restamped = stamped.with_ui(ui);
            let text = stamped_hex(alloc, shape, &restamped);
            drop(restamped);
            text
        }
        Err(_) => {
            drop(stamped);
            Err(Stop::NoRow)
        }
    }
}

/// What is told of a VIEW_CHANGE or a NEW_VIEW beside which digests are kept.
fn kept_text(alloc: Global, shape: &Shape, stamped: Stamped) -> Result<String, Stop> {
    if !stamped.fits(shape) {
        drop(stamped);
        return Err(Stop::Unfit);
    }
    let kept = stamped.with_digests(alloc, shape)?;
    let mut teller = Teller::new(alloc);
    let told = tell_within(alloc, shape, &kept, &mut teller);
    drop(kept);
    told?;
    teller.finish()
}

/// Tells what the certificates of entries or of members cover.
fn tell_within(
    alloc: Global,
    shape: &Shape,
    kept: &Stamped,
    teller: &mut Teller,
) -> Result<(), Stop> {
    match kept {
        Stamped::ViewChange(change) => tell_entries(alloc, shape, change, teller),
        Stamped::NewView(new_view) => tell_members(alloc, shape, &new_view.body, teller),
        _ => Err(Stop::NoRow),
    }
}

fn tell_entries(
    alloc: Global,
    shape: &Shape,
    change: &ViewChange,
    teller: &mut Teller,
) -> Result<(), Stop> {
    let Body::Whole(body) = &change.body else {
        return Err(Stop::NoRow);
    };
    for entry in body.as_part().entries.as_slice() {
        tell_shown(alloc, shape, entry, teller)?;
    }
    Ok(())
}

fn tell_shown(
    alloc: Global,
    shape: &Shape,
    entry: &Shown,
    teller: &mut Teller,
) -> Result<(), Stop> {
    if !entry.fits(shape) {
        return Err(Stop::Unfit);
    }
    let bare = entry.bare(alloc, shape)?;
    tell_stamp(teller, &entry.mark(), &bare);
    teller.ui(&entry.ui());
    Ok(())
}

fn tell_members(
    alloc: Global,
    shape: &Shape,
    body: &Body<NewViewBody>,
    teller: &mut Teller,
) -> Result<(), Stop> {
    let Body::Whole(body) = body else {
        return Err(Stop::NoRow);
    };
    for change in body.changes.as_slice() {
        if !change.fits(shape) {
            return Err(Stop::Unfit);
        }
        let bare = change.bare(alloc, shape)?;
        teller.bytes("covers", &Sha256::digest(&bare));
    }
    Ok(())
}

/// What gates read of the entries of a LOG, and what their certificates cover.
pub fn logged_text(alloc: Global, shape: &Shape, message: &Message) -> Result<String, Stop> {
    let Message::Log(log) = message else {
        return Err(Stop::NoRow);
    };
    let mut teller = Teller::new(alloc);
    for entry in log.entries.as_slice() {
        if !entry.fits(shape) {
            return Err(Stop::Unfit);
        }
        let bare = entry.bare(alloc, shape)?;
        tell_stamp(&mut teller, &entry.mark(), &bare);
        teller.ui(&entry.ui());
    }
    teller.finish()
}

/// A batch that fits, whose digest can be taken.
#[tactic(auto, using(mb_msg::proofs::Opened::has_digest))]
fn fitting(alloc: Global, shape: &Shape, batch: &Batch) -> Result<Batch, Stop>
    ensures { IfOk result CanDigest }
{
    if !batch.fits(shape) {
        return Err(Stop::Unfit);
    }
    Ok(batch.duplicate(alloc)?)
}

fn pair(alloc: Global, first: Batch, second: Batch) -> Result<Items<Batch>, Stop>
    requires { CanDigest first × CanDigest second }
    ensures { IfOk result (λ bs. (length bs ≡ 2) × AllByRecursion CanDigest bs) }
{
    let mut batches = Items::new(alloc);
    batches.push(first)?;
    batches.push(second)?;
    Ok(batches)
}

/// The plan that the body of an OPEN with two batches is.
fn plan_in(alloc: Global, shape: &Shape, body: &OpenBody) -> Result<Plan, Stop>
    ensures { IfOk result CanHash }
{
    let [first, second] = body.batches.as_slice() else {
        return Err(Stop::NoRow);
    };
    let first = fitting(alloc, shape, first)?;
    let second = fitting(alloc, shape, second)?;
    let base = body.stable.duplicate(alloc)?;
    if base.pos > MAX_POS {
        return Err(Stop::Unfit);
    }
    Ok(Plan {
        base,
        batches: pair(alloc, first, second)?,
    })
}

/// The digest and the end of the plan that the body of an OPEN with two batches is.
pub fn opened_text(alloc: Global, shape: &Shape, message: &Message) -> Result<String, Stop> {
    let Message::Open(open) = message else {
        return Err(Stop::NoRow);
    };
    let Body::Whole(body) = &open.body else {
        return Err(Stop::NoRow);
    };
    let plan = plan_in(alloc, shape, body)?;
    let mut teller = Teller::new(alloc);
    teller.bytes("plan", &plan.digest());
    teller.number("end", plan.end());
    teller.finish()
}
