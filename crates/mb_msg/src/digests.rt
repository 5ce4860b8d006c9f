//! What is hashed and signed: the texts that tags cover, the bare bytes that certificates cover, and digests of plans.

ghost use Rattle.std.specs.Prelude.{◌≡◌, ◌++◌, ◌≤◌, ◌<◌, ◌^◌, ℕ, length, None, IfOk, OnOk, OnErr, IsTrue};
ghost use Rattle.std.specs.Option.{option_map};
ghost use Rattle.std.specs.List.{AllByRecursion};
ghost use Rattle.mb_parts.specs.Bares.{bare_bytes, Prepare as BarePrepare, Commit as BareCommit, Checkpoint as BareCheckpoint, ViewChange as BareViewChange, NewView as BareNewView, Enter as BareEnter, Open as BareOpen, Join as BareJoin};
ghost use Rattle.mb_parts.specs.Fits.{FitsText, FitsEvidence, FitsStable, FitsBatch, CanDigest};
ghost use Rattle.mb_parts.specs.Spelling.{batch_bytes};
ghost use Rattle.mb_msg.specs.Bodies.{body_digest, FitsBody};
ghost use Rattle.mb_msg.specs.Fits.{FitsFields, FitsStamped, FitsShown, FitsChangeBody, FitsViewChange, FitsNewView, FitsOpen, FitsJoin};
ghost use Rattle.mb_msg.specs.Spelling.{floors_body_bytes, change_body_bytes, new_view_body_bytes, open_body_bytes};
ghost use Rattle.mb_msg.specs.Signed.{request_text, reply_text, covered};
ghost use Rattle.mb_msg.specs.AsStamped.{stamped_digest, is_spelled_to_hash};
ghost use Rattle.mb_msg.specs.Stamps.{as_stamped, with_ui, bare_of as says, bare_of_shown as shown_says, ui_of, ui_of_shown};

use crate::change::{ChangeBody, Enter, Join, NewView, Open, ViewChange};
use crate::hashed::Hashed;
use crate::kinds::{CHECKPOINT, COMMIT, ENTER, JOIN, NEW_VIEW, OPEN, PREPARE, VIEW_CHANGE};
use crate::message::{Body, Message};
use crate::normal::{Checkpoint, Commit, Floors, Prepare};
use crate::openings::put_joined;
use crate::stamped::{Shown, Stamped};
use mb_base::{
    Client, Counter, Digest, NoMemory, Pos, Seq, Shape, Ui, View, put_bytes, put_u8, put_u16,
    put_u64,
};
use mb_parts::{Batch, Part, floors_digest};
use std::alloc::Global;

/// Client, number, and the length of the operation, in bytes.
const REQUEST_HEAD: usize = 1 + 8 + 2;

/// Client, number, position, and the length of the result, in bytes.
const REPLY_HEAD: usize = 1 + 8 + 8 + 2;

/// Kind, view, position, and the digest of the batch, in bytes.
const PREPARE_BARE: usize = 1 + 8 + 8 + 32;

/// The same, with the counter and the certificate of the PREPARE.
const COMMIT_BARE: usize = PREPARE_BARE + 8 + 32;

/// What the tag of a request covers behind its letter: all fields but the tag. The operation has at most 1,024 bytes.
pub fn signed_request(
    alloc: Global,
    client: Client,
    seq: Seq,
    op: &[u8],
) -> Result<Vec<u8>, NoMemory>
    requires { FitsText op.now }
    ensures { IfOk result (λ v. v.items ≡ request_text client seq op.now) }
{
    let mut text = Vec::with_capacity(alloc, REQUEST_HEAD + op.len())?;
    put_u8(&mut text, client)?;
    put_u64(&mut text, seq)?;
    put_u16(&mut text, op.len() as u16)?;
    put_bytes(&mut text, op)?;
    Ok(text)
}

/// What the tag of a reply covers behind its letter and its host: all fields but the host and the tag.
/// The answer, which is the reply's result, has at most 1,024 bytes.
pub fn signed_reply(
    alloc: Global,
    client: Client,
    seq: Seq,
    pos: Pos,
    answer: &[u8],
) -> Result<Vec<u8>, NoMemory>
    requires { FitsText answer.now }
    ensures { IfOk result (λ v. v.items ≡ reply_text client seq pos answer.now) }
{
    let mut text = Vec::with_capacity(alloc, REPLY_HEAD + answer.len())?;
    put_u8(&mut text, client)?;
    put_u64(&mut text, seq)?;
    put_u64(&mut text, pos)?;
    put_u16(&mut text, answer.len() as u16)?;
    put_bytes(&mut text, answer)?;
    Ok(text)
}

impl Body<Batch> {
    /// The digest of the batch, in either form, without memory. A whole one has 1 to 16 requests, each with an operation of at most
    /// 1,024 bytes.
    pub fn batch_digest(&self) -> Digest
        requires { FitsBody CanDigest self.now }
        ensures { result ≡ body_digest batch_bytes self.now }
    {
        match self {
            Body::Whole(batch) => batch.digest(),
            Body::Bare(digest) => *digest,
        }
    }

    /// A whole batch keeps its digest, so that it need not be hashed again.
    pub(crate) fn keep_digest(&mut self)
        requires { FitsBody CanDigest self.old }
        ensures { self.new ≡ self.old }
    {
        if let Body::Whole(batch) = self {
            batch.keep_digest();
        }
    }
}

impl Body<Floors> {
    /// The digest of the floors, in either form, without memory.
    pub fn floors_digest(&self) -> Digest
        ensures { result ≡ body_digest floors_body_bytes self.now }
    {
        match self {
            Body::Whole(body) => floors_digest(body.floors.as_slice()),
            Body::Bare(digest) => *digest,
        }
    }
}

impl Body<Hashed<ChangeBody>> {
    /// The digest of what a VIEW_CHANGE shows, in either form. Each field has an allowed value. An error is want of memory.
    pub fn change_digest(&self, alloc: Global, shape: &Shape) -> Result<Digest, NoMemory>
        requires { FitsBody (FitsChangeBody shape.now) self.now }
        ensures { IfOk result (λ d. d ≡ body_digest change_body_bytes self.now) }
    {
        match self {
            Body::Whole(body) => body.digest(alloc, shape),
            Body::Bare(digest) => Ok(*digest),
        }
    }
}

/// What the certificate of a PREPARE covers. `digest` is that of its batch.
#[tactic(auto, unfolding(mb_parts::specs::Bares::bare_bytes))]
pub fn prepare_bare(
    alloc: Global,
    view: View,
    pos: Pos,
    digest: &Digest,
) -> Result<Vec<u8>, NoMemory>
    ensures { IfOk result (λ v. v.items ≡ bare_bytes (BarePrepare view pos digest.now)) }
{
    let mut bare = Vec::with_capacity(alloc, PREPARE_BARE)?;
    put_u8(&mut bare, PREPARE)?;
    put_u64(&mut bare, view)?;
    put_u64(&mut bare, pos)?;
    put_bytes(&mut bare, digest)?;
    Ok(bare)
}

/// What the certificate of a COMMIT covers. `counter` and `cert` are those of the PREPARE that it votes for,
/// and `digest` is that of its batch.
#[tactic(auto, unfolding(mb_parts::specs::Bares::bare_bytes))]
pub fn commit_bare(
    alloc: Global,
    view: View,
    pos: Pos,
    counter: Counter,
    cert: &Digest,
    digest: &Digest,
) -> Result<Vec<u8>, NoMemory>
    ensures { IfOk result (λ v. v.items ≡ bare_bytes (BareCommit view pos counter cert.now digest.now)) }
{
    let mut bare = Vec::with_capacity(alloc, COMMIT_BARE)?;
    put_u8(&mut bare, COMMIT)?;
    put_u64(&mut bare, view)?;
    put_u64(&mut bare, pos)?;
    put_u64(&mut bare, counter)?;
    put_bytes(&mut bare, cert)?;
    put_bytes(&mut bare, digest)?;
    Ok(bare)
}

/// What the certificate of a CHECKPOINT covers. `body` is the digest of its floors.
#[tactic(auto, unfolding(mb_parts::specs::Bares::bare_bytes))]
fn checkpoint_bare(
    alloc: Global,
    pos: Pos,
    state: &Digest,
    body: &Digest,
) -> Result<Vec<u8>, NoMemory>
    ensures { IfOk result (λ v. v.items ≡ bare_bytes (BareCheckpoint pos state.now body.now)) }
{
    let mut bare = Vec::new(alloc);
    put_u8(&mut bare, CHECKPOINT)?;
    put_u64(&mut bare, pos)?;
    put_bytes(&mut bare, state)?;
    put_bytes(&mut bare, body)?;
    Ok(bare)
}

/// What the certificate of a VIEW_CHANGE covers. `body` is the digest of what it shows.
#[tactic(auto, unfolding(mb_parts::specs::Bares::bare_bytes))]
fn view_change_bare(alloc: Global, view: View, body: &Digest) -> Result<Vec<u8>, NoMemory>
    ensures { IfOk result (λ v. v.items ≡ bare_bytes (BareViewChange view body.now)) }
{
    let mut bare = Vec::new(alloc);
    put_u8(&mut bare, VIEW_CHANGE)?;
    put_u64(&mut bare, view)?;
    put_bytes(&mut bare, body)?;
    Ok(bare)
}

/// What the certificate of a NEW_VIEW covers. `body` is the digest of its VIEW_CHANGEs.
#[tactic(auto, unfolding(mb_parts::specs::Bares::bare_bytes))]
fn new_view_bare(
    alloc: Global,
    view: View,
    base: Pos,
    end: Pos,
    plan: &Digest,
    body: &Digest,
) -> Result<Vec<u8>, NoMemory>
    ensures { IfOk result (λ v. v.items ≡ bare_bytes (BareNewView view base end plan.now body.now)) }
{
    let mut bare = Vec::new(alloc);
    put_u8(&mut bare, NEW_VIEW)?;
    put_u64(&mut bare, view)?;
    put_u64(&mut bare, base)?;
    put_u64(&mut bare, end)?;
    put_bytes(&mut bare, plan)?;
    put_bytes(&mut bare, body)?;
    Ok(bare)
}

/// What the certificate of an ENTER covers.
#[tactic(auto, unfolding(mb_parts::specs::Bares::bare_bytes))]
fn enter_bare(alloc: Global, enter: &Enter) -> Result<Vec<u8>, NoMemory>
    ensures { IfOk result (λ v. v.items ≡ bare_bytes (BareEnter enter.now.view enter.now.counter enter.now.plan)) }
{
    let mut bare = Vec::new(alloc);
    put_u8(&mut bare, ENTER)?;
    put_u64(&mut bare, enter.view)?;
    put_u64(&mut bare, enter.counter)?;
    put_bytes(&mut bare, &enter.plan)?;
    Ok(bare)
}

/// What the certificate of an OPEN covers. `body` is the digest of its body.
#[tactic(auto, unfolding(mb_parts::specs::Bares::bare_bytes))]
fn open_bare(
    alloc: Global,
    shape: &Shape,
    opening: &Open,
    body: &Digest,
) -> Result<Vec<u8>, NoMemory>
    requires { FitsEvidence shape.now opening.now.evidence }
    ensures { IfOk result (λ v. v.items ≡ bare_bytes (BareOpen opening.now.evidence body.now)) }
{
    let mut bare = Vec::new(alloc);
    put_u8(&mut bare, OPEN)?;
    opening.evidence.put(shape, &mut bare)?;
    put_bytes(&mut bare, body)?;
    Ok(bare)
}

/// What the certificate of a JOIN covers.
#[tactic(auto, unfolding(mb_parts::specs::Bares::bare_bytes))]
fn join_bare(alloc: Global, shape: &Shape, join: &Join) -> Result<Vec<u8>, NoMemory>
    requires { FitsJoin shape.now join.now }
    ensures { IfOk result (λ v. v.items ≡ bare_bytes (BareJoin join.now.view join.now.evidence join.now.stable)) }
{
    let mut bare = Vec::new(alloc);
    put_u8(&mut bare, JOIN)?;
    put_u64(&mut bare, join.view)?;
    put_joined(shape, join.view, &join.evidence, &mut bare)?;
    join.stable.put(shape, &mut bare)?;
    Ok(bare)
}

impl Prepare {
    /// What the message's certificate covers.
    pub fn bare(&self, alloc: Global) -> Result<Vec<u8>, NoMemory>
        requires { FitsBody CanDigest self.now.body }
        ensures { IfOk result (λ v. v.items ≡ bare_bytes (BarePrepare self.now.view self.now.pos (body_digest batch_bytes self.now.body))) }
    {
        prepare_bare(alloc, self.view, self.pos, &self.body.batch_digest())
    }
}

impl Commit {
    /// What the message's certificate covers.
    pub fn bare(&self, alloc: Global) -> Result<Vec<u8>, NoMemory>
        requires { FitsBody CanDigest self.now.body }
        ensures { IfOk result (λ v. v.items ≡ bare_bytes (BareCommit self.now.view self.now.pos self.now.counter self.now.cert (body_digest batch_bytes self.now.body))) }
    {
        commit_bare(
            alloc,
            self.view,
            self.pos,
            self.counter,
            &self.cert,
            &self.body.batch_digest(),
        )
    }
}

impl Checkpoint {
    fn bare(&self, alloc: Global) -> Result<Vec<u8>, NoMemory>
        ensures { IfOk result (λ v. v.items ≡ bare_bytes (BareCheckpoint self.now.pos self.now.state (body_digest floors_body_bytes self.now.body))) }
    {
        checkpoint_bare(alloc, self.pos, &self.state, &self.body.floors_digest())
    }
}

impl ViewChange {
    /// What the message's certificate covers. Each field has an allowed value.
    pub fn bare(&self, alloc: Global, shape: &Shape) -> Result<Vec<u8>, NoMemory>
        requires { FitsViewChange shape.now self.now }
        ensures { IfOk result (λ v. v.items ≡ bare_bytes (BareViewChange self.now.view (body_digest change_body_bytes self.now.body))) }
    {
        let body = self.body.change_digest(alloc, shape)?;
        view_change_bare(alloc, self.view, &body)
    }
}

impl NewView {
    fn bare(&self, alloc: Global, shape: &Shape) -> Result<Vec<u8>, NoMemory>
        requires { FitsNewView shape.now self.now }
        ensures { IfOk result (λ v. v.items ≡ bare_bytes (BareNewView self.now.view self.now.base self.now.end self.now.plan (body_digest new_view_body_bytes self.now.body))) }
    {
        let body = self.body.digest(alloc, shape)?;
        new_view_bare(alloc, self.view, self.base, self.end, &self.plan, &body)
    }
}

impl Open {
    #[tactic(auto, using(crate::proofs::Opened::opened_parts))]
    fn bare(&self, alloc: Global, shape: &Shape) -> Result<Vec<u8>, NoMemory>
        requires { FitsOpen shape.now self.now }
        ensures { IfOk result (λ v. v.items ≡ bare_bytes (BareOpen self.now.evidence (body_digest open_body_bytes self.now.body))) }
    {
        let body = self.body.digest(alloc, shape)?;
        open_bare(alloc, shape, self, &body)
    }
}

impl Stamped {
    /// The digest of the message's body, in either form; 32 zero bytes for the kinds that have none. Each field has an allowed value. An error is
    /// want of memory, which may come for a VIEW_CHANGE, a NEW_VIEW or an OPEN alone.
    #[tactic(auto, using(crate::proofs::Opened::body_has_digest, crate::proofs::Opened::opened_parts))]
    pub fn body_digest(&self, alloc: Global, shape: &Shape) -> Result<Digest, NoMemory>
        requires { FitsStamped shape.now self.now }
        ensures digest { IfOk result (λ d. d ≡ stamped_digest self.now) }
        ensures err { OnErr result (IsTrue (is_spelled_to_hash self.now)) }
    {
        match self {
            Stamped::Prepare(m) => Ok(m.body.batch_digest()),
            Stamped::Commit(m) => Ok(m.body.batch_digest()),
            Stamped::Checkpoint(m) => Ok(m.body.floors_digest()),
            Stamped::ViewChange(m) => m.body.change_digest(alloc, shape),
            Stamped::NewView(m) => m.body.digest(alloc, shape),
            Stamped::Open(m) => m.body.digest(alloc, shape),
            Stamped::Enter(_) | Stamped::Join(_) => Ok([0; 32]),
        }
    }

    /// What the message's certificate covers, where the digest of its body is known already. Each field has an allowed value.
    pub fn bare_with(
        &self,
        alloc: Global,
        shape: &Shape,
        body: &Digest,
    ) -> Result<Vec<u8>, NoMemory>
        requires { FitsStamped shape.now self.now × (body.now ≡ stamped_digest self.now) }
        ensures { IfOk result (λ v. v.items ≡ bare_bytes (says self.now)) }
    {
        match self {
            Stamped::Prepare(m) => prepare_bare(alloc, m.view, m.pos, body),
            Stamped::Commit(m) => commit_bare(alloc, m.view, m.pos, m.counter, &m.cert, body),
            Stamped::Checkpoint(m) => checkpoint_bare(alloc, m.pos, &m.state, body),
            Stamped::ViewChange(m) => view_change_bare(alloc, m.view, body),
            Stamped::NewView(m) => { new_view_bare(alloc, m.view, m.base, m.end, &m.plan, body) }
            Stamped::Enter(m) => enter_bare(alloc, m),
            Stamped::Open(m) => open_bare(alloc, shape, m, body),
            Stamped::Join(m) => join_bare(alloc, shape, m),
        }
    }

    /// The same message under another identifier.
    pub fn with_ui(self, ui: Ui) -> Stamped
        ensures { result ≡ with_ui ui self }
    {
        match self {
            Stamped::Prepare(m) => Stamped::Prepare(Prepare { ui, ..m }),
            Stamped::Commit(m) => Stamped::Commit(Commit { ui, ..m }),
            Stamped::Checkpoint(m) => Stamped::Checkpoint(Checkpoint { ui, ..m }),
            Stamped::ViewChange(m) => Stamped::ViewChange(ViewChange { ui, ..m }),
            Stamped::NewView(m) => Stamped::NewView(NewView { ui, ..m }),
            Stamped::Enter(m) => Stamped::Enter(Enter { ui, ..m }),
            Stamped::Open(m) => Stamped::Open(Open { ui, ..m }),
            Stamped::Join(m) => Stamped::Join(Join { ui, ..m }),
        }
    }

    /// What the message's certificate covers. Each field has an allowed value.
    #[tactic(auto, using(crate::proofs::Opened::body_has_digest))]
    pub fn bare(&self, alloc: Global, shape: &Shape) -> Result<Vec<u8>, NoMemory>
        requires { FitsStamped shape.now self.now }
        ensures { IfOk result (λ v. v.items ≡ bare_bytes (says self.now)) }
    {
        match self {
            Stamped::Prepare(m) => m.bare(alloc),
            Stamped::Commit(m) => m.bare(alloc),
            Stamped::Checkpoint(m) => m.bare(alloc),
            Stamped::ViewChange(m) => m.bare(alloc, shape),
            Stamped::NewView(m) => m.bare(alloc, shape),
            Stamped::Enter(m) => enter_bare(alloc, m),
            Stamped::Open(m) => m.bare(alloc, shape),
            Stamped::Join(m) => join_bare(alloc, shape, m),
        }
    }

    /// The identifier that binds the message to its sender's counter.
    pub fn ui(&self) -> Ui
        ensures { result ≡ ui_of self.now }
    {
        match self {
            Stamped::Prepare(m) => m.ui,
            Stamped::Commit(m) => m.ui,
            Stamped::Checkpoint(m) => m.ui,
            Stamped::ViewChange(m) => m.ui,
            Stamped::NewView(m) => m.ui,
            Stamped::Enter(m) => m.ui,
            Stamped::Open(m) => m.ui,
            Stamped::Join(m) => m.ui,
        }
    }
}

impl Shown {
    /// What the message's certificate covers. Each field has an allowed value.
    #[tactic(auto, using(crate::proofs::Opened::body_has_digest))]
    pub fn bare(&self, alloc: Global, shape: &Shape) -> Result<Vec<u8>, NoMemory>
        requires { FitsShown shape.now self.now }
        ensures { IfOk result (λ v. v.items ≡ bare_bytes (shown_says self.now)) }
    {
        match self {
            Shown::Prepare(m) => m.bare(alloc),
            Shown::Commit(m) => m.bare(alloc),
            Shown::Checkpoint(m) => checkpoint_bare(alloc, m.pos, &m.state, &m.body),
            Shown::ViewChange(m) => view_change_bare(alloc, m.view, &m.body),
            Shown::NewView(m) => new_view_bare(alloc, m.view, m.base, m.end, &m.plan, &m.body),
            Shown::Enter(m) => enter_bare(alloc, m),
            Shown::Open(m) => m.bare(alloc, shape),
            Shown::Join(m) => join_bare(alloc, shape, m),
        }
    }

    /// The identifier that binds the message to its sender's counter.
    pub fn ui(&self) -> Ui
        ensures { result ≡ ui_of_shown self.now }
    {
        match self {
            Shown::Prepare(m) => m.ui,
            Shown::Commit(m) => m.ui,
            Shown::Checkpoint(m) => m.ui,
            Shown::ViewChange(m) => m.ui,
            Shown::NewView(m) => m.ui,
            Shown::Enter(m) => m.ui,
            Shown::Open(m) => m.ui,
            Shown::Join(m) => m.ui,
        }
    }
}

/// What the certificate of a message covers: None exactly for the kinds that are not stamped. Each field has an allowed value.
#[tactic(auto, using(crate::proofs::Opened::body_has_digest))]
pub fn bare_of(alloc: Global, shape: &Shape, message: &Message) -> Result<Option<Vec<u8>>, NoMemory>
    requires { FitsFields shape.now message.now }
    ensures { IfOk result (λ o. option_map (λ v. v.items) o ≡ covered message.now) }
{
    Ok(match message {
        Message::Prepare(m) => Some(m.bare(alloc)?),
        Message::Commit(m) => Some(m.bare(alloc)?),
        Message::Checkpoint(m) => Some(m.bare(alloc)?),
        Message::ViewChange(m) => Some(m.bare(alloc, shape)?),
        Message::NewView(m) => Some(m.bare(alloc, shape)?),
        Message::Enter(m) => Some(enter_bare(alloc, m)?),
        Message::Open(m) => Some(m.bare(alloc, shape)?),
        Message::Join(m) => Some(join_bare(alloc, shape, m)?),
        Message::Request(_)
        | Message::Reply(_)
        | Message::ReqViewChange(_)
        | Message::Resend(_)
        | Message::Log(_)
        | Message::Fetch(_)
        | Message::State(_)
        | Message::Stop(_) => None,
    })
}
