//! The first forged certificate of a message, in the order of its bytes.

ghost use Rattle.std.specs.Prelude.{◌≡◌, ◌∷◌, ◌++◌, [], IfOk, IfSome, option_map};
ghost use Rattle.std.specs.List.{flat_map, AllByRecursion};
ghost use Rattle.mb_parts.specs.Claims.{stable_claims, floor_claims, evidence_claims, new_view_claim};
ghost use Rattle.mb_parts.specs.Fits.{FitsStable, FitsFloorCert, FitsFloors, FitsEvidence};
ghost use Rattle.mb_parts.specs.Spelling.{batch_bytes};
ghost use Rattle.mb_msg.specs.Bodies.{FitsBody, body_digest, inside_whole};
ghost use Rattle.mb_msg.specs.AsStamped.{stamped_digest};
ghost use Rattle.mb_msg.specs.Stamps.{as_stamped, ui_of as uis, ui_of_shown, bare_of as says, bare_of_shown};
ghost use Rattle.mb_msg.specs.Fits.{FitsFields, FitsStamped, FitsShown, FitsCommit, FitsOpen, FitsJoin, FitsChangeBody, FitsViewChange, FitsNewViewBody, FitsLog};
ghost use Rattle.mb_model.specs.Compared.{inside_some};
ghost use Rattle.mb_schedule.specs.declared.schedule.Schedule.{Schedule};
ghost use Rattle.mb_world_model.specs.World.{World};
ghost use Rattle.mb_world_model.specs.Forged.{forged_claim};
ghost use Rattle.mb_model.specs.Inside.{sender_claim, named_claim, open_claims, join_claims, claims_in_shown, shown_claims, change_claims, member_claims, new_view_claims, claims_in_stamped, stamped_claims, claims_in};
ghost use Rattle.mb_msg.specs.declared.message.Message.TheVariants as kind;
ghost use Rattle.mb_forgery.specs.Checks.{AsksIn, FitsClaim, stable_claim, floor_claim, enter_claim, enter_claims, own_claim, commit_claims, first_forged, told};

use crate::checker::{Checker, ForgedClaim};
use mb_base::{Digest, Duplicate, NoMemory, Ui};
use mb_msg::{
    BareCheckpoint, BareNewView, Body, ChangeBody, Checkpoint, Commit, Enter, Evidence, FloorCert,
    Floors, Join, Log, Message, NewViewBody, Open, Shown, StableCert, Stamped, ViewChange, bare_of,
    commit_bare, prepare_bare,
};
use mb_parts::{EvidenceMember, FloorMember, StableMember};
use std::alloc::Global;

type Found = Result<Option<ForgedClaim>, NoMemory>;

impl<'a> Checker<'a> {
    // ---- in certificates: each member stands for a message that its host is to have stamped

    fn in_stable(&self, alloc: Global, cert: &StableCert) -> Found
        requires { FitsStable self.now.shape.now cert.now }
        ensures { (s : Schedule) (w : World) → AsksIn s w self.now → IfOk result (λ o. o ≡ first_forged s w (stable_claims cert.now)) }
    {
        for member in cert.members.as_slice() {
            if let Some(found) = self.in_stable_member(alloc, cert, member)? {
                return Ok(Some(found));
            }
        }
        Ok(None)
    }

    fn in_stable_member(&self, alloc: Global, cert: &StableCert, member: &StableMember) -> Found
        requires { FitsClaim self.now.shape.now (stable_claim cert.now member.now) }
        ensures { (s : Schedule) (w : World) → AsksIn s w self.now → IfOk result (λ o. o ≡ first_forged s w (stable_claim cert.now member.now ∷ [])) }
    {
        let checkpoint = Shown::Checkpoint(BareCheckpoint {
            pos: cert.pos,
            state: cert.state,
            body: member.floors,
            ui: Ui {
                host: member.host,
                counter: member.counter,
                cert: member.cert,
            },
        });
        self.sender_of_shown(alloc, &checkpoint)
    }

    fn in_floor(&self, alloc: Global, cert: &FloorCert) -> Found
        requires { FitsFloorCert self.now.shape.now cert.now }
        ensures { (s : Schedule) (w : World) → AsksIn s w self.now → IfOk result (λ o. o ≡ first_forged s w (floor_claims cert.now)) }
    {
        for member in cert.members.as_slice() {
            if let Some(found) = self.in_floor_member(alloc, cert, member)? {
                return Ok(Some(found));
            }
        }
        Ok(None)
    }

    fn in_floor_member(&self, alloc: Global, cert: &FloorCert, member: &FloorMember) -> Found
        requires { FitsClaim self.now.shape.now (floor_claim cert.now member.now) × FitsFloors self.now.shape.now member.now.floors }
        ensures { (s : Schedule) (w : World) → AsksIn s w self.now → IfOk result (λ o. o ≡ first_forged s w (floor_claim cert.now member.now ∷ [])) }
    {
        let checkpoint = Stamped::Checkpoint(Checkpoint {
            pos: cert.pos,
            state: cert.state,
            body: Body::Whole(Floors {
                floors: member.floors.duplicate(alloc)?,
            }),
            ui: Ui {
                host: member.host,
                counter: member.counter,
                cert: member.cert,
            },
        });
        self.sender_of_stamped(alloc, &checkpoint)
    }

    fn in_evidence(&self, alloc: Global, e: &Evidence) -> Found
        requires { FitsEvidence self.now.shape.now e.now }
        ensures { (s : Schedule) (w : World) → AsksIn s w self.now → IfOk result (λ o. o ≡ first_forged s w (evidence_claims s.shape e.now)) }
    {
        if let Some(found) = self.in_opener(alloc, e)? {
            return Ok(Some(found));
        }
        self.in_enters(alloc, e)
    }

    /// That the primary stamped the NEW_VIEW.
    fn in_opener(&self, alloc: Global, e: &Evidence) -> Found
        requires { FitsEvidence self.now.shape.now e.now }
        ensures { (s : Schedule) (w : World) → AsksIn s w self.now → IfOk result (λ o. o ≡ first_forged s w (new_view_claim s.shape e.now ∷ [])) }
    {
        let new_view = Shown::NewView(BareNewView {
            view: e.view,
            base: e.base,
            end: e.end,
            plan: e.plan,
            body: e.body,
            ui: Ui {
                host: self.shape.primary(e.view),
                counter: e.counter,
                cert: e.cert,
            },
        });
        self.sender_of_shown(alloc, &new_view)
    }

    fn in_enters(&self, alloc: Global, e: &Evidence) -> Found
        requires { FitsEvidence self.now.shape.now e.now }
        ensures { (s : Schedule) (w : World) → AsksIn s w self.now → IfOk result (λ o. o ≡ first_forged s w (enter_claims e.now)) }
    {
        for member in e.members.as_slice() {
            if let Some(found) = self.in_enter(alloc, e, member)? {
                return Ok(Some(found));
            }
        }
        Ok(None)
    }

    fn in_enter(&self, alloc: Global, e: &Evidence, member: &EvidenceMember) -> Found
        requires { FitsClaim self.now.shape.now (enter_claim e.now member.now) }
        ensures { (s : Schedule) (w : World) → AsksIn s w self.now → IfOk result (λ o. o ≡ first_forged s w (enter_claim e.now member.now ∷ [])) }
    {
        let enter = Shown::Enter(Enter {
            view: e.view,
            counter: e.counter,
            plan: e.plan,
            ui: Ui {
                host: member.host,
                counter: member.counter,
                cert: member.cert,
            },
        });
        self.sender_of_shown(alloc, &enter)
    }

    fn in_some_floor(&self, alloc: Global, cert: &Option<FloorCert>) -> Found
        requires { IfSome cert.now (FitsFloorCert self.now.shape.now) }
        ensures { (s : Schedule) (w : World) → AsksIn s w self.now → IfOk result (λ o. o ≡ first_forged s w (inside_some floor_claims cert.now)) }
    {
        match cert {
            Some(cert) => self.in_floor(alloc, cert),
            None => Ok(None),
        }
    }

    fn in_some_evidence(&self, alloc: Global, evidence: &Option<Evidence>) -> Found
        requires { IfSome evidence.now (FitsEvidence self.now.shape.now) }
        ensures { (s : Schedule) (w : World) → AsksIn s w self.now → IfOk result (λ o. o ≡ first_forged s w (inside_some (evidence_claims s.shape) evidence.now)) }
    {
        match evidence {
            Some(evidence) => self.in_evidence(alloc, evidence),
            None => Ok(None),
        }
    }

    // ---- that the sender stamped a message

    fn sender_of_shown(&self, alloc: Global, entry: &Shown) -> Found
        requires { FitsShown self.now.shape.now entry.now }
        ensures { (s : Schedule) (w : World) → AsksIn s w self.now → IfOk result (λ o. o ≡ first_forged s w (sender_claim (ui_of_shown entry.now) (bare_of_shown entry.now) ∷ [])) }
    {
        let bare = entry.bare(alloc, self.shape)?;
        Ok(self.forged(&entry.ui(), bare.as_slice()))
    }

    fn sender_of_stamped(&self, alloc: Global, m: &Stamped) -> Found
        requires { FitsStamped self.now.shape.now m.now }
        ensures { (s : Schedule) (w : World) → AsksIn s w self.now → IfOk result (λ o. o ≡ first_forged s w (sender_claim (uis m.now) (says m.now) ∷ [])) }
    {
        let body = m.body_digest(alloc, self.shape)?;
        self.sender_of_body(alloc, m, &body)
    }

    /// The same, of which the body has this digest.
    fn sender_of_body(&self, alloc: Global, m: &Stamped, body: &Digest) -> Found
        requires { FitsStamped self.now.shape.now m.now × (body.now ≡ stamped_digest m.now) }
        ensures { (s : Schedule) (w : World) → AsksIn s w self.now → IfOk result (λ o. o ≡ first_forged s w (sender_claim (uis m.now) (says m.now) ∷ [])) }
    {
        let bare = m.bare_with(alloc, self.shape, body)?;
        Ok(self.forged(&m.ui(), bare.as_slice()))
    }

    // ---- in stamped messages, without their own

    /// That the primary stamped the PREPARE that a COMMIT names, of which the batch has this digest.
    fn named_by(&self, alloc: Global, m: &Commit, batch: &Digest) -> Found
        requires { FitsCommit self.now.shape.now m.now × (batch.now ≡ body_digest batch_bytes m.now.body) }
        ensures { (s : Schedule) (w : World) → AsksIn s w self.now → IfOk result (λ o. o ≡ first_forged s w (named_claim s.shape m.now ∷ [])) }
    {
        let bare = prepare_bare(alloc, m.view, m.pos, batch)?;
        let ui = Ui {
            host: self.shape.primary(m.view),
            counter: m.counter,
            cert: m.cert,
        };
        Ok(self.forged(&ui, bare.as_slice()))
    }

    /// A COMMIT, with its own certificate behind the one that it names. Its batch is hashed once.
    fn in_commit(&self, alloc: Global, m: &Commit) -> Found
        requires { FitsCommit self.now.shape.now m.now }
        ensures { (s : Schedule) (w : World) → AsksIn s w self.now → IfOk result (λ o. o ≡ first_forged s w (commit_claims s.shape m.now)) }
    {
        let batch = m.body.batch_digest();
        self.in_commit_of(alloc, m, &batch)
    }

    /// The same, of which the batch has this digest.
    fn in_commit_of(&self, alloc: Global, m: &Commit, batch: &Digest) -> Found
        requires { FitsCommit self.now.shape.now m.now × (batch.now ≡ body_digest batch_bytes m.now.body) }
        ensures { (s : Schedule) (w : World) → AsksIn s w self.now → IfOk result (λ o. o ≡ first_forged s w (commit_claims s.shape m.now)) }
    {
        if let Some(found) = self.named_by(alloc, m, batch)? {
            return Ok(Some(found));
        }
        let bare = commit_bare(alloc, m.view, m.pos, m.counter, &m.cert, batch)?;
        Ok(self.forged(&m.ui, bare.as_slice()))
    }

    fn in_open(&self, alloc: Global, m: &Open) -> Found
        requires { FitsOpen self.now.shape.now m.now }
        ensures { (s : Schedule) (w : World) → AsksIn s w self.now → IfOk result (λ o. o ≡ first_forged s w (open_claims s.shape m.now)) }
    {
        if let Some(found) = self.in_evidence(alloc, &m.evidence)? {
            return Ok(Some(found));
        }
        match &m.body {
            Body::Whole(body) => self.in_stable(alloc, &body.stable),
            Body::Bare(_) => Ok(None),
        }
    }

    fn in_join(&self, alloc: Global, m: &Join) -> Found
        requires { FitsJoin self.now.shape.now m.now }
        ensures { (s : Schedule) (w : World) → AsksIn s w self.now → IfOk result (λ o. o ≡ first_forged s w (join_claims s.shape m.now)) }
    {
        if let Some(found) = self.in_some_evidence(alloc, &m.evidence)? {
            return Ok(Some(found));
        }
        self.in_stable(alloc, &m.stable)
    }

    fn in_change_body(&self, alloc: Global, body: &ChangeBody) -> Found
        requires { FitsChangeBody self.now.shape.now body.now }
        ensures { (s : Schedule) (w : World) → AsksIn s w self.now → IfOk result (λ o. o ≡ first_forged s w (change_claims s.shape body.now)) }
    {
        if let Some(found) = self.in_some_floor(alloc, &body.floor)? {
            return Ok(Some(found));
        }
        if let Some(found) = self.in_stable(alloc, &body.stable)? {
            return Ok(Some(found));
        }
        self.in_entries(alloc, body.entries.as_slice())
    }

    fn in_entries(&self, alloc: Global, entries: &[Shown]) -> Found
        requires { AllByRecursion (FitsShown self.now.shape.now) entries.now }
        ensures { (s : Schedule) (w : World) → AsksIn s w self.now → IfOk result (λ o. o ≡ first_forged s w (flat_map (shown_claims s.shape) entries.now)) }
    {
        for entry in entries {
            if let Some(found) = self.in_shown(alloc, entry)? {
                return Ok(Some(found));
            }
        }
        Ok(None)
    }

    fn in_change(&self, alloc: Global, m: &ViewChange) -> Found
        requires { FitsViewChange self.now.shape.now m.now }
        ensures { (s : Schedule) (w : World) → AsksIn s w self.now → IfOk result (λ o. o ≡ first_forged s w (inside_whole (change_claims s.shape) m.now.body)) }
    {
        match &m.body {
            Body::Whole(body) => self.in_change_body(alloc, body.as_part()),
            Body::Bare(_) => Ok(None),
        }
    }

    fn in_new_view(&self, alloc: Global, body: &Body<NewViewBody>) -> Found
        requires { FitsBody (FitsNewViewBody self.now.shape.now) body.now }
        ensures { (s : Schedule) (w : World) → AsksIn s w self.now → IfOk result (λ o. o ≡ first_forged s w (inside_whole (new_view_claims s.shape) body.now)) }
    {
        match body {
            Body::Whole(body) => self.in_members(alloc, body.changes.as_slice()),
            Body::Bare(_) => Ok(None),
        }
    }

    fn in_members(&self, alloc: Global, members: &[ViewChange]) -> Found
        requires { AllByRecursion (FitsViewChange self.now.shape.now) members.now }
        ensures { (s : Schedule) (w : World) → AsksIn s w self.now → IfOk result (λ o. o ≡ first_forged s w (flat_map (member_claims s.shape) members.now)) }
    {
        for member in members {
            if let Some(found) = self.in_member(alloc, member)? {
                return Ok(Some(found));
            }
        }
        Ok(None)
    }

    /// A VIEW_CHANGE in a NEW_VIEW, with its own certificate behind the others.
    fn in_member(&self, alloc: Global, m: &ViewChange) -> Found
        requires { FitsViewChange self.now.shape.now m.now }
        ensures { (s : Schedule) (w : World) → AsksIn s w self.now → IfOk result (λ o. o ≡ first_forged s w (member_claims s.shape m.now)) }
    {
        if let Some(found) = self.in_change(alloc, m)? {
            return Ok(Some(found));
        }
        let bare = m.bare(alloc, self.shape)?;
        Ok(self.forged(&m.ui, bare.as_slice()))
    }

    // ---- in stamped messages, with their own behind the others

    fn inside_shown(&self, alloc: Global, entry: &Shown) -> Found
        requires { FitsShown self.now.shape.now entry.now }
        ensures { (s : Schedule) (w : World) → AsksIn s w self.now → IfOk result (λ o. o ≡ first_forged s w (claims_in_shown s.shape entry.now)) }
    {
        match entry {
            Shown::Commit(m) => self.named_by(alloc, m, &m.body.batch_digest()),
            Shown::Open(m) => self.in_open(alloc, m),
            Shown::Join(m) => self.in_join(alloc, m),
            Shown::Prepare(_)
            | Shown::Checkpoint(_)
            | Shown::ViewChange(_)
            | Shown::NewView(_)
            | Shown::Enter(_) => Ok(None),
        }
    }

    fn in_shown(&self, alloc: Global, entry: &Shown) -> Found
        requires { FitsShown self.now.shape.now entry.now }
        ensures { (s : Schedule) (w : World) → AsksIn s w self.now → IfOk result (λ o. o ≡ first_forged s w (shown_claims s.shape entry.now)) }
    {
        if let Shown::Commit(m) = entry {
            return self.in_commit(alloc, m);
        }
        if let Some(found) = self.inside_shown(alloc, entry)? {
            return Ok(Some(found));
        }
        self.sender_of_shown(alloc, entry)
    }

    fn inside_stamped(&self, alloc: Global, m: &Stamped) -> Found
        requires { FitsStamped self.now.shape.now m.now }
        ensures { (s : Schedule) (w : World) → AsksIn s w self.now → IfOk result (λ o. o ≡ first_forged s w (claims_in_stamped s.shape m.now)) }
    {
        match m {
            Stamped::Commit(m) => self.named_by(alloc, m, &m.body.batch_digest()),
            Stamped::ViewChange(m) => self.in_change(alloc, m),
            Stamped::NewView(m) => self.in_new_view(alloc, &m.body),
            Stamped::Open(m) => self.in_open(alloc, m),
            Stamped::Join(m) => self.in_join(alloc, m),
            Stamped::Prepare(_) | Stamped::Checkpoint(_) | Stamped::Enter(_) => Ok(None),
        }
    }

    fn in_stamped(&self, alloc: Global, m: &Stamped) -> Found
        requires { FitsStamped self.now.shape.now m.now }
        ensures { (s : Schedule) (w : World) → AsksIn s w self.now → IfOk result (λ o. o ≡ first_forged s w (stamped_claims s.shape m.now)) }
    {
        let body = m.body_digest(alloc, self.shape)?;
        self.in_stamped_of(alloc, m, &body)
    }

    /// The same, of which the body has this digest.
    fn in_stamped_of(&self, alloc: Global, m: &Stamped, body: &Digest) -> Found
        requires { FitsStamped self.now.shape.now m.now × (body.now ≡ stamped_digest m.now) }
        ensures { (s : Schedule) (w : World) → AsksIn s w self.now → IfOk result (λ o. o ≡ first_forged s w (stamped_claims s.shape m.now)) }
    {
        if let Stamped::Commit(m) = m {
            return self.in_commit_of(alloc, m, body);
        }
        if let Some(found) = self.inside_stamped(alloc, m)? {
            return Ok(Some(found));
        }
        self.sender_of_body(alloc, m, body)
    }

    // ---- in any message

    fn in_log(&self, alloc: Global, m: &Log) -> Found
        requires { FitsLog self.now.shape.now m.now }
        ensures { (s : Schedule) (w : World) → AsksIn s w self.now → IfOk result (λ o. o ≡ first_forged s w (claims_in s.shape (kind.Log m.now))) }
    {
        if let Some(found) = self.in_some_floor(alloc, &m.floor)? {
            return Ok(Some(found));
        }
        if let Some(found) = self.in_stable(alloc, &m.stable)? {
            return Ok(Some(found));
        }
        if let Some(found) = self.in_some_evidence(alloc, &m.evidence)? {
            return Ok(Some(found));
        }
        self.in_all(alloc, m.entries.as_slice())
    }

    fn in_all(&self, alloc: Global, entries: &[Stamped]) -> Found
        requires { AllByRecursion (FitsStamped self.now.shape.now) entries.now }
        ensures { (s : Schedule) (w : World) → AsksIn s w self.now → IfOk result (λ o. o ≡ first_forged s w (flat_map (stamped_claims s.shape) entries.now)) }
    {
        for entry in entries {
            if let Some(found) = self.in_stamped(alloc, entry)? {
                return Ok(Some(found));
            }
        }
        Ok(None)
    }

    /// The first forged certificate of a message, in the order of its bytes. Each field of the message has an allowed value.
    pub fn forged_claim(&self, alloc: Global, message: &Message) -> Found
        requires { FitsFields self.now.shape.now message.now }
        ensures { (s : Schedule) (w : World) → AsksIn s w self.now → IfOk result (λ o. o ≡ option_map told (forged_claim s w message.now)) }
    {
        match message {
            Message::Log(m) => self.in_log(alloc, m),
            Message::Commit(m) => self.in_commit(alloc, m),
            _ => self.in_other(alloc, message),
        }
    }

    /// In a message that is no LOG, its own behind the others.
    fn in_other(&self, alloc: Global, message: &Message) -> Found
        requires { FitsFields self.now.shape.now message.now }
        ensures { (s : Schedule) (w : World) → AsksIn s w self.now → IfOk result (λ o. o ≡ first_forged s w (inside_some (claims_in_stamped s.shape) (as_stamped message.now) ++ own_claim message.now)) }
    {
        if let Some(found) = self.inside_message(alloc, message)? {
            return Ok(Some(found));
        }
        self.in_own(alloc, message)
    }

    /// In a message that is no LOG, without its own.
    fn inside_message(&self, alloc: Global, message: &Message) -> Found
        requires { FitsFields self.now.shape.now message.now }
        ensures { (s : Schedule) (w : World) → AsksIn s w self.now → IfOk result (λ o. o ≡ first_forged s w (inside_some (claims_in_stamped s.shape) (as_stamped message.now))) }
    {
        match message {
            Message::Commit(m) => self.named_by(alloc, m, &m.body.batch_digest()),
            Message::ViewChange(m) => self.in_change(alloc, m),
            Message::NewView(m) => self.in_new_view(alloc, &m.body),
            Message::Open(m) => self.in_open(alloc, m),
            Message::Join(m) => self.in_join(alloc, m),
            _ => Ok(None),
        }
    }

    /// The message's own certificate, where it is stamped.
    fn in_own(&self, alloc: Global, message: &Message) -> Found
        requires { FitsFields self.now.shape.now message.now }
        ensures { (s : Schedule) (w : World) → AsksIn s w self.now → IfOk result (λ o. o ≡ first_forged s w (own_claim message.now)) }
    {
        let Some(ui) = ui_of(message) else {
            return Ok(None);
        };
        match bare_of(alloc, self.shape, message)? {
            Some(bare) => Ok(self.forged(&ui, bare.as_slice())),
            None => Ok(None),
        }
    }
}

/// The identifier of a stamped message.
fn ui_of(message: &Message) -> Option<Ui>
    ensures { result ≡ option_map uis (as_stamped message.now) }
{
    match message {
        Message::Prepare(m) => Some(m.ui),
        Message::Commit(m) => Some(m.ui),
        Message::Checkpoint(m) => Some(m.ui),
        Message::ViewChange(m) => Some(m.ui),
        Message::NewView(m) => Some(m.ui),
        Message::Enter(m) => Some(m.ui),
        Message::Open(m) => Some(m.ui),
        Message::Join(m) => Some(m.ui),
        _ => None,
    }
}
