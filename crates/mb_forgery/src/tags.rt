//! Whether a message has a forged tag: of a request in it, or its own. That of a STOP is nobody's.

ghost use Rattle.std.specs.Prelude.{◌≡◌, IfOk};
ghost use Rattle.std.specs.List.{list_any, flat_map, AllByRecursion};
ghost use Rattle.mb_parts.specs.Fits.{FitsRequest, FitsBatch};
ghost use Rattle.mb_msg.specs.declared.message.Message.TheVariants as kind;
ghost use Rattle.mb_msg.specs.Bodies.{FitsBody, inside_whole};
ghost use Rattle.mb_msg.specs.Fits.{Fits, FitsStamped, FitsShown, FitsOpenParts, FitsViewChange, FitsNewViewBody};
ghost use Rattle.mb_schedule.specs.declared.schedule.Schedule.{Schedule};
ghost use Rattle.mb_world_model.specs.World.{World};
ghost use Rattle.mb_world_model.specs.Forged.{is_forged_request, is_forged_reply, is_forged_wish, has_forged_tag};
ghost use Rattle.mb_model.specs.Inside.{batch_requests, open_requests, shown_requests, change_requests, stamped_requests};
ghost use Rattle.mb_forgery.specs.Checks.{AsksIn};

use crate::checker::Checker;
use mb_base::{NoMemory, put_u8};
use mb_msg::{
    Batch, Body, Message, NewViewBody, OpenBody, Reply, ReqViewChange, Request, Shown, Stamped,
    ViewChange, signed_reply, signed_request,
};
use std::alloc::Global;

type Found = Result<bool, NoMemory>;

impl<'a> Checker<'a> {
    // ---- requests

    /// The tag verifies, and the correct client did not ask this. What was asked needs no verifying.
    fn is_forged_request(&self, alloc: Global, r: &Request) -> Found
        requires { FitsRequest self.now.shape.now r.now }
        ensures { (s : Schedule) (w : World) → AsksIn s w self.now → IfOk result (λ b. b ≡ is_forged_request s w r.now) }
    {
        if self.faulty_clients[usize::from(r.client)] || self.ledger.was_asked(r) {
            return Ok(false);
        }
        let signed = signed_request(alloc, r.client, r.seq, r.op.as_slice())?;
        Ok(
            self.usig
                .verify_request(r.client, signed.as_slice(), &r.tag),
        )
    }

    fn forged_in_requests(&self, alloc: Global, requests: &[Request]) -> Found
        requires { AllByRecursion (FitsRequest self.now.shape.now) requests.now }
        ensures { (s : Schedule) (w : World) → AsksIn s w self.now → IfOk result (λ b. b ≡ list_any (is_forged_request s w) (requests.now)) }
    {
        for request in requests {
            if self.is_forged_request(alloc, request)? {
                return Ok(true);
            }
        }
        Ok(false)
    }

    fn forged_in_vote(&self, alloc: Global, body: &Body<Batch>) -> Found
        requires { FitsBody (FitsBatch self.now.shape.now) body.now }
        ensures { (s : Schedule) (w : World) → AsksIn s w self.now → IfOk result (λ b. b ≡ list_any (is_forged_request s w) (batch_requests body.now)) }
    {
        match body {
            Body::Whole(batch) => self.forged_in_requests(alloc, batch.requests.as_slice()),
            Body::Bare(_) => Ok(false),
        }
    }

    fn forged_in_open(&self, alloc: Global, body: &Body<OpenBody>) -> Found
        requires { FitsBody (FitsOpenParts self.now.shape.now) body.now }
        ensures { (s : Schedule) (w : World) → AsksIn s w self.now → IfOk result (λ b. b ≡ list_any (is_forged_request s w) (open_requests body.now)) }
    {
        match body {
            Body::Whole(body) => self.forged_in_batches(alloc, body.batches.as_slice()),
            Body::Bare(_) => Ok(false),
        }
    }

    fn forged_in_batches(&self, alloc: Global, batches: &[Batch]) -> Found
        requires { AllByRecursion (FitsBatch self.now.shape.now) batches.now }
        ensures { (s : Schedule) (w : World) → AsksIn s w self.now → IfOk result (λ b. b ≡ list_any (is_forged_request s w) (flat_map (λ x. x.requests) batches.now)) }
    {
        for batch in batches {
            if self.forged_in_requests(alloc, batch.requests.as_slice())? {
                return Ok(true);
            }
        }
        Ok(false)
    }

    fn forged_in_shown(&self, alloc: Global, entry: &Shown) -> Found
        requires { FitsShown self.now.shape.now entry.now }
        ensures { (s : Schedule) (w : World) → AsksIn s w self.now → IfOk result (λ b. b ≡ list_any (is_forged_request s w) (shown_requests entry.now)) }
    {
        match entry {
            Shown::Prepare(m) => self.forged_in_vote(alloc, &m.body),
            Shown::Commit(m) => self.forged_in_vote(alloc, &m.body),
            Shown::Open(m) => self.forged_in_open(alloc, &m.body),
            _ => Ok(false),
        }
    }

    fn forged_in_change(&self, alloc: Global, m: &ViewChange) -> Found
        requires { FitsViewChange self.now.shape.now m.now }
        ensures { (s : Schedule) (w : World) → AsksIn s w self.now → IfOk result (λ b. b ≡ list_any (is_forged_request s w) (change_requests m.now)) }
    {
        match &m.body {
            Body::Whole(body) => self.forged_in_log(alloc, body.as_part().entries.as_slice()),
            Body::Bare(_) => Ok(false),
        }
    }

    fn forged_in_log(&self, alloc: Global, entries: &[Shown]) -> Found
        requires { AllByRecursion (FitsShown self.now.shape.now) entries.now }
        ensures { (s : Schedule) (w : World) → AsksIn s w self.now → IfOk result (λ b. b ≡ list_any (is_forged_request s w) (flat_map shown_requests entries.now)) }
    {
        for entry in entries {
            if self.forged_in_shown(alloc, entry)? {
                return Ok(true);
            }
        }
        Ok(false)
    }

    fn forged_in_new_view(&self, alloc: Global, body: &Body<NewViewBody>) -> Found
        requires { FitsBody (FitsNewViewBody self.now.shape.now) body.now }
        ensures { (s : Schedule) (w : World) → AsksIn s w self.now → IfOk result (λ b. b ≡ list_any (is_forged_request s w) (inside_whole (λ b. flat_map change_requests b.changes) body.now)) }
    {
        match body {
            Body::Whole(body) => self.forged_in_members(alloc, body.changes.as_slice()),
            Body::Bare(_) => Ok(false),
        }
    }

    fn forged_in_members(&self, alloc: Global, members: &[ViewChange]) -> Found
        requires { AllByRecursion (FitsViewChange self.now.shape.now) members.now }
        ensures { (s : Schedule) (w : World) → AsksIn s w self.now → IfOk result (λ b. b ≡ list_any (is_forged_request s w) (flat_map change_requests members.now)) }
    {
        for member in members {
            if self.forged_in_change(alloc, member)? {
                return Ok(true);
            }
        }
        Ok(false)
    }

    fn forged_in_stamped(&self, alloc: Global, m: &Stamped) -> Found
        requires { FitsStamped self.now.shape.now m.now }
        ensures { (s : Schedule) (w : World) → AsksIn s w self.now → IfOk result (λ b. b ≡ list_any (is_forged_request s w) (stamped_requests m.now)) }
    {
        match m {
            Stamped::Prepare(m) => self.forged_in_vote(alloc, &m.body),
            Stamped::Commit(m) => self.forged_in_vote(alloc, &m.body),
            Stamped::ViewChange(m) => self.forged_in_change(alloc, m),
            Stamped::NewView(m) => self.forged_in_new_view(alloc, &m.body),
            Stamped::Open(m) => self.forged_in_open(alloc, &m.body),
            Stamped::Checkpoint(_) | Stamped::Enter(_) | Stamped::Join(_) => Ok(false),
        }
    }

    fn forged_in_entries(&self, alloc: Global, entries: &[Stamped]) -> Found
        requires { AllByRecursion (FitsStamped self.now.shape.now) entries.now }
        ensures { (s : Schedule) (w : World) → AsksIn s w self.now → IfOk result (λ b. b ≡ list_any (is_forged_request s w) (flat_map stamped_requests entries.now)) }
    {
        for entry in entries {
            if self.forged_in_stamped(alloc, entry)? {
                return Ok(true);
            }
        }
        Ok(false)
    }

    // ---- replies and wishes

    /// The tag verifies, and the correct host did not reply this.
    fn is_forged_reply(&self, alloc: Global, m: &Reply, message: &Message) -> Found
        requires { Fits self.now.shape.now message.now × (message.now ≡ kind.Reply m.now) }
        ensures { (s : Schedule) (w : World) → AsksIn s w self.now → IfOk result (λ b. b ≡ is_forged_reply s w m.now) }
    {
        if self.faulty_hosts[usize::from(m.host)] || self.ledger.was_tagged(alloc, message)? {
            return Ok(false);
        }
        let mut signed = Vec::new(alloc);
        put_u8(&mut signed, m.host)?;
        let rest = signed_reply(alloc, m.client, m.seq, m.pos, m.result.as_slice())?;
        signed.extend_from_slice(rest.as_slice())?;
        Ok(self.pens[usize::from(m.client)].verify_reply(signed.as_slice(), &m.tag))
    }

    /// The tag verifies, and the correct host did not wish this.
    fn is_forged_wish(&self, alloc: Global, m: &ReqViewChange, message: &Message) -> Found
        requires { Fits self.now.shape.now message.now × (message.now ≡ kind.ReqViewChange m.now) }
        ensures { (s : Schedule) (w : World) → AsksIn s w self.now → IfOk result (λ b. b ≡ is_forged_wish s w m.now) }
    {
        if self.faulty_hosts[usize::from(m.host)] || self.ledger.was_tagged(alloc, message)? {
            return Ok(false);
        }
        Ok(self.usig.verify_wish(m.host, m.view, &m.tag))
    }

    // ---- in any message

    /// Whether a message has a forged tag: of a request in it, or its own. It fits.
    pub fn has_forged_tag(&self, alloc: Global, message: &Message) -> Found
        requires { Fits self.now.shape.now message.now }
        ensures { (s : Schedule) (w : World) → AsksIn s w self.now → IfOk result (λ b. b ≡ has_forged_tag s w message.now) }
    {
        match message {
            Message::Reply(m) => self.is_forged_reply(alloc, m, message),
            Message::ReqViewChange(m) => self.is_forged_wish(alloc, m, message),
            Message::Request(r) => self.is_forged_request(alloc, r),
            Message::Log(m) => self.forged_in_entries(alloc, m.entries.as_slice()),
            Message::Prepare(m) => self.forged_in_vote(alloc, &m.body),
            Message::Commit(m) => self.forged_in_vote(alloc, &m.body),
            Message::ViewChange(m) => self.forged_in_change(alloc, m),
            Message::NewView(m) => self.forged_in_new_view(alloc, &m.body),
            Message::Open(m) => self.forged_in_open(alloc, &m.body),
            _ => Ok(false),
        }
    }
}
