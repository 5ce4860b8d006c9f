//! The tables of the normal case.

ghost use Rattle.std.specs.Prelude.{◌≡◌, length};
ghost use Rattle.mb_base.specs.Shapes.{client_count};
ghost use Rattle.mb_checkpoints.specs.Kept.{low_of};

use crate::pending::Pending;
use crate::slots::Slots;
use mb_base::{Client, Counter, Digest, Host, NoMemory, Pos, Seq, Shape};
use mb_checkpoints::Checkpoints;
use mb_model::KnownSlot;
use mb_msg::{Batch, Checkpoint, FloorCert, Request, StableCert};
use mb_votes::{Vote, Votes};
use mb_window::Refused;
use std::alloc::Global;

/// What a host holds of a view that goes its way. Each table answers one search in the host's history, in the host's view.
#[derive(Drop)]
pub struct Normal {
    pub(crate) shape: Shape,
    pub(crate) host: Host,
    /// For each position of the window what is known of it: `slot_at`; and for each client the greatest number in them: `greatest_in_slots`.
    pub(crate) slots: Slots,
    /// For each position of the window the vote of each host: `vote_at`.
    pub(crate) votes: Votes,
    /// For each client its pending request: `pending`.
    pub(crate) pending: Pending,
    /// For each host its last CHECKPOINT at the stable position, and at one and two intervals above it: `checkpoint_of`.
    pub(crate) checkpoints: Checkpoints,
    ghost slots_shape: { slots.shape ≡ shape },
    ghost votes_shape: { votes.shape ≡ shape },
    ghost clients: { length pending.by_client.items ≡ client_count shape },
    ghost checkpoints_shape: { checkpoints.shape ≡ shape },
    ghost votes_low: { votes.ballots.low ≡ slots.window.low },
    ghost checkpoints_low: { low_of checkpoints ≡ slots.window.low },
}

impl Normal {
    ghost use Rattle.std.specs.Prelude.{◌≡◌, ◌≤◌, ◌<◌, ◌+◌, ◌*◌, ◌^◌, ℕ, Option, option_map, option_and_then, option_copied, is_some, IfOk, IsOk, OnOk, OnErr};
    ghost use Rattle.mb_base.specs.Shapes.{host_count, client_count, interval, span};
    ghost use Rattle.mb_base.specs.declared.shape.Shape.{Shape as ShapeValue};
    ghost use Rattle.mb_parts.specs.Fits.{FitsText};
    ghost use Rattle.mb_msg.specs.Bodies.{body_digest};
    ghost use Rattle.mb_msg.specs.Spelling.{floors_body_bytes};
    ghost use Rattle.mb_checkpoints.specs.Kept.{IsKeptPlace, low_of};
    ghost use Rattle.mb_checkpoints.specs.Certificates.{agreed_above, floor_from};
    ghost use Rattle.mb_normal.specs.Searches.{Searches, nothing_above, with_slot, with_vote, with_pending, with_settled, with_checkpoint, above_low, without_votes};
    ghost use Rattle.mb_normal.specs.Tables.{Represents, RefusesIn, Becomes, batch_of, order_of};

    /// Everything is empty, and the stable position is 0. All memory is taken here.
    pub fn make(alloc: Global, shape: Shape, host: Host) -> Result<Normal, NoMemory>
        ensures { IfOk result (λ t. Represents shape host t (nothing_above 0)) }
    {
        Ok(Normal {
            shape,
            host,
            slots: Slots::make(alloc, shape)?,
            votes: Votes::make(alloc, shape, 0)?,
            pending: Pending::make(alloc, shape)?,
            checkpoints: Checkpoints::make(alloc, shape)?,
        })
    }

    // ---- slots and votes

    /// Puts the slot of a position. `cert` is the certificate of the PREPARE, for a slot of a plan that of the NEW_VIEW. Where it is refused
    /// nothing changes. It takes no memory.
    pub fn slot(
        &mut self,
        pos: Pos,
        counter: Counter,
        cert: Digest,
        digest: Digest,
        batch: Option<Batch>,
    ) -> Result<(), Refused<Option<Batch>>>
        ensures refused { (s : ShapeValue) (h : ℕ) (x : Searches) → Represents s h self.old x → RefusesIn x.low (span s) (is_some (x.slots pos)) pos batch result }
        ensures stands { OnOk result (Becomes self.old self.new (λ x. with_slot x pos (record { counter = counter; cert = cert; digest = digest; batch = batch }))) }
        ensures err { OnErr result (self.new ≡ self.old) }
    {
        let slot = KnownSlot {
            counter,
            cert,
            digest,
            batch,
        };
        match self.slots.put(pos, slot) {
            Ok(()) => Ok(()),
            Err(Refused::Below { low, item }) => Err(Refused::Below {
                low,
                item: item.batch,
            }),
            Err(Refused::Beyond { low, item }) => Err(Refused::Beyond {
                low,
                item: item.batch,
            }),
            Err(Refused::Filled { item }) => Err(Refused::Filled { item: item.batch }),
        }
    }

    /// Counter and certificate of the slot of a position. None exactly where there is none.
    pub fn cert_at(&self, pos: Pos) -> Option<(Counter, Digest)>
        ensures { (s : ShapeValue) (h : ℕ) (x : Searches) → Represents s h self.now x → result ≡ option_map order_of (x.slots pos) }
    {
        let slot = self.slots.get(pos)?;
        Some((slot.counter, slot.cert))
    }

    /// The batch of the slot of a position. None exactly where there is no slot, or one without its batch.
    pub fn batch_at(&self, pos: Pos) -> Option<&Batch>
        ensures { (s : ShapeValue) (h : ℕ) (x : Searches) → Represents s h self.now x → option_copied result ≡ batch_of (x.slots pos) }
    {
        self.slots.get(pos)?.batch.as_ref()
    }

    /// Counts the first vote of a host for a position. Where it is refused nothing changes. It takes no memory.
    pub fn vote(&mut self, pos: Pos, host: Host, vote: Vote) -> Result<(), Refused<Vote>>
        requires { host < host_count self.old.shape }
        ensures refused { (s : ShapeValue) (h : ℕ) (x : Searches) → Represents s h self.old x → RefusesIn x.low (span s) (is_some (x.votes host pos)) pos vote result }
        ensures stands { OnOk result (Becomes self.old self.new (λ x. with_vote x pos host vote)) }
        ensures err { OnErr result (self.new ≡ self.old) }
    {
        self.votes.add(pos, host, vote)
    }

    // ---- pending requests

    /// A request takes the place of its client's pending one. It takes no memory.
    pub fn pend(&mut self, request: Request)
        requires client { request.client < client_count self.old.shape }
        requires short { FitsText request.op }
        ensures { Becomes self.old self.new (λ x. with_pending x request) }
    {
        self.pending.pend(request);
    }

    /// Drops a client's pending request where its number is at most this one. It takes no memory.
    pub fn settle(&mut self, client: Client, seq: Seq)
        requires { client < client_count self.old.shape }
        ensures { Becomes self.old self.new (λ x. with_settled x client seq) }
    {
        self.pending.settle(client, seq);
    }

    /// A client's pending request. None exactly where there is none.
    pub fn pending(&self, client: Client) -> Option<&Request>
        requires { client < client_count self.now.shape }
        ensures { (s : ShapeValue) (h : ℕ) (x : Searches) → Represents s h self.now x → option_copied result ≡ x.pending client }
    {
        self.pending.get(client)
    }

    // ---- CHECKPOINTs, and the stable position

    /// Keeps a CHECKPOINT in the place of its host's kept one at that position. It takes no memory, so `NoMemory` never comes.
    pub fn keep(&mut self, checkpoint: Checkpoint) -> Result<(), NoMemory>
        requires host { checkpoint.ui.host < host_count self.old.shape }
        requires place { IsKeptPlace self.old.checkpoints checkpoint.pos }
        ensures stands { Becomes self.old self.new (λ x. with_checkpoint x checkpoint) }
        ensures ok { IsOk result }
    {
        self.checkpoints.keep(checkpoint);
        Ok(())
    }

    /// The digest of the floors of a CHECKPOINT, which is not taken again where a kept one of its position has the same floors.
    pub fn floors_digest(&self, checkpoint: &Checkpoint) -> Digest
        ensures { result ≡ body_digest floors_body_bytes checkpoint.now.body }
    {
        self.checkpoints.floors_digest(checkpoint)
    }

    /// The certificate of the greatest position above the stable one on which f+1 kept CHECKPOINTs agree. None exactly where there is none.
    pub fn stable(&self, alloc: Global) -> Result<Option<StableCert>, NoMemory>
        ensures { (s : ShapeValue) (h : ℕ) (x : Searches) → Represents s h self.now x → IfOk result (λ c. c ≡ agreed_above s x.checkpoints x.low) }
    {
        self.checkpoints.stable(alloc)
    }

    /// The certificate of the greatest position at which f+1 kept whole CHECKPOINTs agree in digest and in a floor for a host. None exactly
    /// where there is none.
    pub fn floor_of(&self, alloc: Global, host: Host) -> Result<Option<FloorCert>, NoMemory>
        ensures { (s : ShapeValue) (h : ℕ) (x : Searches) → Represents s h self.now x → IfOk result (λ c. c ≡ floor_from s x.checkpoints host x.low) }
    {
        self.checkpoints.floor_of(alloc, host)
    }

    /// The stable position becomes this one, a multiple of the interval. Slots, votes and CHECKPOINTs below it are dropped. It takes no memory.
    pub fn raise(&mut self, low: Pos)
        requires above { low_of self.old.checkpoints ≤ low }
        requires most { low < 2 ^ 63 }
        requires multiple { (number : ℕ) × (low ≡ number * interval self.old.shape) }
        ensures { Becomes self.old self.new (λ x. above_low x low) }
    {
        self.slots.raise(low);
        self.votes.raise(low);
        self.checkpoints.raise(low);
    }

    /// No slots and votes any more. It takes no memory.
    pub fn clear(&mut self)
        ensures { Becomes self.old self.new without_votes }
    {
        self.slots.clear();
        self.votes.clear();
    }
}
