//! All that was stamped, asked and tagged.

ghost use Rattle.std.specs.Prelude.{◌≡◌, [], IfOk, length, map, replicate, slice_get};
ghost use Rattle.mb_forgery.specs.Places.{is_there};
ghost use Rattle.mb_base.specs.Shapes.{host_count};
ghost use Rattle.mb_base.specs.Spelling.{IsBytes};
ghost use Rattle.mb_msg.specs.declared.message.Message.{Message as MessageData};
ghost use Rattle.mb_msg.specs.Spelling.{spelling};
ghost use Rattle.mb_world_model.specs.World.{is_tagged_message};

use crate::asked::Asked;
use mb_base::{Counter, Duplicate, Host, Items, NoMemory, Shape, put_u8};
use mb_msg::{Message, Request, encode};
use std::alloc::Global;
use std::collections::BTreeSet;

/// The first byte of a REPLY.
const REPLY: u8 = 4;

/// The first byte of a wish.
const REQ_VIEW_CHANGE: u8 = 6;

/// All that was stamped, asked and tagged. It only grows.
#[derive(Drop)]
pub struct Ledger {
    shape: Shape,
    /// For each host the bytes that its USIG stamped, oldest first: those of a counter are at counter - 1.
    stamps: Vec<Vec<Items<u8>>>,
    /// The requests that clients asked.
    asked: Asked,
    /// The REPLYs and wishes of correct hosts, as bytes.
    tagged: BTreeSet<Vec<u8>>,
    ghost stamps_len: { length stamps.items ≡ host_count shape },
}

impl Ledger {
    ghost use Rattle.std.specs.Prelude.{◌≡◌, ◌<◌, ◌∷◌, [], nat_eq, IfOk, OnOk};
    ghost use Rattle.std.specs.List.{list_any};
    ghost use Rattle.std.specs.Cmp.Lexicographic.{pointwise};
    ghost use Rattle.mb_base.specs.Shapes.{host_count};
    ghost use Rattle.mb_usig.specs.Tags.{same_bytes};
    ghost use Rattle.mb_parts.specs.Fits.{FitsRequest};
    ghost use Rattle.mb_parts.specs.Spelling.{request_bytes};
    ghost use Rattle.mb_parts.specs.Issued.{is_issued};
    ghost use Rattle.mb_msg.specs.declared.message.Message.{Message as MessageData};
    ghost use Rattle.mb_msg.specs.Fits.{Fits};
    ghost use Rattle.mb_msg.specs.Spelling.{spelling};
    ghost use Rattle.mb_model.specs.Sending.{Letter};
    ghost use Rattle.mb_world_model.specs.World.{update, with_tagged};
    ghost use Rattle.mb_forgery.specs.Ledgers.{Keeps, FromKept, FromKeptWith, OfKept, TellsIssued};

    /// Nothing was made.
    pub fn make(alloc: Global, shape: Shape) -> Result<Ledger, NoMemory>
        ensures { IfOk result (λ l. Keeps shape l (λ h. []) [] []) }
    {
        Ok(Ledger {
            shape,
            stamps: no_stamps(alloc, shape.n())?,
            asked: Asked::make(alloc),
            tagged: BTreeSet::new(alloc),
        })
    }

    /// The size of the system.
    pub fn shape(&self) -> Shape
        ensures { result ≡ self.now.shape }
    {
        self.shape
    }

    // ---- what was stamped

    /// A host stamped these bytes at the next counter.
    pub fn note_stamp(&mut self, host: Host, bare: Items<u8>) -> Result<(), NoMemory>
        requires { host < host_count self.old.shape }
        ensures keeps { FromKept self.old (λ stamps asked tagged. OnOk result (Keeps self.old.shape self.new (update stamps host (bare ∷ stamps host)) asked tagged)) }
        ensures shape { self.new.shape ≡ self.old.shape }
    {
        are_bytes(bare.as_slice());
        self.stamps[usize::from(host)].push(bare)?;
        Ok(())
    }

    /// Whether a host stamped these bytes at this counter. They are those of a bare message of the grammar.
    pub(crate) fn is_issued(&self, host: Host, counter: Counter, bare: &[u8]) -> bool
        requires { host < host_count self.now.shape }
        ensures { TellsIssued self.now host counter bare.now result }
    {
        if counter == 0 {
            return false;
        }
        stands_at(self.stamps[usize::from(host)].as_slice(), counter - 1, bare)
    }

    // ---- requests and tags

    /// A client asked for this.
    pub fn note_asked(&mut self, alloc: Global, request: &Request) -> Result<(), NoMemory>
        requires { FitsRequest self.old.shape request.now }
        ensures keeps { FromKept self.old (λ stamps asked tagged. OnOk result (Keeps self.old.shape self.new stamps (request.now ∷ asked) tagged)) }
        ensures shape { self.new.shape ≡ self.old.shape }
    {
        self.asked.note(alloc, request.duplicate(alloc)?)?;
        Ok(())
    }

    /// Whether a client asked for this.
    pub(crate) fn was_asked(&self, request: &Request) -> bool
        requires { FitsRequest self.now.shape request.now }
        ensures { OfKept self.now (λ stamps asked tagged. result ≡ list_any (λ q. same_bytes (request_bytes q) (request_bytes request.now)) asked) }
    {
        self.asked.has(request)
    }

    /// A correct host sent this. Of a REPLY and of a wish it is kept.
    pub fn note_sent(&mut self, alloc: Global, bytes: &[u8]) -> Result<(), NoMemory>
        ensures keeps { FromKeptWith Letter self.old (λ stamps asked tagged letter. bytes.now ≡ spelling letter.says → OnOk result (Keeps self.old.shape self.new stamps asked (with_tagged tagged letter))) }
        ensures shape { self.new.shape ≡ self.old.shape }
    {
        if !is_tagged(bytes) {
            return Ok(());
        }
        self.note_tag(alloc, bytes)
    }

    fn note_tag(&mut self, alloc: Global, bytes: &[u8]) -> Result<(), NoMemory>
        ensures keeps { FromKeptWith MessageData self.old (λ stamps asked tagged m. bytes.now ≡ spelling m → OnOk result (Keeps self.old.shape self.new stamps asked (m ∷ tagged))) }
        ensures shape { self.new.shape ≡ self.old.shape }
    {
        let _new = self.tagged.insert(Vec::from_slice(alloc, bytes)?)?;
        Ok(())
    }

    /// Whether a correct host made this REPLY or wish.
    pub(crate) fn was_tagged(&self, alloc: Global, message: &Message) -> Result<bool, NoMemory>
        requires { Fits self.now.shape message.now }
        ensures { OfKept self.now (λ stamps asked tagged. IfOk result (λ b. b ≡ list_any (λ x. same_bytes (spelling x) (spelling message.now)) tagged)) }
    {
        let bytes = encode(alloc, &self.shape, message)?;
        Ok(self.tagged.contains(bytes.as_slice()))
    }
}

/// Says what the type says: each is below 256.
fn are_bytes(bytes: &[u8])
    ensures { IsBytes bytes.now }
{
    let _count = bytes.len();
}

/// Whether the bytes of a message are those of a REPLY or a wish.
fn is_tagged(bytes: &[u8]) -> bool
    ensures { (m : MessageData) → bytes.now ≡ spelling m → result ≡ is_tagged_message m }
{
    match bytes.first() {
        Some(kind) => *kind == REPLY || *kind == REQ_VIEW_CHANGE,
        None => false,
    }
}

/// For each host no stamp.
fn no_stamps(alloc: Global, hosts: u8) -> Result<Vec<Vec<Items<u8>>>, NoMemory>
    ensures { IfOk result (λ stamps. map (λ v. v.items) stamps.items ≡ replicate hosts []) }
{
    let mut stamps = Vec::with_capacity(alloc, usize::from(hosts))?;
    for _ in 0..hosts {
        stamps.push(Vec::new(alloc))?;
    }
    Ok(stamps)
}

/// Whether these bytes stand at this place.
fn stands_at(stamps: &[Items<u8>], index: u64, bytes: &[u8]) -> bool
    ensures { result ≡ is_there (slice_get stamps.now index) bytes.now }
{
    if index >= stamps.len() as u64 {
        return false;
    }
    stamps[index as usize].as_slice() == bytes
}
