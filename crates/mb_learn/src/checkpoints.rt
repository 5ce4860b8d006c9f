//! The digests that hosts say their states have.

ghost use Rattle.std.specs.Prelude.{◌≡◌};
ghost use Rattle.mb_base.specs.Shapes.{host_count, tally};
ghost use Rattle.mb_learn.specs.Tables.{says};

use mb_base::{Digest, Host, Items, NoMemory, Pos, Shape};
use std::alloc::Global;
use std::collections::BTreeMap;

/// That a host's state has a digest.
#[derive(Clone, Copy, PartialEq, Eq)]
struct Said {
    host: Host,
    state: Digest,
}

/// For each position the digests that hosts say their states have there, each once for a host.
#[derive(Drop)]
pub(crate) struct Checkpoints {
    by_position: BTreeMap<Pos, Items<Said>>,
}

impl Checkpoints {
    ghost use Rattle.std.specs.Prelude.{◌≡◌, ◌≤◌, ℕ, [], false, OnOk, IfSome, IfNone};
    ghost use Rattle.mb_base.specs.Shapes.{Bytes, host_count, quorum, tally};
    ghost use Rattle.mb_usig.specs.Tags.{same_bytes};
    ghost use Rattle.mb_learn.specs.Tables.{said_at, says, AddsSaid};

    /// No host said anything.
    pub(crate) fn make(alloc: Global) -> Checkpoints
        ensures { (p : ℕ) → said_at result p ≡ [] }
    {
        Checkpoints {
            by_position: BTreeMap::new(alloc),
        }
    }

    fn at(&self, pos: Pos) -> &[Said]
        ensures { result.now ≡ said_at self.now pos }
    {
        match self.by_position.get(&pos) {
            Some(said) => said.as_slice(),
            None => &[],
        }
    }

    /// Whether a host says so.
    pub(crate) fn has(&self, pos: Pos, host: Host, state: &Digest) -> bool
        ensures { result ≡ says (said_at self.now pos) host state.now }
    {
        says(self.at(pos), host, state)
    }

    /// A host says so, too.
    pub(crate) fn add(
        &mut self,
        alloc: Global,
        pos: Pos,
        host: Host,
        state: Digest,
    ) -> Result<(), NoMemory>
        ensures { OnOk result (AddsSaid self.old pos (record { host = host; state = state }) self.new) }
    {
        let said = self.by_position.entry(pos)?.or_insert(Items::new(alloc));
        said.push(Said { host, state })?;
        Ok(())
    }

    /// A digest other than this one that f+1 hosts say their states have.
    pub(crate) fn other_than(&self, shape: &Shape, pos: Pos, found: &Digest) -> Option<Digest>
        ensures some { IfSome result (λ d. (quorum shape.now ≤ tally (λ h. says (said_at self.now pos) h d) (host_count shape.now)) × (same_bytes d found.now ≡ false)) }
        ensures none { IfNone result ((d : Bytes) → quorum shape.now ≤ tally (λ h. says (said_at self.now pos) h d) (host_count shape.now) → same_bytes d found.now ≡ false → ⊥) }
    {
        let all = self.at(pos);
        for said in all {
            if said.state != *found && sayers(shape, all, &said.state) >= shape.quorum() {
                return Some(said.state);
            }
        }
        None
    }
}

/// Whether a host says so among these.
fn says(all: &[Said], host: Host, state: &Digest) -> bool
    ensures { result ≡ says all.now host state.now }
{
    all.contains(&Said {
        host,
        state: *state,
    })
}

/// How many hosts say so.
#[tactic(auto, using(crate::proofs::Tallies::tally_more))]
fn sayers(shape: &Shape, all: &[Said], state: &Digest) -> u8
    ensures { result ≡ tally (λ h. says all.now h state.now) (host_count shape.now) }
{
    let mut count = 0;
    for host in 0..shape.n() {
        if says(all, host, state) {
            count += 1;
        }
    }
    count
}
