//! On what f+1 hosts agree.

ghost use Rattle.std.specs.Prelude.{◌≡◌, ◌++◌, [], count_by, option_map, OnOk};
ghost use Rattle.std.specs.List.{cons_option};
ghost use Rattle.mb_msg.specs.Bodies.{whole_body};
ghost use Rattle.mb_model.specs.Stable.{kept_floor};
ghost use Rattle.mb_checkpoints.specs.Agreement.{of_floor, said_in, says, alike, first_with};

use crate::checkpoints::Checkpoints;
use mb_base::{Digest, Host, Items, NoMemory};
use mb_msg::{Body, Checkpoint, Floor, Floors};
use std::alloc::Global;

/// What a CHECKPOINT says of that on which hosts are to agree: its state, and for the certificate of a floor also that floor.
#[derive(Clone, Copy, PartialEq, Eq, Drop)]
pub(crate) struct Said {
    pub(crate) state: Digest,
    pub(crate) floor: Option<Floor>,
}

/// The floors of a CHECKPOINT that came whole.
pub(crate) fn whole_floors(message: &Checkpoint) -> Option<&Floors>
    ensures { option_map (λ b. b.now) result ≡ whole_body message.now.body }
{
    match &message.body {
        Body::Whole(floors) => Some(floors),
        Body::Bare(_) => None,
    }
}

/// What it says of the state and of the floor of a host, where it came whole with such a floor.
fn floor_said(owner: Host, message: &Checkpoint) -> Option<Said>
    ensures { result ≡ option_map of_floor (kept_floor owner message.now) }
{
    let floors = whole_floors(message)?;
    match floors.floors.as_slice().get(usize::from(owner)) {
        Some(Some(floor)) => Some(Said {
            state: message.state,
            floor: Some(*floor),
        }),
        _ => None,
    }
}

/// What it says of the state alone, or also of the floor of a host.
pub(crate) fn said_in(owner: Option<Host>, message: &Checkpoint) -> Option<Said>
    ensures { result ≡ said_in owner message.now }
{
    match owner {
        None => Some(Said {
            state: message.state,
            floor: None,
        }),
        Some(owner) => floor_said(owner, message),
    }
}

/// Whether it says this.
pub(crate) fn says(owner: Option<Host>, message: &Checkpoint, said: &Said) -> bool
    ensures { result ≡ says owner said.now message.now }
{
    match said_in(owner, message) {
        Some(other) => *said == other,
        None => false,
    }
}

/// Whether they say the same.
fn is_same(a: &Said, b: &Said) -> bool
    ensures { result ≡ alike a.now b.now }
{
    a == b
}

/// How many say the same as this one.
fn count_like(said: &Said, all: &[Said]) -> usize
    ensures { result ≡ count_by (alike said.now) all.now }
{
    let mut count = 0;
    for other in all {
        if is_same(said, other) {
            count += 1;
        }
    }
    count
}

/// What the first of them says with whom so many agree.
fn first_agreed(all: &[Said], many: usize) -> Option<Said>
    ensures { result ≡ first_with alike many all.now all.now }
{
    for said in all {
        if many <= count_like(said, all) {
            return Some(*said);
        }
    }
    None
}

/// One more at the end, where there is one. After `NoMemory` the list is as it was.
pub(crate) fn push_some<T: Drop>(list: &mut Items<T>, item: Option<T>) -> Result<(), NoMemory>
    ensures { OnOk result (list.new ≡ list.old ++ cons_option item []) }
{
    if let Some(item) = item {
        list.push(item)?;
    }
    Ok(())
}

impl Checkpoints {
    ghost use Rattle.std.specs.Prelude.{◌≡◌, ◌≤◌, ◌<◌, ◌+◌, filter_map, option_and_then, IfOk};
    ghost use Rattle.mb_base.specs.Shapes.{host_count};
    ghost use Rattle.mb_checkpoints.specs.Agreement.{said_in};
    ghost use Rattle.mb_checkpoints.specs.Certificates.{message_at, whole_row, agreed};

    /// On what f+1 hosts agree at a multiple of the interval, in the state alone, or also in the floor of a host.
    pub(crate) fn agreed(
        &self,
        alloc: Global,
        owner: Option<Host>,
        number: u64,
    ) -> Result<Option<Said>, NoMemory>
        requires { number ≤ self.now.first + 2 }
        ensures { IfOk result (λ r. r ≡ agreed owner self.now number) }
    {
        let said = self.said(alloc, owner, number)?;
        Ok(first_agreed(said.as_slice(), usize::from(self.shape.quorum())))
    }

    /// What each host says at a multiple of the interval.
    fn said(&self, alloc: Global, owner: Option<Host>, number: u64) -> Result<Items<Said>, NoMemory>
        requires { number ≤ self.now.first + 2 }
        ensures { IfOk result (λ l. l ≡ filter_map (said_in owner) (whole_row self.now number)) }
    {
        let mut all = Items::new(alloc);
        for host in 0..self.shape.n() {
            push_some(&mut all, self.said_by(owner, number, host))?;
        }
        Ok(all)
    }

    /// What a host says at a multiple of the interval.
    fn said_by(&self, owner: Option<Host>, number: u64, host: Host) -> Option<Said>
        requires host { host < host_count self.now.shape }
        requires number { number ≤ self.now.first + 2 }
        ensures { result ≡ option_and_then (said_in owner) (message_at self.now number host) }
    {
        said_in(owner, &self.get(number, host)?.message)
    }
}
