//! The hosts of a world: correct ones, and faulty ones that stamp what events say.

ghost use Rattle.std.specs.Prelude.{◌≡◌, ◌<◌, ◌≤◌, false, length, [], ℕ, Some, slice_get, IfOk, OnOk};
ghost use Rattle.mb_base.specs.Shapes.{host_count};
ghost use Rattle.mb_base.specs.declared.shape.Shape.{Shape as ShapeRecord};
ghost use Rattle.mb_model.specs.Histories.{History};
ghost use Rattle.mb_world_model.specs.World.{System};
ghost use Rattle.mb_core.specs.Represents.{IsAtRest};
ghost use Rattle.mb_replica.specs.Told.{KnowsEvent};
ghost use Rattle.mb_core.specs.declared.replica.Replica.{Replica};
ghost use Rattle.mb_members.specs.declared.members.Member.TheVariants as member;
ghost use Rattle.mb_schedule.specs.Limits.{is_faulty};
ghost use Rattle.mb_members.specs.Hosts.{IsSystem, AreServices, ForSystem};
ghost use Rattle.mb_members.specs.Members.{AllRest, AllRun, AreOf, Goes, IsCorrectHost, IsMember, RepresentsMembers, StampedWithin, has_halted, shape_of, stamped_by, MakesStep};

use mb_base::{Digest, Host, Items, Key, NoMemory, Shape};
use mb_core::{Replica, Stop};
use mb_msg::Event;
use mb_replica::StepRecord;
use mb_service::Service;
use mb_usig::Usig;
use std::alloc::Global;

/// What a faulty host has.
#[derive(Drop)]
pub struct FaultyHost {
    /// Its trusted part, whose counter is the number of its stamps.
    pub usig: Usig,
    /// The messages that it stamped, as bytes, oldest first: that of a counter is at counter - 1.
    pub messages: Vec<Items<u8>>,
}

/// What a faulty host stamped: the bytes, and the message with the identifier.
#[derive(Drop)]
pub struct Stamp {
    /// The bytes that the identifier covers.
    pub bare: Items<u8>,
    /// The bytes of the message, in which the identifier stands.
    pub message: Vec<u8>,
}

/// A host.
#[derive(Drop)]
pub enum Member<V: Service> {
    /// It makes the steps of the protocol.
    Correct(Replica<V>),
    /// It makes no step, and stamps what events say.
    Faulty(FaultyHost),
}

/// All hosts, in the order of their numbers, to which nothing has happened. The lists have a member for each host: whether it is faulty, and the
/// service that a correct one is made with. An error comes where memory runs out, and only there.
pub fn new_members<V: Service + Drop>(
    alloc: Global,
    shape: Shape,
    secret: &Key,
    faulty_hosts: &[bool],
    services: Vec<V>,
) -> Result<Vec<Member<V>>, NoMemory>
    requires faulty { length faulty_hosts.now ≡ host_count shape }
    requires services { length services.items ≡ host_count shape }
    ensures stands { ForSystem V.machine shape secret.now (λ y. y.schedule.faulty_hosts ≡ faulty_hosts.now → AreServices y.initial services.items → IfOk result (λ v. RepresentsMembers y v.items (λ h. []) (λ h. []))) }
    ensures runs { IfOk result (λ v. AllRun v.items) }
    ensures within { IfOk result (λ v. StampedWithin 0 v.items) }
    ensures of { IfOk result (λ v. AreOf shape v.items) }
    ensures len { IfOk result (λ v. length v.items ≡ host_count shape) }
{
    let mut all = Vec::with_capacity(alloc, usize::from(shape.n()))?;
    let mut host = 0;
    for service in services {
        let faulty = faulty_hosts[usize::from(host)];
        all.push(new_member(alloc, shape, secret, host, faulty, service)?)?;
        host += 1;
    }
    Ok(all)
}

/// A host to which nothing has happened.
fn new_member<V: Service + Drop>(
    alloc: Global,
    shape: Shape,
    secret: &Key,
    host: Host,
    faulty: bool,
    service: V,
) -> Result<Member<V>, NoMemory>
    requires { host < host_count shape }
    ensures stands { ForSystem V.machine shape secret.now (λ y. is_faulty y.schedule host ≡ faulty → service ≡ y.initial → IfOk result (λ m. IsMember y host m [] [])) }
    ensures runs { IfOk result (λ m. has_halted m ≡ false) }
    ensures within { IfOk result (λ m. stamped_by m ≤ 0) }
    ensures of { IfOk result (λ m. shape_of shape m ≡ shape) }
{
    if faulty {
        return Ok(Member::Faulty(FaultyHost {
            usig: Usig::new(shape, host, secret),
            messages: Vec::new(alloc),
        }));
    }
    Ok(Member::Correct(Replica::make(alloc, shape, host, secret, service)?))
}

/// One event at the host of this number, where no correct host ran out of memory. None at a faulty one, which stays as it was. `known` is the
/// digest of the body of the stamped message that the event gives, where it is known. An error comes where memory runs out, and only there; no
/// event may follow it.
pub fn step_at<V: Service + Drop>(
    alloc: Global,
    members: &mut Vec<Member<V>>,
    host: Host,
    event: &Event,
    known: &Option<Digest>,
) -> Result<Option<StepRecord>, NoMemory>
    requires host { host < length members.old.items }
    requires runs { AllRun members.old.items }
    requires rest { AllRest V.machine members.old.items }
    requires known { (r : Replica V) → slice_get members.old.items host ≡ Some (member.Correct r) → KnowsEvent r.state.protocol.shape known.now event.now }
    ensures stands { MakesStep V.machine host event.now members.old.items result members.new.items }
    ensures runs { OnOk result (AllRun members.new.items) }
    ensures within { (n : ℕ) → StampedWithin n members.old.items → StampedWithin n members.new.items }
    ensures of { (n : ShapeRecord) → AreOf n members.old.items → AreOf n members.new.items }
    ensures len { length members.new.items ≡ length members.old.items }
{
    match &mut members[usize::from(host)] {
        Member::Correct(replica) => Ok(Some(step_of(alloc, replica, event, known)?)),
        Member::Faulty(_) => Ok(None),
    }
}

fn step_of<V: Service + Drop>(
    alloc: Global,
    replica: &mut Replica<V>,
    event: &Event,
    known: &Option<Digest>,
) -> Result<StepRecord, NoMemory>
    requires runs { replica.old.halted ≡ false }
    requires rest { IsAtRest V.machine replica.old }
    requires known { KnowsEvent replica.old.state.protocol.shape known.now event.now }
    ensures stands { (y : System V) (h : ℕ) (d : History) → IsSystem V.machine y → h < host_count y.schedule.shape → IsCorrectHost y h replica.old d
        → IfOk result (λ s. Goes y h d event.now s replica.new) }
    ensures runs { OnOk result (replica.new.halted ≡ false) }
{
    match replica.step_told(alloc, event, known) {
        Ok(told) => Ok(told),
        Err(Stop::NoMemory) => Err(NoMemory),
        Err(Stop::Halted) => unreachable!(),
    }
}
