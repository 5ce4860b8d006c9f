//! The lines of a report: where hosts and clients stand.

ghost use Rattle.std.specs.Prelude.{◌≡◌, ◌≤◌, ℕ, length, map, IfOk};
ghost use Rattle.std.specs.List.{range_with_len};
ghost use Rattle.mb_base.specs.Shapes.{Bytes};
ghost use Rattle.mb_base.specs.declared.shape.Shape.{Shape};
ghost use Rattle.mb_model.specs.Histories.{History};
ghost use Rattle.mb_model.specs.Clients.{Asker as Asking};
ghost use Rattle.mb_schedule.specs.declared.schedule.Schedule.{Schedule};
ghost use Rattle.mb_world_model.specs.World.{World as WorldState, System, self_of};
ghost use Rattle.mb_client.specs.Represents.{Represents};
ghost use Rattle.mb_members.specs.Askers.{RepresentsAskers};
ghost use Rattle.mb_members.specs.Members.{IsCorrectHost, IsMember, RepresentsMembers};
ghost use Rattle.mb_members.specs.Lines.{state_line, last_result, host_line, client_line};

use crate::members::Member;
use mb_base::{Client, Host, Items};
use mb_client::Asker;
use mb_core::Replica;
use mb_schedule::{ClientLine, HostLine, HostState, LastResult, RefusedLine};
use mb_service::Service;
use std::alloc::{AllocError, Global};

/// Where a correct host stands.
pub fn state_of<V: Service + Drop>(replica: &Replica<V>) -> HostState
    ensures { (y : System V) (h : ℕ) (d : History) → IsCorrectHost y h replica.now d → result ≡ state_line (self_of y h) d }
{
    let at = replica.at();
    HostState {
        view: at.view,
        phase: at.phase,
        exec: replica.exec(),
        low: replica.low(),
        log: replica.log_len(),
        longest: replica.log_longest(),
    }
}

/// The line of a host.
fn host_line<V: Service + Drop>(host: Host, member: &Member<V>) -> HostLine
    ensures { (y : System V) (x : WorldState) → IsMember y host member.now (x.histories host) (x.faulty_stamps host) → result ≡ host_line y x host }
{
    match member {
        Member::Correct(replica) => HostLine {
            host,
            state: Some(state_of(replica)),
        },
        Member::Faulty(_) => HostLine { host, state: None },
    }
}

/// The lines of all hosts, in the order of their numbers. An error comes where memory runs out, and only there.
pub fn host_lines<V: Service + Drop>(
    alloc: Global,
    members: &[Member<V>],
) -> Result<Items<HostLine>, AllocError>
    requires { length members.now ≤ 256 }
    ensures { (y : System V) (x : WorldState) → RepresentsMembers y members.now x.histories x.faulty_stamps → IfOk result (λ lines. lines ≡ map (host_line y x) (range_with_len 0 (length members.now))) }
{
    let mut lines = Items::new(alloc);
    for host in 0..members.len() {
        lines.push(host_line(host as Host, &members[host]))?;
    }
    Ok(lines)
}

fn last_result(alloc: Global, asker: &Asker) -> Result<Option<LastResult>, AllocError>
    ensures { (s : Shape) (secret : Bytes) (client : ℕ) (a : Asking) → Represents s secret client asker.now a → IfOk result (λ o. o ≡ last_result a.accepted) }
{
    match asker.result() {
        None => Ok(None),
        Some((seq, pos, answer)) => Ok(Some(LastResult {
            seq,
            pos,
            result: Items::from_vec(Vec::from_slice(alloc, answer)?),
        })),
    }
}

/// The line of a client. An error comes where memory runs out, and only there.
pub fn client_line(alloc: Global, client: Client, asker: &Asker) -> Result<ClientLine, AllocError>
    ensures { (s : Shape) (secret : Bytes) (w : WorldState) → Represents s secret client asker.now (w.askers client) → IfOk result (λ line. line ≡ client_line w client) }
{
    Ok(ClientLine {
        client,
        asked: asker.asked(),
        accepted: asker.accepted(),
        last: last_result(alloc, asker)?,
    })
}

/// The lines of all clients, in the order of their numbers. An error comes where memory runs out, and only there.
pub fn client_lines(alloc: Global, askers: &[Asker]) -> Result<Items<ClientLine>, AllocError>
    requires { length askers.now ≤ 256 }
    ensures { (s : Schedule) (x : WorldState) → RepresentsAskers s askers.now x.askers → IfOk result (λ lines. lines ≡ map (client_line x) (range_with_len 0 (length askers.now))) }
{
    let mut lines = Items::new(alloc);
    for client in 0..askers.len() {
        lines.push(client_line(alloc, client as Client, &askers[client])?)?;
    }
    Ok(lines)
}

/// A copy of the lines of refused events. An error comes where memory runs out, and only there.
pub fn refused_lines(
    alloc: Global,
    refused: &[RefusedLine],
) -> Result<Items<RefusedLine>, AllocError>
    ensures { IfOk result (λ lines. lines ≡ refused.now) }
{
    let mut lines = Items::new(alloc);
    for line in refused {
        lines.push(RefusedLine {
            event: line.event,
            name: line.name,
            numbers: Items::from_vec(Vec::from_slice(alloc, line.numbers.as_slice())?),
        })?;
    }
    Ok(lines)
}
