//! The nodes, each a child program.

ghost use Rattle.std.specs.Prelude.{◌≡◌, ◌≤◌, ◌^◌, ◌<◌, [], length, map, string_bytes, vec_capacity, IfOk, OnOk, IsErrOf};
ghost use Rattle.mb_base.specs.Shapes.{host_count};
ghost use Rattle.mb_edge.specs.Told.{with_more, added_by};
ghost use Rattle.mb_edge.specs.Faults.{TellsFaults};
ghost use Rattle.mb_cluster.specs.Nodes.{node_words, node_start, AreStarted, AwaitsSome, EndsAs};
ghost use Rattle.mb_cluster.specs.Missing.{AwaitsBut};
ghost use Rattle.mb_cluster.specs.Ends.{IsSpawnStop, AwaitsNodes, EndsWell, after_wait};

use crate::stop::{ClusterStop, spawn_stop};
use mb_base::{Host, NoMemory};
use mb_edge::{Child, Failed, Spawner};
use mb_sched::{Config, print_config};
use std::alloc::Global;

/// How many receives a node of a cluster makes, as the word of its command: it ends behind them where no STOP reaches it.
const NODE_RECEIVES: &str = "100000";

/// Starts the node of each host, in order, up to the first start that fails. The children stand in a list that has room for all of them, so that each that
/// was started stands there.
pub(crate) fn start_nodes<P: Spawner>(
    alloc: Global,
    config: &Config,
    children: &mut Vec<Child>,
    spawner: &mut P,
) -> Result<(), ClusterStop>
    requires none { children.old.items ≡ [] }
    requires room { host_count config.now.shape ≤ vec_capacity children.old }
    ensures few { length children.new.items ≤ host_count config.now.shape }
    ensures started { AreStarted config.now (length children.new.items) children.new.items (P.seen spawner.old).starts (P.seen spawner.new).starts }
    ensures all { OnOk result (length children.new.items ≡ host_count config.now.shape) }
    ensures kind { IsSpawnStop result }
    ensures waits { (P.seen spawner.new).waits ≡ (P.seen spawner.old).waits }
    ensures bad_ends { (P.seen spawner.new).bad_ends ≡ (P.seen spawner.old).bad_ends }
    ensures well { P.all_end_well spawner.old → P.all_end_well spawner.new }
    ensures faults { TellsFaults (P.never_fails spawner.old) (P.never_fails spawner.new) (P.seen spawner.old).faults (P.seen spawner.new).faults (IsErrOf result ClusterStop.SpawnFault) }
{
    let text = print_config(alloc, config)?;
    for host in 0..config.shape.n() {
        children.push_reserved(start_node(alloc, host, &text, spawner)?);
    }
    Ok(())
}

/// Starts the node of a host. It is given the config, and its record goes to a file.
fn start_node<P: Spawner>(
    alloc: Global,
    host: Host,
    config: &[u8],
    spawner: &mut P,
) -> Result<Child, ClusterStop>
    ensures starts { (P.seen spawner.new).starts ≡ with_more (P.seen spawner.old).starts (added_by result (λ child. (child, node_start config.now host))) }
    ensures kind { IsSpawnStop result }
    ensures waits { (P.seen spawner.new).waits ≡ (P.seen spawner.old).waits }
    ensures bad_ends { (P.seen spawner.new).bad_ends ≡ (P.seen spawner.old).bad_ends }
    ensures well { P.all_end_well spawner.old → P.all_end_well spawner.new }
    ensures faults { TellsFaults (P.never_fails spawner.old) (P.never_fails spawner.new) (P.seen spawner.old).faults (P.seen spawner.new).faults (IsErrOf result ClusterStop.SpawnFault) }
{
    let words = node_words(alloc, host)?;
    let output = format!(in alloc; "node-{host}.record")?;
    match spawner.start(&words, config, output.as_str()) {
        Ok(child) => Ok(child),
        Err(cause) => Err(spawn_stop(cause)),
    }
}

/// `node H 100000`
fn node_words(alloc: Global, host: Host) -> Result<Vec<String>, NoMemory>
    ensures { IfOk result (λ words. map string_bytes words.items ≡ node_words host) }
{
    let mut words = Vec::with_capacity(alloc, 3)?;
    words.push(String::from_str(alloc, "node")?)?;
    words.push(format!(in alloc; "{host}")?)?;
    words.push(String::from_str(alloc, NODE_RECEIVES)?)?;
    Ok(words)
}

/// Waits for each child, in the order of their hosts, also behind a wait that fails. Where all waits succeed, the answer is the lowest host whose node ended
/// with another status than 0.
pub(crate) fn await_nodes<P: Spawner>(
    children: &[Child],
    spawner: &mut P,
) -> Result<(), ClusterStop>
    requires { length children.now < 2 ^ 8 }
    ensures awaited { AwaitsNodes children.now result (P.seen spawner.old).waits (P.seen spawner.new).waits }
    ensures some { AwaitsSome children.now (P.seen spawner.old).waits (P.seen spawner.new).waits }
    ensures few { P.waits_without_memory → AwaitsBut children.now (P.seen spawner.old).faults (P.seen spawner.new).faults (P.seen spawner.old).waits (P.seen spawner.new).waits }
    ensures starts { (P.seen spawner.new).starts ≡ (P.seen spawner.old).starts }
    ensures bad_ends { EndsAs result (P.seen spawner.old).bad_ends (P.seen spawner.new).bad_ends }
    ensures well { P.all_end_well spawner.old → EndsWell result }
    ensures faults { TellsFaults (P.never_fails spawner.old) (P.never_fails spawner.new) (P.seen spawner.old).faults (P.seen spawner.new).faults (IsErrOf result ClusterStop.SpawnFault) }
{
    let mut ended = Ok(());
    let mut host = 0;
    for child in children {
        ended = after_wait(host, spawner.wait(*child), ended);
        host += 1;
    }
    ended
}

/// How the nodes of a host and of all lower ones ended, by how those of the lower ones did.
fn after_wait(
    host: Host,
    waited: Result<u8, Failed>,
    before: Result<(), ClusterStop>,
) -> Result<(), ClusterStop>
    ensures { result ≡ after_wait host waited before }
{
    match (waited, before) {
        (Ok(0), before) => before,
        (Ok(status), Ok(())) => Err(ClusterStop::ChildEnded { host, status }),
        (Err(cause), Ok(()) | Err(ClusterStop::ChildEnded { .. })) => Err(spawn_stop(cause)),
        (_, before) => before,
    }
}
