//! A whole run.

ghost use Rattle.std.specs.Prelude.{◌≡◌, ◌≤◌, [], length, vec_capacity, IsErrOf};
ghost use Rattle.mb_base.specs.Shapes.{host_count};
ghost use Rattle.mb_edge.specs.Faults.{TellsFaults};
ghost use Rattle.mb_cluster.specs.Hearing.{no_hearing};
ghost use Rattle.mb_cluster.specs.Listens.{Listens};
ghost use Rattle.mb_cluster.specs.Nodes.{AreStarted, StartsNodes, RunsNodes, EndsAs, spawned_by};
ghost use Rattle.mb_cluster.specs.Ends.{EndsWell};
ghost use Rattle.mb_cluster.specs.Runs.{OpsFit, Asks, Opens, wire_of};
ghost use Rattle.mb_cluster.specs.Missing.{StopsStarted, AwaitsEach};
ghost use Rattle.mb_cluster.specs.Plays.{Plays};
ghost use Rattle.mb_cluster.specs.Order.{RunsInOrder, StartsInOrder};

use crate::asking::Program;
use crate::nodes::{await_nodes, start_nodes};
use crate::posting::PROGRAM;
use crate::stop::{ClusterStop, link_stop};
use crate::stopping::StopDatagram;
use mb_edge::{Child, Link, Sink, Spawner};
use mb_sched::Config;
use std::alloc::Global;

/// Runs a cluster. It opens the link at the config's port as peer 255, and starts the node of each host. Then it asks the config's operations as
/// client 0, one after the other: the request goes to every host, and again at each quiet. A result that f+1 hosts agree on is written as a line
/// `result SEQ POS HEX`. At the end, and where it stops, it sends STOP three times to every host, and waits for each node that it started, also behind a
/// send or a wait that fails. What that takes of memory is taken before the link is opened. The answer is that of the first stop.
///
/// `Budget` comes exactly where `turns` receives for an operation brought no result. `ChildEnded` comes exactly where nothing else stopped the
/// run and a node ended with a status other than 0, and names the lowest host of such. The faults come only where the device failed, and
/// `NoMemory` where memory ran out.
pub fn run_cluster<K: Sink, L: Link, P: Spawner>(
    alloc: Global,
    config: &Config,
    turns: u64,
    link: &mut L,
    spawner: &mut P,
    sink: &mut K,
) -> Result<(), ClusterStop>
    requires { OpsFit config.now.ops }
    // What is asked and heard, and the results that are written.
    ensures asks { Asks config.now turns result (wire_of (L.seen link.old)) (wire_of (L.seen link.new)) (K.seen sink.old).bytes (K.seen sink.new).bytes }
    ensures opens { Opens config.now result (L.seen link.old).opens (L.seen link.new).opens }
    // The nodes, and how they end.
    ensures nodes { RunsNodes config.now result (spawned_by (P.seen spawner.old)) (spawned_by (P.seen spawner.new)) }
    // No node is started before the link is open, and nothing asked before each node is started.
    ensures order { RunsInOrder config.now turns (L.seen link.old) (L.seen link.new) (K.seen sink.old) (K.seen sink.new) (P.seen spawner.old) (P.seen spawner.new) }
    ensures bad_ends { EndsAs result (P.seen spawner.old).bad_ends (P.seen spawner.new).bad_ends }
    ensures well { P.all_end_well spawner.old → EndsWell result }
    // Whatever the answer is: where any node was started no more STOPs are missing than the link failed, and no more waits for the nodes that were started
    // than the spawner failed, unless a send or a wait may be refused memory.
    ensures stops { L.sends_without_memory → StopsStarted config.now (P.seen spawner.old) (P.seen spawner.new) (L.seen link.old) (L.seen link.new) }
    ensures waits { P.waits_without_memory
        → AwaitsEach config.now (P.seen spawner.old).faults (P.seen spawner.new).faults (spawned_by (P.seen spawner.old)) (spawned_by (P.seen spawner.new)) }
    // Each device's faults.
    ensures link_faults { TellsFaults (L.never_fails link.old) (L.never_fails link.new) (L.seen link.old).faults (L.seen link.new).faults (IsErrOf result ClusterStop.LinkFault) }
    ensures spawner_faults { TellsFaults (P.never_fails spawner.old) (P.never_fails spawner.new) (P.seen spawner.old).faults (P.seen spawner.new).faults (IsErrOf result ClusterStop.SpawnFault) }
    ensures sink_faults { TellsFaults (K.never_fails sink.old) (K.never_fails sink.new) (K.seen sink.old).faults (K.seen sink.new).faults (IsErrOf result ClusterStop.SinkFault) }
{
    let mut program = Program::make(alloc, config.shape, &config.secret, turns)?;
    let mut stop = StopDatagram::make(alloc, &config.shape, &config.secret)?;
    let mut children = Vec::with_capacity(alloc, usize::from(config.shape.n()))?;
    let played = play(
        alloc,
        config,
        &mut program,
        &mut children,
        link,
        spawner,
        sink,
    );
    let stopped = stop.send(&mut program.post, link);
    let awaited = await_nodes(&children, spawner);
    played?;
    match stopped {
        Ok(()) => awaited,
        Err(cause) => Err(link_stop(cause)),
    }
}

/// The run up to its end, or to its first stop. The children of the nodes that were started are kept.
fn play<K: Sink, L: Link, P: Spawner>(
    alloc: Global,
    config: &Config,
    program: &mut Program,
    children: &mut Vec<Child>,
    link: &mut L,
    spawner: &mut P,
    sink: &mut K,
) -> Result<(), ClusterStop>
    requires ops { OpsFit config.now.ops }
    requires listens { Listens config.now.shape config.now.secret program.old.listener (no_hearing config.now.shape) }
    requires none { program.old.listener.asker.number ≡ 0 }
    requires childless { children.old.items ≡ [] }
    requires room { host_count config.now.shape ≤ vec_capacity children.old }
    ensures plays { Plays config.now result program.old program.new (wire_of (L.seen link.old)) (wire_of (L.seen link.new)) (K.seen sink.old).bytes (K.seen sink.new).bytes }
    ensures hosts { program.new.post.hosts ≡ program.old.post.hosts }
    ensures opens { Opens config.now result (L.seen link.old).opens (L.seen link.new).opens }
    ensures starts { StartsNodes config.now result children.new.items (P.seen spawner.old).starts (P.seen spawner.new).starts }
    ensures few { length children.new.items ≤ host_count config.now.shape }
    ensures first { AreStarted config.now (length children.new.items) children.new.items (P.seen spawner.old).starts (P.seen spawner.new).starts }
    ensures order { StartsInOrder config.now program.old program.new (L.seen link.old) (L.seen link.new) (K.seen sink.old) (K.seen sink.new) children.new.items (P.seen spawner.old) (P.seen spawner.new) }
    ensures waits { (P.seen spawner.new).waits ≡ (P.seen spawner.old).waits }
    ensures bad_ends { (P.seen spawner.new).bad_ends ≡ (P.seen spawner.old).bad_ends }
    ensures well { P.all_end_well spawner.old → P.all_end_well spawner.new }
    ensures link_faults { TellsFaults (L.never_fails link.old) (L.never_fails link.new) (L.seen link.old).faults (L.seen link.new).faults (IsErrOf result ClusterStop.LinkFault) }
    ensures spawner_faults { TellsFaults (P.never_fails spawner.old) (P.never_fails spawner.new) (P.seen spawner.old).faults (P.seen spawner.new).faults (IsErrOf result ClusterStop.SpawnFault) }
    ensures sink_faults { TellsFaults (K.never_fails sink.old) (K.never_fails sink.new) (K.seen sink.old).faults (K.seen sink.new).faults (IsErrOf result ClusterStop.SinkFault) }
{
    match link.open(config.port, PROGRAM) {
        Ok(()) => {}
        Err(cause) => return Err(link_stop(cause)),
    }
    start_nodes(alloc, config, children, spawner)?;
    program.ask_all(config.ops.as_slice(), link, sink)
}
