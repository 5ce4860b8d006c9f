//! A host that keeps its events in a journal and is stopped at any moment, again and again, is one host. It holds no code.
//!
//! A run opens the file that the run before it left, takes the steps of its events again without sending, and goes on; what it sends is of
//! acknowledged events, and the file that it leaves says these, or these and the one that was being appended. `mb_journal` and `mb_node` promise this of
//! each call (`specs/Servings`). Here: what follows for all runs together (`specs/Runs`, `Restarts`), and why a record is not written otherwise
//! (`specs/Orders`).
#![tactic(auto)]

ghost use Rattle.mb_restart.specs.Restarts.{RestingFilesAreLeft, LeftFilesOpen, JournalsKeep, HostsGoOn, NoCounterTwice, HostsAreInWorlds, RunsAreMet};
ghost use Rattle.mb_restart.specs.Servings.{ServingsAreRuns};
ghost use Rattle.mb_restart.specs.Orders.{OneWriteLoses, NoSyncLoses, NoSecondSyncLoses};

use mb_service::Service;

/// Whatever a crash leaves of a disk at rest, as a journal is once it is made, opened or appended to, says the events there.
pub fn resting_files_are_left()
    ensures { RestingFilesAreLeft }
{}

/// Whatever file a run left, and whatever crashes made of it while it was opened: it says the acknowledged events in their order, and behind them none but
/// the one whose append had begun. So opening it never finds that it is no journal of this host.
pub fn left_files_open()
    ensures { LeftFilesOpen }
{}

/// Each run takes the steps of all events that were acknowledged before it, in their order, and of no other but the one whose append had begun when the run
/// before it ended.
pub fn journals_keep_what_was_acknowledged<V>()
    ensures { JournalsKeep V }
{}

/// All that was sent in all runs is what one host sends that never stopped and to which the events of the last run came; and what each run stamped is what
/// that host stamped first.
pub fn hosts_go_on_as_one<V>()
    ensures { HostsGoOn V }
{}

/// No two runs stamped different messages at one counter.
pub fn no_counter_is_given_twice<V>()
    ensures { NoCounterTwice V }
{}

/// Where these events come to a correct host of a schedule, its history in the world is the one that the last run stands for, and whatever any run sent is
/// among the messages of the world. So whatever is promised of the world is promised of a host that was stopped and started again, of whose messages some
/// may be lost.
pub fn hosts_are_those_of_a_world<V>()
    ensures { HostsAreInWorlds V }
{}

/// There are such runs with a crash between them, which lost the event whose append had begun, and whose events came to a host in a world.
pub fn runs_are_met<V>()
    ensures { RunsAreMet V }
{}

/// Whatever `serve_kept` of `mb_node` answers from a host that stands behind the events of its journal, it was a run behind these with the events that
/// came: whatever a crash then leaves of the file, or at a moment before, is what a run leaves, and the datagrams that were sent are a first part of those
/// of its messages.
pub fn servings_are_runs<V: Service>()
    ensures { ServingsAreRuns V.machine }
{}

/// A gate that is written with its record, or before the record was synced, may be left alone by a crash; and one that is not synced may be lost. So of no
/// journal at all an append that writes in such an order keeps what is promised of it.
pub fn other_orders_lose_events()
    ensures one_write { OneWriteLoses }
    ensures no_sync { NoSyncLoses }
    ensures no_second_sync { NoSecondSyncLoses }
{}
