//! The host of a node with a journal, in a world. It holds no code.

ghost use Rattle.mb_top.specs.Reruns.{HostsAreOne, NodesAreInWorlds};

/// A host of a config is the host of its number in each schedule with the config's shape and secret. Where its node was stopped and started again from its
/// journal, and the events of the last run came to that host in the schedule, all runs together are those of one correct host of the schedule's world, of
/// whose messages some may be lost. So what is promised of the world is promised of it.
pub fn nodes_are_hosts_of_worlds()
    ensures one { HostsAreOne }
    ensures worlds { NodesAreInWorlds }
{}
