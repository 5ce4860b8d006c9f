//! What definitions of a host and of the world mean, in words that do not use them: what a LOG gives and how long a log is, what each outcome tells, what an
//! event adds to the world, that what is taken was valid, what a primary orders and how far ahead, all that a step sends, what a JOIN shows, what is done with room
//! in the log, and each limit as its number. It holds no code.
#![tactic(auto)]

ghost use Rattle.mb_pins.specs.Logs.{HostsKeepLogs};
ghost use Rattle.mb_pins.specs.TellsWhy.{HostsTellWhy};
ghost use Rattle.mb_pins.specs.WorldAdds.{EventsAddNoMore};
ghost use Rattle.mb_pins.specs.OnlyValid.{HostsTakeOnlyValid};
ghost use Rattle.mb_pins.specs.Batches.{HostsOrderInTurn};
ghost use Rattle.mb_pins.specs.Sent.{HostsSendNoMore};
ghost use Rattle.mb_pins.specs.Joins.{HostsShowInJoins};
ghost use Rattle.mb_pins.specs.Limits.{LimitsAreThese};
ghost use Rattle.mb_pins.specs.Rooms.{HostsActWithRoom};
ghost use Rattle.mb_pins.specs.Ahead.{HostsOrderFourAhead};

/// A LOG has as many messages as go into one, at most 64 and 800,000 bytes; the own log has at most six intervals of PREPAREs, COMMITs and CHECKPOINTs and
/// 768 others; and the longest log that a report tells is the longest that there was. So it is of each host after any events.
pub fn hosts_keep_logs_full<V>()
    ensures { HostsKeepLogs V }
{}

/// What is taken stands in the history from then on, with each entry of a LOG that was not passed over; and what is passed over has no news for the host.
/// The numbers of each other outcome are those of the message and of what the host held as it came: the counter at which a gate was closed, the next one that is
/// expected, the kind, the view, the stable position, the fault, the last number, the part. So it is of each host after any events.
pub fn outcomes_tell_why<V>()
    ensures { HostsTellWhy V }
{}

/// What was asked, delivered, tagged, stamped by faulty hosts and hashed grows by what an event brings or makes, and by nothing else; so does the one list.
/// So it is of each event in each world.
pub fn events_add_no_more<V>()
    ensures { EventsAddNoMore V }
{}

/// Each message that a host took was valid behind what stood before it, by itself or as the entry of a LOG; a LOG that is not valid changes nothing; and what is
/// refused sends nothing but a stored reply. So it is of each host after any events.
pub fn hosts_take_only_valid<V>()
    ensures { HostsTakeOnlyValid V }
{}

/// A PREPARE holds fresh requests that wait, one of each client from the lowest on, with none left out, and as many as go into one batch. So it is of each
/// host after any events.
pub fn batches_are_in_turn<V>()
    ensures { HostsOrderInTurn V }
{}

/// What an event makes a host send is this, in this order, and nothing else: what answers the event; each message that the host stamps, to all, and the reply to each
/// fresh request that it serves; and one FETCH, where it lacks the stable state behind a Nudge or a STATE, or since the stable position rose. So it is of each host after
/// any events.
pub fn hosts_send_nothing_more<V>()
    ensures { HostsSendNoMore V }
{}

/// A JOIN shows no evidence in view 0, and above it valid evidence of its view, which its host held, and which ends at or below the stable position. Its stable
/// certificate is valid. So it is of each host after any events.
pub fn joins_show_evidence<V>()
    ensures { HostsShowInJoins V }
{}

/// Each limit that definitions cite by its name is this number, so a limit that is changed at its one place alone makes this false.
pub fn limits_are_these()
    ensures { LimitsAreThese }
{}

/// Below six intervals of PREPAREs, COMMITs and CHECKPOINTs, or 768 other messages, the own log has room: a backup commits its next position, and each host leaves
/// its view with cause and enters one that is announced. So it is of each host after any events.
pub fn hosts_act_with_room<V>()
    ensures { HostsActWithRoom V }
{}

/// A primary stamps no PREPARE for a position more than four above the last one that it executed; and while its last ordered position is less than four above, with
/// room and the next position in the window, no client's request waits that is in no slot. So it is of each host after any events.
pub fn hosts_order_four_ahead<V>()
    ensures { HostsOrderFourAhead V }
{}
