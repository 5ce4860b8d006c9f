//! The promise about all hosts, whole: they stay one, whoever is faulty. It holds no code.
#![tactic(auto)]

ghost use Rattle.mb_promise.specs.Headline.{HostsStayOne};
ghost use Rattle.mb_promise.specs.AllDue.{HostsLeaveNothing};
ghost use Rattle.mb_theorem.specs.Worlds.{EventsAreSteps, VotesExecuteAtOnce, NoEventIsBlame};

/// After any events no correct host has left anything undone that is due, whoever else is faulty and whatever is forged: it has ordered, committed,
/// executed and changed views as far as it may; each valid message is taken, each vote that it takes or stamps counts, what else came is found until
/// something takes its place, nothing else is found, each gate stands behind the last message of its host, and the f+1st matching vote executes in its step.
/// It leaves its view with cause alone. With a CHECKPOINT that comes at or above the stable position it cuts its log at the floor of the greatest position on
/// which f+1 hosts agree, where its counter has reached that. It sends what it stamps and each fresh reply, and answers who asks; and what it stamps in a change
/// of the view, asks and answers says what it holds.
/// What an event brings is written first, nothing is added that did not come with it, and what is refused leaves all as it was.
/// So it is of whole hosts over any service.
pub fn hosts_leave_nothing<V>()
    ensures { HostsLeaveNothing V }
{}

/// Each event that may be next is a step of the correct host to which it comes, and of no other, whoever is faulty and whatever is forged. So it is
/// in each world of a schedule, over any service.
pub fn events_are_steps<V>()
    ensures { EventsAreSteps V }
{}

/// An event that brings a correct host the vote that completes f+1 has the position executed in its step, whoever is faulty and whatever is forged: a
/// COMMIT, a PREPARE, both in one message, or an OPEN. So it is in each world of a schedule, over any service.
pub fn votes_execute_at_once<V>()
    ensures { VotesExecuteAtOnce V }
{}

/// No event that brings a correct host what another correct one stamped is answered with blame, whatever at most f faulty hosts stamp. So it is
/// after each event of a schedule, of whole hosts over any service, while nothing was forged and no two of the strings hashed so far share a digest.
pub fn no_event_is_blame<V>()
    ensures { NoEventIsBlame V }
{}

/// For every service that can be replicated and every schedule with at most f faulty hosts and nothing forged, whatever is lost, repeated and
/// reordered: views agree; correct hosts execute beginnings of one list; accepted results are the service's there; each execution is justified
/// by what the host was given; nothing that is due is left undone, and the f+1st matching vote executes in its step; logs and votes keep their
/// limits; the correct are never blamed, and no event that brings what they stamped is answered with blame; each event is a step of the correct host to
/// which it comes, and of no other, and the one that brings the f+1st matching vote has its position executed. So it is
/// after each event, of whole hosts, while no two of the strings hashed so far share a digest.
pub fn hosts_stay_one<V>()
    ensures { HostsStayOne V }
{}
