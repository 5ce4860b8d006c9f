//! A schedule among hosts that keep a count.

ghost use Rattle.std.specs.Prelude.{◌≡◌, length, IfOk};
ghost use Rattle.mb_schedule.specs.Limits.{IsSchedule};
ghost use Rattle.mb_members.specs.Hosts.{AreServices};
ghost use Rattle.mb_counting.specs.Counts.{text_of_end, IsAnswer};

use mb_base::{Items, NoMemory};
use mb_counter::Counter;
use mb_sched::{Schedule, print_report};
use mb_story::{End, play};
use std::alloc::{AllocError, Global};

/// A count of 0 for each host.
fn counters(alloc: Global, hosts: u8) -> Result<Vec<Counter>, AllocError>
    ensures alike { IfOk result (λ v. AreServices 0 v.items) }
    ensures count { IfOk result (λ v. length v.items ≡ hosts) }
{
    let mut services = Vec::new(alloc);
    for _ in 0..hosts {
        let counter = Counter::new();
        services.push(counter)?;
    }
    Ok(services)
}

/// The text of the report with which a story ends, if it ends with one.
fn text_of_end(alloc: Global, end: &End) -> Result<Option<Items<u8>>, NoMemory>
    ensures { IfOk result (λ text. text ≡ text_of_end end.now) }
{
    match end {
        End::Whole(report) => Ok(Some(Items::from_vec(print_report(alloc, report)?))),
        End::Stopped(_) => Ok(None),
    }
}

/// The report of a schedule among hosts that keep a count. There is none exactly where something stands in the way of an event.
pub fn counted(alloc: Global, schedule: &Schedule) -> Result<Option<Items<u8>>, NoMemory>
    requires { IsSchedule schedule.now }
    ensures { IfOk result (IsAnswer schedule.now) }
{
    let services = counters(alloc, schedule.shape.n())?;
    let story = play(alloc, schedule, services)?;
    let text = text_of_end(alloc, &story.end);
    drop(story);
    text
}
