//! A schedule among hosts that keep no keys yet.

ghost use Rattle.std.specs.Prelude.{◌≡◌, [], replicate, IfOk};
ghost use Rattle.mb_schedule.specs.Limits.{IsSchedule};
ghost use Rattle.mb_top.specs.Systems.{system_of};
ghost use Rattle.mb_story.specs.Stories.{IsStory};

use mb_base::NoMemory;
use mb_kv::Kv;
use mb_sched::Schedule;
use mb_story::{Story, play};
use std::alloc::{AllocError, Global};

/// An empty service for each host.
fn services(alloc: Global, hosts: u8) -> Result<Vec<Kv>, AllocError>
    ensures { IfOk result (λ v. v.items ≡ replicate hosts []) }
{
    let mut services = Vec::new(alloc);
    for _ in 0..hosts {
        services.push(Kv::new(alloc))?;
    }
    Ok(services)
}

/// The story of a schedule.
pub fn played(alloc: Global, schedule: &Schedule) -> Result<Story, NoMemory>
    requires { IsSchedule schedule.now }
    ensures { IfOk result (IsStory (system_of schedule.now)) }
{
    let services = services(alloc, schedule.shape.n())?;
    play(alloc, schedule, services)
}
