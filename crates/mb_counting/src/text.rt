//! The report of a text.

ghost use Rattle.std.specs.Prelude.{IfOk, IfSome};
ghost use Rattle.mb_counting.specs.Counts.{IsReportOf};

use crate::hosts::counted;
use mb_base::Items;
use mb_sched::{BadText, parse_schedule};
use std::alloc::Global;

/// The report of the schedule of a text: the one list of what hosts executed that keep a count, and where all stand behind the last event. After each
/// event all is promised of these hosts that is promised of hosts with the key-value service.
pub fn report_of(alloc: Global, text: &[u8]) -> Result<Option<Items<u8>>, BadText>
    ensures { IfOk result (λ o. IfSome o (IsReportOf text.now)) }
{
    let schedule = parse_schedule(alloc, text)?;
    let report = counted(alloc, &schedule)?;
    Ok(report)
}
