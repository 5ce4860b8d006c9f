//! The logs that VIEW_CHANGEs show, by rising host.

ghost use Rattle.std.specs.Prelude.{◌≡◌, ◌++◌, List, [], ◌∷◌, map, option_map, IfOk, OnOk};
ghost use Rattle.mb_model.specs.UsableLogs.{newest_first};
ghost use Rattle.std.specs.List.{cons_option};
ghost use Rattle.mb_model.specs.Plans.{ShownLog as TheLog, log_of, by_host, opened_view, same_view, greater, highest_view, of_view};
ghost use Rattle.mb_model.specs.Held.{logs_of};
ghost use Rattle.mb_plan.specs.Lent.{shown};

use crate::last_openings::{opened_in, view_at_floor};
use mb_base::{Host, NoMemory, Shape, View};
use mb_msg::{Body, ChangeBody, ViewChange};
use std::alloc::Global;

/// A log that is shown, and whose it is.
#[derive(Clone, Copy)]
pub(crate) struct ShownLog<'a> {
    pub(crate) host: Host,
    pub(crate) body: &'a ChangeBody,
}

/// The log that a VIEW_CHANGE shows, where it is whole and this host's.
fn log_in(change: &ViewChange, host: Host) -> Option<ShownLog<'_>>
    ensures { option_map shown result ≡ log_of (logs_of (change.now ∷ [])) host }
{
    let Body::Whole(body) = &change.body else {
        return None;
    };
    if change.ui.host != host {
        return None;
    }
    Some(ShownLog {
        host: change.ui.host,
        body: body.as_part(),
    })
}

/// The log that is a host's, where there is one.
fn log_of(changes: &[ViewChange], host: Host) -> Option<ShownLog<'_>>
    ensures { option_map shown result ≡ log_of (logs_of changes.now) host }
{
    for change in changes {
        if let Some(log) = log_in(change, host) {
            return Some(log);
        }
    }
    None
}

/// One more log at the end, where there is one.
#[tactic(auto, using(crate::proofs::HostLogs::pushed))]
fn push_found<'a>(logs: &mut Vec<ShownLog<'a>>, found: Option<ShownLog<'a>>) -> Result<(), NoMemory>
    ensures { OnOk result ((more : List TheLog) → map shown logs.new.items ++ more ≡ map shown logs.old.items ++ cons_option (option_map shown found.entry) more) }
{
    match found {
        None => Ok(()),
        Some(log) => Ok(logs.push(log)?),
    }
}

/// The logs by rising host.
#[tactic(auto, using(crate::proofs::HostLogs::hosts_all))]
pub(crate) fn by_host<'a>(
    alloc: Global,
    shape: &Shape,
    changes: &'a [ViewChange],
) -> Result<Vec<ShownLog<'a>>, NoMemory>
    ensures { IfOk result (λ logs. map shown logs.items ≡ by_host shape.now (logs_of changes.now)) }
{
    let mut logs = Vec::new(alloc);
    for host in 0..shape.n() {
        push_found(&mut logs, log_of(changes, host))?;
    }
    Ok(logs)
}

/// The view that a log opened last.
fn opened_view(log: &ShownLog<'_>) -> Option<View>
    ensures { result ≡ opened_view (shown log.now) }
{
    let floor = view_at_floor(log.host, &log.body.floor);
    opened_in(log.body.entries.as_slice(), floor)
}

/// The greater of two views, where there are views.
fn greater(first: Option<View>, second: Option<View>) -> Option<View>
    ensures { result ≡ greater first second }
{
    match (first, second) {
        (Some(a), Some(b)) => Some(a.max(b)),
        (Some(a), None) => Some(a),
        (None, b) => b,
    }
}

/// The highest opened view.
pub(crate) fn highest_view(logs: &[ShownLog<'_>]) -> Option<View>
    ensures { result ≡ highest_view (map shown logs.now) }
{
    let mut highest = None;
    for log in logs {
        highest = greater(highest, opened_view(log));
    }
    highest
}

/// Whether both are views, and the same.
fn is_same(first: Option<View>, second: Option<View>) -> bool
    ensures { result ≡ same_view first second }
{
    match (first, second) {
        (Some(a), Some(b)) => a == b,
        _ => false,
    }
}

/// A log, where a view is the opened one.
fn if_of_view<'a>(view: Option<View>, log: ShownLog<'a>) -> Option<ShownLog<'a>>
    ensures { (more : List TheLog) → cons_option (option_map shown result) (of_view view more) ≡ of_view view (shown log.entry ∷ more) }
{
    if is_same(opened_view(&log), view) {
        Some(log)
    } else {
        None
    }
}

/// The logs of which a view is the opened one.
pub(crate) fn of_view<'a>(
    alloc: Global,
    view: Option<View>,
    logs: &[ShownLog<'a>],
) -> Result<Vec<ShownLog<'a>>, NoMemory>
    ensures { IfOk result (λ found. map shown found.items ≡ of_view view (map shown logs.now)) }
{
    let mut found = Vec::new(alloc);
    for log in logs {
        push_found(&mut found, if_of_view(view, *log))?;
    }
    Ok(found)
}
