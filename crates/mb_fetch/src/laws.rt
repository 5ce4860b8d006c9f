//! What fetched parts and kept snapshots answer for a host's history.

ghost use Rattle.mb_fetch.specs.Histories.{TablesAnswer};

/// Fetched parts that stand for those of a host's history answer as its searches do: which part is missing, what all parts are, and whether and
/// for what a STATE is refused. Where snapshots stand for those of a history, that of the next position of the window can be kept. This holds of
/// every service.
pub fn tables_answer_for_histories<S>()
    ensures { TablesAnswer S }
{}
