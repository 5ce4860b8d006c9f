//! What a log answers of a host's history.

ghost use Rattle.mb_log.specs.Histories.{LogsAnswer};

/// A log that stands for what a host stamped, the floor of its log and the most that it ever held answers as the searches in the host's history
/// do: how much room there is, what a VIEW_CHANGE shows, and what a LOG gives. This holds of every service.
pub fn logs_answer_for_histories<S>()
    ensures { LogsAnswer S }
{}
