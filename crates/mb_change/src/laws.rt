//! The table of a host, and the host's history.

ghost use Rattle.mb_change.specs.Histories.{TablesBegin, TablesFollow, TablesAnswer, RulesAgree};

/// A table that was just made stands for a history with no entry. This holds of every service, as the laws below do.
pub fn tables_begin<S>()
    ensures { TablesBegin S }
{}

/// Once the calls behind an entry of a history are done, a table stands for the history with this entry.
pub fn tables_follow<S>()
    ensures { TablesFollow S }
{}

/// A table that stands for a history answers as the searches in it do.
pub fn tables_answer<S>()
    ensures { TablesAnswer S }
{}

/// What is due of the searches in a host's history, where it stands, and with the room of its log, is the first of the host's rules of view
/// changes that is enabled.
pub fn rules_agree<S>()
    ensures { RulesAgree S }
{}
