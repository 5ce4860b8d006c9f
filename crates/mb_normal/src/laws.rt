//! What the tables answer of a host's history.

ghost use Rattle.mb_normal.specs.Histories.{NormalAnswers};
ghost use Rattle.mb_normal.specs.Rules.{RulesAreLent};

/// Tables that represent the searches in a host's history answer as the history does: which rule of the normal case is the first that is
/// enabled, which requests the primary orders, which certificate the host learns, and with which one it cuts its log. This holds of every
/// service.
pub fn tables_answer_for_histories<S>()
    ensures { NormalAnswers S }
{}

/// What a rule carries is found in the tables again: the slot and the batch of its position, or the batch that is ordered next.
pub fn rules_are_lent()
    ensures { RulesAreLent }
{}
