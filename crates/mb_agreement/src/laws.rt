//! What is true of all that hosts stamped: theorems, each the contract of a function that does nothing.

ghost use Rattle.mb_agreement.specs.Agreement.{RecordsAgree};
ghost use Rattle.mb_agreement.specs.ViewChangeRecord.{HasViewChange};

/// What is committed in a view stays in each later one, whatever logs faulty hosts showed.
/// One position has one committed batch in all views.
pub fn views_agree()
    ensures { RecordsAgree }
{}

/// There is a consistent record in which something was committed and a view changed, so what is said of all of them is not said of none.
pub fn records_have_view_changes()
    ensures { HasViewChange }
{}
