//! What is true of quorums, logs and plans: theorems, each the contract of a function that does nothing.

ghost use Rattle.mb_model.specs.CarriedLogs.{LogsCarryOver};
ghost use Rattle.mb_model.specs.PlanOrder.{PlansIgnoreOrder};
ghost use Rattle.mb_model.specs.Quorums.{QuorumsMeet, QuorumsHaveCorrect};

/// Any two quorums share a host, and each has a correct one where at most f hosts are faulty.
pub fn quorums_meet()
    ensures meet { QuorumsMeet }
    ensures correct { QuorumsHaveCorrect }
{}

/// A log that is usable under one test of its claims is usable under another that they pass: as they verify, or as they were issued.
pub fn logs_carry_over()
    ensures { LogsCarryOver }
{}

/// A plan does not depend on the order of the logs that it follows from.
pub fn plans_ignore_order()
    ensures { PlansIgnoreOrder }
{}
