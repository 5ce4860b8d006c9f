//! That views agree, whoever is faulty: what is committed in one stays in each later one, in each world of a schedule. It holds no code.
#![tactic(auto)]

ghost use Rattle.mb_views.specs.Worlds.{WorldsAgree};

/// Whatever is lost, repeated and reordered, and whatever at most f faulty hosts stamp: two issued evidences of a view are of one NEW_VIEW, and
/// what is committed at a position of a view stays in each later view. So it is after each event of a schedule, of whole hosts over any service,
/// while nothing was forged and no two of the strings hashed so far share a digest.
pub fn views_agree_in_worlds<V>()
    ensures { WorldsAgree V }
{}
