//! That what is learnt of a record is the history, in each world of a schedule. It holds no code.
#![tactic(auto)]

ghost use Rattle.mb_learned.specs.Learned.{LearnersAgree};

/// Whatever is lost, repeated and reordered, and whatever at most f faulty hosts stamp: of byte strings that a correct host was given each batch that is
/// learnt is committed, what is learnt and what correct hosts executed are beginnings of one another, and no f+1 hosts say that their states have another
/// digest there. So it is after each event of a schedule, of whole hosts over any service that can be replicated, while nothing was forged and no two of
/// the strings hashed so far, and of the plans that the byte strings show, share a digest.
pub fn learners_agree<V>()
    ensures { LearnersAgree V }
{}
