//! That executions and installed states are justified by what each host was given, that logs and votes keep their limits, and that the correct are
//! never blamed, in each world of a schedule. It holds no code.
#![tactic(auto)]

ghost use Rattle.mb_justified.specs.Worlds.{WorldsAreJustified};

/// Whatever is lost, repeated and reordered, and whatever at most f faulty hosts stamp: each execution of a correct host rests on the votes of f+1
/// hosts that it was given, and each state that it installed on the CHECKPOINTs of f+1 hosts; its log keeps its limits, and it votes at most two
/// intervals above its stable position; all that it stamped stands in order, no correct host's gate for it is closed, and each of its
/// VIEW_CHANGEs is usable. So it is after each event of a schedule, of whole hosts over any service, while nothing was forged and no two of the
/// strings hashed so far share a digest.
pub fn justified_in_worlds<V>()
    ensures { WorldsAreJustified V }
{}
