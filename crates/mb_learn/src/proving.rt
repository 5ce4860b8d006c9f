//! What is proved next.

use crate::heard::Heard;
use crate::votes::Cast;
use mb_msg::Batch;

impl Heard {
    ghost use Rattle.std.specs.Prelude.{◌≡◌, ◌+◌, false, IfSome, IfNone, IsTrue};
    ghost use Rattle.mb_parts.specs.declared.batch.Batch.{Batch as TheBatch};
    ghost use Rattle.mb_parts.specs.Fits.{FitsBatch};
    ghost use Rattle.mb_learn.specs.Held.{known_plans};
    ghost use Rattle.mb_learn.specs.Hearing.{IsReady, WhereHears};
    ghost use Rattle.mb_learn.specs.Next.{IsAgreed, IsNext, IsNextBy, HasNext};

    /// The batch of the next position, where one is proved there.
    pub(crate) fn proved(&self) -> Option<&Batch>
        requires { IsReady self.now }
        ensures some { WhereHears self.now (λ s secret claims said shown lists. IfSome result (λ b. IsNext s secret shown lists (self.now.votes.executed + 1) b.now)) }
        ensures none { WhereHears self.now (λ s secret claims said shown lists. IfNone result ((b : TheBatch) → IsNext s secret shown lists (self.now.votes.executed + 1) b → ⊥)) }
        ensures fits { IfSome result (λ b. FitsBatch self.now.shape b.now) }
        ensures next { IfSome result (λ b. HasNext self.now.votes) }
    {
        for cast in self.votes.at_next() {
            if let Some(batch) = self.proved_by(cast) {
                return Some(batch);
            }
        }
        None
    }

    /// The batch that a vote for the next position is for, where it is proved.
    fn proved_by(&self, cast: &Cast) -> Option<&Batch>
        requires { IsReady self.now }
        ensures some { WhereHears self.now (λ s secret claims said shown lists. IfSome result (λ b. IsNextBy s secret shown lists (self.now.votes.executed + 1) cast.now.view cast.now.vote b.now)) }
        ensures none { WhereHears self.now (λ s secret claims said shown lists. IfNone result ((b : TheBatch) → IsNextBy s secret shown lists (self.now.votes.executed + 1) cast.now.view cast.now.vote b → ⊥)) }
        ensures fits { IfSome result (λ b. FitsBatch self.now.shape b.now) }
    {
        if !self.is_agreed(cast) {
            return None;
        }
        self.batches.get(&cast.vote.request)
    }

    /// Whether f+1 hosts have this vote for the next position, and the primary ordered what it is for.
    fn is_agreed(&self, cast: &Cast) -> bool
        requires { IsReady self.now }
        ensures yes { WhereHears self.now (λ s secret claims said shown lists. IsTrue result → IsAgreed s (known_plans s secret shown) lists (self.now.votes.executed + 1) cast.now.view cast.now.vote) }
        ensures no { WhereHears self.now (λ s secret claims said shown lists. result ≡ false → IsAgreed s (known_plans s secret shown) lists (self.now.votes.executed + 1) cast.now.view cast.now.vote → ⊥) }
    {
        let leader = self.shape.primary(cast.view);
        if !self.followers[usize::from(leader)].leads(cast.view, cast.vote.counter) {
            return false;
        }
        self.votes.voters(&self.shape, cast.view, &cast.vote) >= self.shape.quorum()
    }
}
