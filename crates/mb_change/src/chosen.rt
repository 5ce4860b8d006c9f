//! The VIEW_CHANGEs that a primary chooses.

use crate::change::Change;
use mb_base::{Duplicate, Host, NoMemory, View};
use mb_msg::ViewChange;
use std::alloc::Global;

impl Change {
    ghost use Rattle.std.specs.Prelude.{◌≡◌, ◌<◌, take, length, nat_le, option_copied, IfOk};
    ghost use Rattle.std.specs.Option.{option_map};
    ghost use Rattle.mb_base.specs.Shapes.{host_count, quorum};
    ghost use Rattle.mb_change.specs.Evidences.{changes_to, change_of, by_rising_host, chosen};

    /// The first f+1 stored VIEW_CHANGEs of a view in order of arrival, sorted by host. None exactly where there are fewer. An error is want of
    /// memory.
    pub fn chosen(&self, alloc: Global, view: View) -> Result<Option<Vec<ViewChange>>, NoMemory>
        ensures { IfOk result (λ o. option_map (λ v. v.items) o ≡ chosen self.now.shape view self.now.changes) }
    {
        if !self.has_quorum(view) {
            return Ok(None);
        }
        Ok(Some(self.first_quorum(alloc, view)?))
    }

    fn first_quorum(&self, alloc: Global, view: View) -> Result<Vec<ViewChange>, NoMemory>
        ensures { IfOk result (λ v. v.items ≡ by_rising_host self.now.shape (take (quorum self.now.shape) (changes_to view self.now.changes))) }
    {
        let mut chosen = Vec::new(alloc);
        for host in 0..self.shape.n() {
            if let Some(change) = self.among_first(host, view) {
                chosen.push(change.duplicate(alloc)?)?;
            }
        }
        Ok(chosen)
    }

    /// Whether f+1 VIEW_CHANGEs of a view are stored.
    pub(crate) fn has_quorum(&self, view: View) -> bool
        ensures { result ≡ nat_le (quorum self.now.shape) (length (changes_to view self.now.changes)) }
    {
        let mut count = 0;
        for change in self.changes.values() {
            if change.view == view {
                count += 1;
            }
        }
        count >= usize::from(self.shape.quorum())
    }

    /// A host's VIEW_CHANGE, where it is one of the first f+1 of a view in order of arrival.
    fn among_first(&self, host: Host, view: View) -> Option<&ViewChange>
        ensures { option_copied result ≡ change_of host (take (quorum self.now.shape) (changes_to view self.now.changes)) }
    {
        let mut left = self.shape.quorum();
        for change in self.changes.values() {
            if left > 0 && change.view == view {
                if change.ui.host == host {
                    return Some(change);
                }
                left -= 1;
            }
        }
        None
    }
}
