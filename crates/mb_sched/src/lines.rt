//! The lines of a text, each of which has a LF behind it.

ghost use Rattle.std.specs.Prelude.{◌≡◌, ◌<◌, ◌≤◌, ◌==◌, [], drop, length, slice_get, OnSome, IfNone};
ghost use Rattle.std.specs.Option.{option_copied};
ghost use Rattle.mb_sched.specs.Lines.{lines, is_ended};

use crate::words::cut;

/// The lines that are left of a text.
#[derive(Clone, Copy)]
pub(crate) struct Lines<'a> {
    pub(crate) rest: &'a [u8],
}

impl<'a> Lines<'a> {
    pub(crate) fn over(text: &'a [u8]) -> Lines<'a>
        ensures { result.rest.now ≡ text.now }
    {
        Lines { rest: text }
    }

    /// The next line, without the LF behind it.
    pub(crate) fn next_line(&mut self) -> Option<&'a [u8]>
        ensures line { option_copied result ≡ slice_get (lines self.old.rest.now) 0 }
        ensures left { lines self.new.rest.now ≡ drop 1 (lines self.old.rest.now) }
        ensures ended { is_ended self.new.rest.now ≡ is_ended self.old.rest.now }
        ensures shorter { OnSome result (length self.new.rest.now < length self.old.rest.now) }
        ensures last { IfNone result ((lines self.old.rest.now ≡ [])
            × (is_ended self.old.rest.now ≡ (length self.new.rest.now == 0))) }
        ensures same { IfNone result (self.new ≡ self.old) }
        ensures no_longer { length self.new.rest.now ≤ length self.old.rest.now }
    {
        let (line, behind) = cut(self.rest, b'\n');
        match behind {
            Some(rest) => {
                self.rest = rest;
                Some(line)
            }
            None => None,
        }
    }

    /// Whether nothing is left.
    pub(crate) fn is_empty(&self) -> bool
        ensures { result ≡ (length self.now.rest.now == 0) }
    {
        self.rest.is_empty()
    }
}
