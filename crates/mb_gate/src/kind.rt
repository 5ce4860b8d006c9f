//! The kinds of messages that are stamped.

ghost use Rattle.std.specs.Prelude.{◌≡◌, IsTrue};
ghost use Rattle.mb_parts.specs.Bares.{Bare};
ghost use Rattle.mb_parts.specs.Rules.{rule_of};
ghost use Rattle.mb_gate.specs.Kinds.{kind_of};
ghost use Rattle.mb_gate.specs.Marks.{IsMarkOf, is_stamped_kind};

use mb_parts::Mark;

/// The kinds of messages that are stamped, in the order of their rules.
#[derive(Clone, Copy)]
pub(crate) enum Kind {
    ViewChange,
    NewView,
    Enter,
    Open,
    Join,
    Prepare,
    Commit,
    Checkpoint,
}

impl Kind {
    /// The kind of a marked message, which its first byte tells.
    pub(crate) fn of(mark: &Mark) -> Kind
        requires { IsTrue (is_stamped_kind mark.now.kind) }
        ensures { (m : Bare) → IsMarkOf mark.now m → result ≡ kind_of m }
    {
        match mark.kind {
            2 => Kind::Prepare,
            3 => Kind::Commit,
            5 => Kind::Checkpoint,
            7 => Kind::ViewChange,
            8 => Kind::NewView,
            9 => Kind::Enter,
            10 => Kind::Open,
            11 => Kind::Join,
            _ => unreachable!(),
        }
    }

    /// The number of the kind's rule.
    pub(crate) fn rule(self) -> u8
        ensures { (m : Bare) → self ≡ kind_of m → result ≡ rule_of m }
    {
        match self {
            Kind::ViewChange => 1,
            Kind::NewView => 2,
            Kind::Enter => 3,
            Kind::Open => 4,
            Kind::Join => 5,
            Kind::Prepare => 6,
            Kind::Commit => 7,
            Kind::Checkpoint => 8,
        }
    }
}
