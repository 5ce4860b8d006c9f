//! The two sorts of stamped messages, for which a log has room apart.

ghost use Rattle.std.specs.Prelude.{◌≡◌};
ghost use Rattle.mb_model.specs.OwnLog.{is_normal};
ghost use Rattle.mb_log.specs.Logs.{is_normal_kind};

use mb_msg::Stamped;

/// The first byte of a PREPARE.
const PREPARE: u8 = 2;

/// The first byte of a COMMIT.
const COMMIT: u8 = 3;

/// The first byte of a CHECKPOINT.
const CHECKPOINT: u8 = 5;

/// PREPARE, COMMIT or CHECKPOINT, by its first byte.
pub(crate) fn is_normal_kind(kind: u8) -> bool
    ensures { result ≡ is_normal_kind kind }
{
    kind == PREPARE || kind == COMMIT || kind == CHECKPOINT
}

/// PREPARE, COMMIT or CHECKPOINT.
pub(crate) fn is_normal(message: &Stamped) -> bool
    ensures { result ≡ is_normal message.now }
{
    match message {
        Stamped::Prepare(_) | Stamped::Commit(_) | Stamped::Checkpoint(_) => true,
        Stamped::ViewChange(_)
        | Stamped::NewView(_)
        | Stamped::Enter(_)
        | Stamped::Open(_)
        | Stamped::Join(_) => false,
    }
}
