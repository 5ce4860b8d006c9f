//! A NEW_VIEW with the digest of its body.

use mb_base::Digest;
use mb_msg::NewView;
use std::marker::Model;

/// A NEW_VIEW that is held. Its body was hashed before, as it was taken or stamped.
#[derive(Drop)]
pub(crate) struct HeldNewView {
    message: NewView,
    body: Digest,
}

impl Model for HeldNewView {
    ghost use Rattle.mb_msg.specs.declared.change.NewView.{NewView};

    ghost Value = { NewView };

    ghost use Rattle.mb_change.specs.Inside.{new_view_seen, IsNewView};

    ghost view = { new_view_seen };

    ghost invariant = { IsNewView };
}

impl HeldNewView {
    ghost use Rattle.std.specs.Prelude.{◌≡◌};
    ghost use Rattle.mb_msg.specs.Bodies.{body_digest};
    ghost use Rattle.mb_msg.specs.Spelling.{new_view_body_bytes};

    /// `body` is the digest of its body.
    pub(crate) fn of(message: NewView, body: Digest) -> HeldNewView
        requires { body ≡ body_digest new_view_body_bytes message.body }
        ensures { result ≡ message }
    {
        HeldNewView { message, body }
    }

    pub(crate) fn message(&self) -> &NewView
        ensures { result.now ≡ self.now }
    {
        &self.message
    }

    /// The digest of its body.
    pub(crate) fn body(&self) -> Digest
        ensures { result ≡ body_digest new_view_body_bytes self.now.body }
    {
        self.body
    }
}
