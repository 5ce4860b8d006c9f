//! The tag of a reply, checked without memory.

ghost use Rattle.std.specs.Prelude.{◌≡◌, ◌++◌};
ghost use Rattle.std.specs.Int.{w8};
ghost use Rattle.mb_base.specs.Spelling.{number};
ghost use Rattle.mb_parts.specs.Fits.{FitsText};
ghost use Rattle.mb_usig.specs.Tags.{reply_text, signed_reply, same_bytes};

use crate::text::Text;
use mb_msg::{Reply, TEXT_LIMIT};
use mb_usig::Pen;

/// The host and all fields of a reply before its result, in bytes.
const HEAD_LEN: usize = 1 + 1 + 8 + 8 + 2;

/// What the tag of the longest reply covers behind its letter, in bytes.
pub(crate) const LONGEST: usize = HEAD_LEN + TEXT_LIMIT as usize;

/// What the tag of a reply covers behind its letter: the host, and all fields but the tag. The result has at most 1,024 bytes.
#[tactic(auto, unfolding(mb_base::specs::Spelling::number))]
fn signed_text(reply: &Reply) -> Text
    requires { FitsText reply.now.result }
    ensures { result ≡ number w8 reply.now.host ++ reply_text reply.now.client reply.now.seq reply.now.pos reply.now.result }
{
    let mut text = Text::new();
    text.push_u8(reply.host);
    text.push_u8(reply.client);
    text.push_u64(reply.seq);
    text.push_u64(reply.pos);
    text.push_u16(reply.result.len() as u16);
    text.push(reply.result.as_slice());
    text
}

/// Whether a reply has the tag of its host for the client whose pen this is. The result has at most 1,024 bytes.
pub(crate) fn has_host_tag(pen: &Pen, reply: &Reply) -> bool
    requires { FitsText reply.now.result }
    ensures { result ≡ same_bytes reply.now.tag (signed_reply pen.now.secret reply.now.host pen.now.client (reply_text reply.now.client reply.now.seq reply.now.pos reply.now.result)) }
{
    pen.verify_reply(signed_text(reply).as_slice(), &reply.tag)
}
