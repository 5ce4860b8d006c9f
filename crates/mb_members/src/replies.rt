//! Who a REPLY is to.

ghost use Rattle.std.specs.Prelude.{◌≡◌, option_and_then};
ghost use Rattle.mb_base.specs.Fields.{GivesIn, place_of};
ghost use Rattle.mb_base.specs.Reading.{map_at};
ghost use Rattle.mb_msg.specs.Reading.{message_of, reply_at};
ghost use Rattle.mb_model.specs.Inside.{if_read};
ghost use Rattle.mb_members.specs.Replies.{addressee, addressee_behind};

use mb_base::{BadField, Client, Fields, MESSAGE_LIMIT, Shape};
use mb_parts::{MAX_POS, TEXT_LIMIT};

/// The first byte of a message is 1 to 16. This is that of a REPLY.
const REPLY: u8 = 4;

/// The number of the client that these bytes are to, exactly where they are a REPLY of a system of this shape. It takes no memory.
pub fn client_of_reply(shape: &Shape, bytes: &[u8]) -> Option<Client>
    ensures { result ≡ option_and_then addressee (if_read (message_of shape.now bytes.now)) }
{
    if bytes.len() > MESSAGE_LIMIT {
        return None;
    }
    let mut fields = Fields::over(bytes);
    match fields.u8_in(1, 16) {
        Ok(kind) if kind == REPLY => client_behind(shape, &mut fields),
        _ => None,
    }
}

/// The client of a REPLY behind its kind, where no byte follows.
fn client_behind(shape: &Shape, fields: &mut Fields<'_>) -> Option<Client>
    ensures { result ≡ addressee_behind (reply_at shape.now (place_of fields.old)) }
{
    match read_reply(shape, fields) {
        Ok(client) if fields.is_at_end() => Some(client),
        _ => None,
    }
}

/// Reads a REPLY behind its kind, of which the client alone is told.
#[tactic(auto, unfolding(mb_msg::specs::Reading::reply_at))]
fn read_reply(shape: &Shape, fields: &mut Fields<'_>) -> Result<Client, BadField>
    ensures { GivesIn (λ x. x) result fields.new (map_at (λ r. r.client) (reply_at shape.now) (place_of fields.old)) }
{
    let _host = fields.u8_in(0, shape.n() - 1)?;
    let client = fields.u8_in(0, shape.clients() - 1)?;
    let _seq = fields.u64_in(1, u64::MAX)?;
    let _pos = fields.u64_in(0, MAX_POS)?;
    let _result = fields.text16(TEXT_LIMIT)?;
    let _tag = fields.digest()?;
    Ok(client)
}
