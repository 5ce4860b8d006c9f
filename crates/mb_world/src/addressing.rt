//! Who a REPLY is to.

use crate::world::World;
use mb_base::Client;
use mb_members::client_of_reply;
use mb_service::Service;

impl<V: Service + Drop> World<V> {
    ghost use Rattle.std.specs.Prelude.{◌≡◌, option_and_then};
    ghost use Rattle.mb_world_model.specs.World.{World as WorldState, System, message_at};
    ghost use Rattle.mb_members.specs.Replies.{addressee};
    ghost use Rattle.mb_world.specs.Tables.{RepresentsWorld};

    /// The client of a message, exactly where that was made and is a REPLY. It takes no memory.
    pub fn reply_to(&self, number: u64) -> Option<Client>
        ensures { (y : System V) (x : WorldState) → RepresentsWorld y self.now x → result ≡ option_and_then addressee (message_at y.schedule x number) }
    {
        let bytes = self.message(number)?;
        client_of_reply(&self.shape, bytes.as_slice())
    }
}
