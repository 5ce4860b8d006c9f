//! To whom an event comes.

ghost use Rattle.std.specs.Prelude.{◌≡◌};
ghost use Rattle.mb_story.specs.Arrivals.{host_named, host_of, client_named, client_of};

use mb_base::{Client, Host};
use mb_schedule::{Name, WorldEvent};

fn host_named(name: Name) -> Option<Host>
    ensures { result ≡ host_named name }
{
    match name {
        Name::Host(host) => Some(host),
        Name::Client(_) => None,
    }
}

/// The host to which an event comes.
pub(crate) fn host_of(event: &WorldEvent) -> Option<Host>
    ensures { result ≡ host_of event.now }
{
    match event {
        WorldEvent::Give { host, .. }
        | WorldEvent::Patience { host }
        | WorldEvent::Nudge { host } => Some(*host),
        WorldEvent::Raw { name, .. } => host_named(*name),
        _ => None,
    }
}

fn client_named(name: Name) -> Option<Client>
    ensures { result ≡ client_named name }
{
    match name {
        Name::Host(_) => None,
        Name::Client(client) => Some(client),
    }
}

/// The client to which an event comes, or who asks in it.
pub(crate) fn client_of(event: &WorldEvent) -> Option<Client>
    ensures { result ≡ client_of event.now }
{
    match event {
        WorldEvent::Ask { client, .. } | WorldEvent::Take { client, .. } => Some(*client),
        WorldEvent::Raw { name, .. } => client_named(*name),
        _ => None,
    }
}
