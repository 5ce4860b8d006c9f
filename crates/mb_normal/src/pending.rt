//! Pending requests.

ghost use Rattle.std.specs.Prelude.{◌≡◌, replicate, None, IfOk};
ghost use Rattle.mb_normal.specs.Waiting.{AreShort};

use mb_base::{Client, NoMemory, Seq, Shape};
use mb_msg::Request;
use std::alloc::Global;

/// For each client its pending request: the search `pending` in a host's history.
#[derive(Drop)]
pub(crate) struct Pending {
    by_client: Vec<Option<Request>>,
    ghost short: { AreShort by_client.items },
}

impl Pending {
    ghost use Rattle.std.specs.Prelude.{◌≡◌, ◌<◌, ◌==◌, ℕ, Some, None, length, slice_get, option_copied, IfOk, IfSome, if◌then◌else◌};
    ghost use Rattle.mb_base.specs.Shapes.{client_count};
    ghost use Rattle.mb_parts.specs.Fits.{FitsText};
    ghost use Rattle.mb_model.specs.Execution.{if_above};
    ghost use Rattle.mb_normal.specs.Waiting.{request_of};

    /// Nothing is pending. All memory is taken here.
    pub(crate) fn make(alloc: Global, shape: Shape) -> Result<Pending, NoMemory>
        ensures length { IfOk result (λ t. length t.by_client.items ≡ client_count shape) }
        ensures nothing { (c : ℕ) → IfOk result (λ t. request_of t.by_client.items c ≡ None) }
    {
        Ok(Pending {
            by_client: no_requests(alloc, shape.clients())?,
        })
    }

    /// A request takes the place of its client's pending one. It takes no memory.
    pub(crate) fn pend(&mut self, request: Request)
        requires client { request.client < length self.old.by_client.items }
        requires short { FitsText request.op }
        ensures length { length self.new.by_client.items ≡ length self.old.by_client.items }
        ensures pending { (c : ℕ) → request_of self.new.by_client.items c ≡ (if request.client == c then Some request else request_of self.old.by_client.items c) }
    {
        let client = usize::from(request.client);
        self.by_client[client] = Some(request);
    }

    /// Drops a client's pending request where its number is at most this one. It takes no memory.
    pub(crate) fn settle(&mut self, client: Client, seq: Seq)
        requires { client < length self.old.by_client.items }
        ensures length { length self.new.by_client.items ≡ length self.old.by_client.items }
        ensures pending { (c : ℕ) → request_of self.new.by_client.items c ≡ (if client == c then if_above seq (request_of self.old.by_client.items c) else request_of self.old.by_client.items c) }
    {
        let is_settled = match self.get(client) {
            Some(request) => request.seq <= seq,
            None => false,
        };
        if is_settled {
            self.by_client[usize::from(client)] = None;
        }
    }

    /// A client's pending request.
    pub(crate) fn get(&self, client: Client) -> Option<&Request>
        requires { client < length self.now.by_client.items }
        ensures found { option_copied result ≡ request_of self.now.by_client.items client }
        ensures short { IfSome result (λ r. FitsText r.now.op) }
    {
        self.by_client[usize::from(client)].as_ref()
    }
}

fn no_requests(alloc: Global, clients: u8) -> Result<Vec<Option<Request>>, NoMemory>
    ensures { IfOk result (λ v. v.items ≡ replicate clients None) }
{
    let mut all = Vec::with_capacity(alloc, usize::from(clients))?;
    for _ in 0..clients {
        all.push(None)?;
    }
    Ok(all)
}
