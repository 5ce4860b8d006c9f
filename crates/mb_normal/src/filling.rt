//! A batch that is being filled, request by request.

ghost use Rattle.std.specs.Prelude.{◌≤◌, length};
ghost use Rattle.mb_base.specs.Limits.{batch_limit, batch_bytes_limit};

use mb_base::{Duplicate, Items, NoMemory};
use mb_msg::Request;
use mb_parts::{MAX_BATCH_BYTES, MAX_BATCH_REQUESTS};
use std::alloc::Global;

/// The requests of a batch, and how many bytes they have together.
#[derive(Drop)]
pub(crate) struct Filling {
    pub(crate) requests: Items<Request>,
    used: usize,
    ghost few: { length requests ≤ batch_limit },
    ghost short: { used ≤ batch_bytes_limit },
}

impl Filling {
    ghost use Rattle.std.specs.Prelude.{◌≡◌, ◌≤◌, ◌&&◌, [], nat_lt, length, option_copied, IfOk, IfSome};
    ghost use Rattle.mb_base.specs.Limits.{batch_limit};
    ghost use Rattle.mb_parts.specs.Spelling.{request_bytes};
    ghost use Rattle.mb_parts.specs.Fits.{FitsText};
    ghost use Rattle.mb_model.specs.Batches.{has_place};
    ghost use Rattle.mb_normal.specs.Filling.{Adds};

    /// No requests.
    pub(crate) fn new(alloc: Global) -> Filling
        ensures empty { result.requests ≡ [] }
        ensures unused { result.used ≡ 0 }
    {
        Filling {
            requests: Items::new(alloc),
            used: 0,
        }
    }

    /// Adds a request, where there is one. False where it has no place behind the others.
    pub(crate) fn add(&mut self, alloc: Global, request: Option<&Request>) -> Result<bool, NoMemory>
        requires { IfSome request (λ r. FitsText r.now.op) }
        ensures { IfOk result (Adds self.old (option_copied request.entry) self.new) }
    {
        let Some(request) = request else {
            return Ok(true);
        };
        if !self.has_place(request) {
            return Ok(false);
        }
        self.requests.push(request.duplicate(alloc)?)?;
        self.used += request.size();
        Ok(true)
    }

    /// Whether a request has place behind the others.
    fn has_place(&self, request: &Request) -> bool
        requires { FitsText request.now.op }
        ensures { result ≡ (nat_lt (length self.now.requests) batch_limit && has_place self.now.used request.now) }
    {
        let size = request.size();
        self.requests.len() < usize::from(MAX_BATCH_REQUESTS) && self.used + size <= MAX_BATCH_BYTES
    }
}
