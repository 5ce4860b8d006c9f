//! Tags of requests.

ghost use Rattle.std.specs.Prelude.{◌≡◌, IfOk};
ghost use Rattle.std.specs.List.{AllByRecursion, list_all};
ghost use Rattle.mb_parts.specs.Fits.{FitsRequest, FitsBatch};
ghost use Rattle.mb_model.specs.Verified.{is_rightly_tagged, are_rightly_tagged};

use mb_base::NoMemory;
use mb_msg::{Batch, Request, signed_request};
use mb_usig::Usig;
use std::alloc::Global;

/// Whether a request's tag is the one of its client.
pub fn is_tagged(alloc: Global, usig: &Usig, request: &Request) -> Result<bool, NoMemory>
    requires { FitsRequest usig.now.shape request.now }
    ensures { IfOk result (λ tagged. tagged ≡ is_rightly_tagged usig.now.secret request.now) }
{
    let signed = signed_request(alloc, request.client, request.seq, request.op.as_slice())?;
    Ok(usig.verify_request(request.client, signed.as_slice(), &request.tag))
}

/// Whether the tag of each of these requests is the one of its client.
pub fn are_tagged(alloc: Global, usig: &Usig, requests: &[Request]) -> Result<bool, NoMemory>
    requires { AllByRecursion (FitsRequest usig.now.shape) requests.now }
    ensures { IfOk result (λ tagged. tagged ≡ list_all (is_rightly_tagged usig.now.secret) requests.now) }
{
    for request in requests {
        if !is_tagged(alloc, usig, request)? {
            return Ok(false);
        }
    }
    Ok(true)
}

/// Whether the requests of a batch are rightly tagged.
pub(crate) fn is_batch_tagged(alloc: Global, usig: &Usig, batch: &Batch) -> Result<bool, NoMemory>
    requires { FitsBatch usig.now.shape batch.now }
    ensures { IfOk result (λ tagged. tagged ≡ are_rightly_tagged usig.now.secret batch.now) }
{
    are_tagged(alloc, usig, batch.requests.as_slice())
}

/// Whether the requests of each batch are.
pub(crate) fn are_batches_tagged(
    alloc: Global,
    usig: &Usig,
    batches: &[Batch],
) -> Result<bool, NoMemory>
    requires { AllByRecursion (FitsBatch usig.now.shape) batches.now }
    ensures { IfOk result (λ tagged. tagged ≡ list_all (are_rightly_tagged usig.now.secret) batches.now) }
{
    for batch in batches {
        if !is_batch_tagged(alloc, usig, batch)? {
            return Ok(false);
        }
    }
    Ok(true)
}
