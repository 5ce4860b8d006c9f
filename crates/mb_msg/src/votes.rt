//! The bytes of PREPARE, COMMIT and REPLY.

ghost use Rattle.std.specs.Prelude.{◌≡◌, ◌↔◌, ◌++◌, IfOk, IsTrue, OnOk};
ghost use Rattle.std.specs.Int.{w64};
ghost use Rattle.mb_base.specs.Spelling.{number};
ghost use Rattle.mb_base.specs.Fields.{place_of};
ghost use Rattle.mb_parts.specs.Counted.{counted};
ghost use Rattle.mb_parts.specs.Decoded.{Decodes};
ghost use Rattle.mb_msg.specs.Fits.{FitsPrepare, FitsCommit, FitsReply};
ghost use Rattle.mb_msg.specs.Spelling.{prepare_bytes, commit_bytes, reply_bytes};
ghost use Rattle.mb_msg.specs.Reading.{prepare_at, commit_at, reply_at};

use crate::body::{read_body, read_form};
use crate::normal::{Commit, Prepare, Reply};
use mb_base::{Counter, Digest, Fields, NoMemory, Shape, Ui, put_bytes, put_u8, put_u64};
use mb_parts::{
    Part, Readable, Undecoded, count_bytes, count_text, count_u8, count_u64, is_counter, is_place,
    is_position, put_text, read_client, read_counter, read_digest, read_host, read_place,
    read_position, read_text, text_fits,
};
use std::alloc::Global;

impl Part for Prepare {
    ghost text = { prepare_bytes };

    ghost valid = { FitsPrepare };

    fn fits(&self, shape: &Shape) -> bool {
        is_place(self.view) && is_position(self.pos) && self.body.fits(shape) && self.ui.fits(shape)
    }

    #[tactic(auto, using(mb_parts::proofs::CountedBytes::counted_behind), unfolding(crate::specs::Spelling::prepare_bytes))]
    fn count(&self, shape: &Shape, so_far: usize) -> usize {
        let so_far = count_u8(so_far, self.body.form());
        let so_far = count_u64(so_far, self.view);
        let so_far = count_u64(so_far, self.pos);
        let so_far = self.body.count(shape, so_far);
        self.ui.count(shape, so_far)
    }

    #[tactic(auto, unfolding(crate::specs::Spelling::prepare_bytes))]
    fn put(&self, shape: &Shape, out: &mut Vec<u8>) -> Result<(), NoMemory> {
        put_u8(out, self.body.form())?;
        put_u64(out, self.view)?;
        put_u64(out, self.pos)?;
        self.body.put(shape, out)?;
        self.ui.put(shape, out)
    }
}

impl Readable for Prepare {
    ghost reads = { prepare_at };

    #[tactic(auto, unfolding(crate::specs::Reading::prepare_at))]
    fn read(alloc: Global, shape: &Shape, fields: &mut Fields<'_>) -> Result<Prepare, Undecoded> {
        let form = read_form(fields)?;
        let view = read_place(fields)?;
        let pos = read_position(fields)?;
        let body = read_body(alloc, shape, form, fields)?;
        let ui = Ui::read(alloc, shape, fields)?;
        Ok(Prepare {
            view,
            pos,
            body,
            ui,
        })
    }
}

/// Appends the counter and the certificate of the PREPARE that a COMMIT votes for.
fn put_named(out: &mut Vec<u8>, counter: Counter, cert: &Digest) -> Result<(), NoMemory>
    ensures { OnOk result (out.new.items ≡ out.old.items ++ (number w64 counter ++ cert.now)) }
{
    put_u64(out, counter)?;
    put_bytes(out, cert)
}

/// Counts the counter and the certificate of the PREPARE that a COMMIT votes for.
#[tactic(auto, using(mb_parts::proofs::CountedBytes::counted_behind))]
fn count_named(so_far: usize, counter: Counter, cert: &Digest) -> usize
    ensures { result ≡ counted so_far (number w64 counter ++ cert.now) }
{
    count_bytes(count_u64(so_far, counter), cert)
}

impl Part for Commit {
    ghost text = { commit_bytes };

    ghost valid = { FitsCommit };

    fn fits(&self, shape: &Shape) -> bool {
        is_place(self.view)
            && is_position(self.pos)
            && is_counter(self.counter)
            && self.body.fits(shape)
            && self.ui.fits(shape)
    }

    #[tactic(auto, using(mb_parts::proofs::CountedBytes::counted_behind), unfolding(crate::specs::Spelling::commit_bytes))]
    fn count(&self, shape: &Shape, so_far: usize) -> usize {
        let so_far = count_u8(so_far, self.body.form());
        let so_far = count_u64(so_far, self.view);
        let so_far = count_u64(so_far, self.pos);
        let so_far = count_named(so_far, self.counter, &self.cert);
        let so_far = self.body.count(shape, so_far);
        self.ui.count(shape, so_far)
    }

    #[tactic(auto, unfolding(crate::specs::Spelling::commit_bytes))]
    fn put(&self, shape: &Shape, out: &mut Vec<u8>) -> Result<(), NoMemory> {
        put_u8(out, self.body.form())?;
        put_u64(out, self.view)?;
        put_u64(out, self.pos)?;
        put_named(out, self.counter, &self.cert)?;
        self.body.put(shape, out)?;
        self.ui.put(shape, out)
    }
}

impl Readable for Commit {
    ghost reads = { commit_at };

    #[tactic(auto, unfolding(crate::specs::Reading::commit_at))]
    fn read(alloc: Global, shape: &Shape, fields: &mut Fields<'_>) -> Result<Commit, Undecoded> {
        let form = read_form(fields)?;
        let view = read_place(fields)?;
        let pos = read_position(fields)?;
        let counter = read_counter(fields)?;
        let cert = read_digest(fields)?;
        let body = read_body(alloc, shape, form, fields)?;
        let ui = Ui::read(alloc, shape, fields)?;
        Ok(Commit {
            view,
            pos,
            counter,
            cert,
            body,
            ui,
        })
    }
}

impl Part for Reply {
    ghost text = { reply_bytes };

    ghost valid = { FitsReply };

    fn fits(&self, shape: &Shape) -> bool {
        self.host < shape.n()
            && self.client < shape.clients()
            && is_counter(self.seq)
            && is_place(self.pos)
            && text_fits(&self.result)
    }

    #[tactic(auto, using(mb_parts::proofs::CountedBytes::counted_behind), unfolding(crate::specs::Spelling::reply_bytes))]
    fn count(&self, shape: &Shape, so_far: usize) -> usize {
        let so_far = count_u8(so_far, self.host);
        let so_far = count_u8(so_far, self.client);
        let so_far = count_u64(so_far, self.seq);
        let so_far = count_u64(so_far, self.pos);
        let so_far = count_text(so_far, &self.result);
        count_bytes(so_far, &self.tag)
    }

    #[tactic(auto, unfolding(crate::specs::Spelling::reply_bytes))]
    fn put(&self, shape: &Shape, out: &mut Vec<u8>) -> Result<(), NoMemory> {
        put_u8(out, self.host)?;
        put_u8(out, self.client)?;
        put_u64(out, self.seq)?;
        put_u64(out, self.pos)?;
        put_text(out, &self.result)?;
        put_bytes(out, &self.tag)
    }
}

impl Readable for Reply {
    ghost reads = { reply_at };

    #[tactic(auto, unfolding(crate::specs::Reading::reply_at))]
    fn read(alloc: Global, shape: &Shape, fields: &mut Fields<'_>) -> Result<Reply, Undecoded> {
        let host = read_host(shape, fields)?;
        let client = read_client(shape, fields)?;
        let seq = read_counter(fields)?;
        let pos = read_place(fields)?;
        let result = read_text(alloc, fields)?;
        let tag = read_digest(fields)?;
        Ok(Reply {
            host,
            client,
            seq,
            pos,
            result,
            tag,
        })
    }
}
