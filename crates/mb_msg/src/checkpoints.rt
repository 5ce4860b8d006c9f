//! The bytes of CHECKPOINT.

ghost use Rattle.std.specs.Prelude.{◌≡◌, ◌↔◌, ◌++◌, IfOk, IsTrue, OnOk};
ghost use Rattle.mb_base.specs.Fields.{place_of};
ghost use Rattle.mb_parts.specs.Decoded.{Decodes};
ghost use Rattle.mb_msg.specs.Fits.{FitsFloorsBody, FitsCheckpoint, FitsBareCheckpoint};
ghost use Rattle.mb_msg.specs.Spelling.{floors_body_bytes, checkpoint_bytes, bare_checkpoint_bytes};
ghost use Rattle.mb_msg.specs.Reading.{floors_body_at, checkpoint_at, bare_checkpoint_at};

use crate::body::{BARE_FORM, read_bare_form, read_body, read_form};
use crate::normal::{BareCheckpoint, Checkpoint, Floors};
use mb_base::{Fields, NoMemory, Shape, Ui, put_bytes, put_u8, put_u64};
use mb_parts::{
    Part, Readable, Undecoded, count_all, count_bytes, count_u8, count_u64, floors_fit,
    is_position, put_all, read_digest, read_floors, read_position,
};
use std::alloc::Global;

impl Part for Floors {
    ghost text = { floors_body_bytes };

    ghost valid = { FitsFloorsBody };

    fn fits(&self, shape: &Shape) -> bool {
        floors_fit(shape, &self.floors)
    }

    fn count(&self, shape: &Shape, so_far: usize) -> usize {
        count_all(shape, so_far, self.floors.as_slice())
    }

    fn put(&self, shape: &Shape, out: &mut Vec<u8>) -> Result<(), NoMemory> {
        put_all(shape, self.floors.as_slice(), out)
    }
}

impl Readable for Floors {
    ghost reads = { floors_body_at };

    #[tactic(auto, unfolding(crate::specs::Reading::floors_body_at))]
    fn read(alloc: Global, shape: &Shape, fields: &mut Fields<'_>) -> Result<Floors, Undecoded> {
        let floors = read_floors(alloc, shape, fields)?;
        Ok(Floors { floors })
    }
}

impl Part for Checkpoint {
    ghost text = { checkpoint_bytes };

    ghost valid = { FitsCheckpoint };

    fn fits(&self, shape: &Shape) -> bool {
        is_position(self.pos) && self.body.fits(shape) && self.ui.fits(shape)
    }

    #[tactic(auto, using(mb_parts::proofs::CountedBytes::counted_behind), unfolding(crate::specs::Spelling::checkpoint_bytes))]
    fn count(&self, shape: &Shape, so_far: usize) -> usize {
        let so_far = count_u8(so_far, self.body.form());
        let so_far = count_u64(so_far, self.pos);
        let so_far = count_bytes(so_far, &self.state);
        let so_far = self.body.count(shape, so_far);
        self.ui.count(shape, so_far)
    }

    #[tactic(auto, unfolding(crate::specs::Spelling::checkpoint_bytes))]
    fn put(&self, shape: &Shape, out: &mut Vec<u8>) -> Result<(), NoMemory> {
        put_u8(out, self.body.form())?;
        put_u64(out, self.pos)?;
        put_bytes(out, &self.state)?;
        self.body.put(shape, out)?;
        self.ui.put(shape, out)
    }
}

impl Readable for Checkpoint {
    ghost reads = { checkpoint_at };

    #[tactic(auto, unfolding(crate::specs::Reading::checkpoint_at))]
    fn read(
        alloc: Global,
        shape: &Shape,
        fields: &mut Fields<'_>,
    ) -> Result<Checkpoint, Undecoded> {
        let form = read_form(fields)?;
        let pos = read_position(fields)?;
        let state = read_digest(fields)?;
        let body = read_body(alloc, shape, form, fields)?;
        let ui = Ui::read(alloc, shape, fields)?;
        Ok(Checkpoint {
            pos,
            state,
            body,
            ui,
        })
    }
}

impl Part for BareCheckpoint {
    ghost text = { bare_checkpoint_bytes };

    ghost valid = { FitsBareCheckpoint };

    fn fits(&self, shape: &Shape) -> bool {
        is_position(self.pos) && self.ui.fits(shape)
    }

    #[tactic(auto, using(mb_parts::proofs::CountedBytes::counted_behind), unfolding(crate::specs::Spelling::bare_checkpoint_bytes))]
    fn count(&self, shape: &Shape, so_far: usize) -> usize {
        let so_far = count_u8(so_far, BARE_FORM);
        let so_far = count_u64(so_far, self.pos);
        let so_far = count_bytes(so_far, &self.state);
        let so_far = count_bytes(so_far, &self.body);
        self.ui.count(shape, so_far)
    }

    #[tactic(auto, unfolding(crate::specs::Spelling::bare_checkpoint_bytes))]
    fn put(&self, shape: &Shape, out: &mut Vec<u8>) -> Result<(), NoMemory> {
        put_u8(out, BARE_FORM)?;
        put_u64(out, self.pos)?;
        put_bytes(out, &self.state)?;
        put_bytes(out, &self.body)?;
        self.ui.put(shape, out)
    }
}

impl Readable for BareCheckpoint {
    ghost reads = { bare_checkpoint_at };

    #[tactic(auto, unfolding(crate::specs::Reading::bare_checkpoint_at))]
    fn read(
        alloc: Global,
        shape: &Shape,
        fields: &mut Fields<'_>,
    ) -> Result<BareCheckpoint, Undecoded> {
        read_bare_form(fields)?;
        let pos = read_position(fields)?;
        let state = read_digest(fields)?;
        let body = read_digest(fields)?;
        let ui = Ui::read(alloc, shape, fields)?;
        Ok(BareCheckpoint {
            pos,
            state,
            body,
            ui,
        })
    }
}
