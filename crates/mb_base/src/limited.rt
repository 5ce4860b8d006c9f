//! Reading fields whose values are limited. The offset of the first byte of a field that is short, or has a value outside its limits, is its error.

ghost use Rattle.std.specs.Prelude.{◌≡◌};
ghost use Rattle.mb_base.specs.declared.fields.BadField.{BadField};
ghost use Rattle.mb_base.specs.Reading.{is_other};

use crate::fields::{BadField, Fields, Short};
use crate::names::Digest;

impl From<Short> for BadField {
    ghost from_gives = { λ s e. e ≡ record { at = s.at } };

    fn from(short: Short) -> BadField {
        BadField { at: short.at }
    }
}

fn is_other(left_out: Option<u8>, n: u8) -> bool
    ensures { result ≡ is_other left_out n }
{
    match left_out {
        None => true,
        Some(x) => n != x,
    }
}

impl<'a> Fields<'a> {
    ghost use Rattle.std.specs.Prelude.{◌≡◌, ◌≤◌, ◌^◌, ◌-◌};
    ghost use Rattle.std.specs.Int.{w8, w16, w32, w64};
    ghost use Rattle.mb_base.specs.Reading.{bytes_at, number_in, multiple_in, number_without, text_in, text16_at};
    ghost use Rattle.mb_base.specs.Fields.{GivesIn, place_of};

    /// A number of one byte from `low` up to `high`.
    #[tactic(auto, unfolding(crate::specs::Reading::number_in))]
    pub fn u8_in(&mut self, low: u8, high: u8) -> Result<u8, BadField>
        ensures { GivesIn (λ x. x) result self.new (number_in w8 low high (place_of self.old)) }
    {
        let start = *self;
        let n = self.get_u8()?;
        if low <= n && n <= high {
            return Ok(n);
        }
        *self = start;
        Err(BadField { at: start.place() })
    }

    /// A number of two bytes from `low` up to `high`.
    #[tactic(auto, unfolding(crate::specs::Reading::number_in))]
    pub fn u16_in(&mut self, low: u16, high: u16) -> Result<u16, BadField>
        ensures { GivesIn (λ x. x) result self.new (number_in w16 low high (place_of self.old)) }
    {
        let start = *self;
        let n = self.get_u16()?;
        if low <= n && n <= high {
            return Ok(n);
        }
        *self = start;
        Err(BadField { at: start.place() })
    }

    /// A number of four bytes from `low` up to `high`.
    #[tactic(auto, unfolding(crate::specs::Reading::number_in))]
    pub fn u32_in(&mut self, low: u32, high: u32) -> Result<u32, BadField>
        ensures { GivesIn (λ x. x) result self.new (number_in w32 low high (place_of self.old)) }
    {
        let start = *self;
        let n = self.get_u32()?;
        if low <= n && n <= high {
            return Ok(n);
        }
        *self = start;
        Err(BadField { at: start.place() })
    }

    /// A number of eight bytes from `low` up to `high`.
    #[tactic(auto, unfolding(crate::specs::Reading::number_in))]
    pub fn u64_in(&mut self, low: u64, high: u64) -> Result<u64, BadField>
        ensures { GivesIn (λ x. x) result self.new (number_in w64 low high (place_of self.old)) }
    {
        let start = *self;
        let n = self.get_u64()?;
        if low <= n && n <= high {
            return Ok(n);
        }
        *self = start;
        Err(BadField { at: start.place() })
    }

    /// A number of eight bytes from `low` up to `high` that is a multiple of `k`, which isn't 0.
    #[tactic(auto, unfolding(crate::specs::Reading::multiple_in, crate::specs::Reading::checked_at))]
    pub fn multiple_in(&mut self, k: u64, low: u64, high: u64) -> Result<u64, BadField>
        requires { 1 ≤ k }
        ensures { GivesIn (λ x. x) result self.new (multiple_in k low high (place_of self.old)) }
    {
        let start = *self;
        let n = self.u64_in(low, high)?;
        if n % k == 0 {
            return Ok(n);
        }
        *self = start;
        Err(BadField { at: start.place() })
    }

    /// A number of one byte from `low` up to `high`, and another than the one that is left out.
    #[tactic(auto, unfolding(crate::specs::Reading::number_without, crate::specs::Reading::checked_at))]
    pub fn u8_without(&mut self, left_out: Option<u8>, low: u8, high: u8) -> Result<u8, BadField>
        ensures { GivesIn (λ x. x) result self.new (number_without left_out low high (place_of self.old)) }
    {
        let start = *self;
        let n = self.u8_in(low, high)?;
        if is_other(left_out, n) {
            return Ok(n);
        }
        *self = start;
        Err(BadField { at: start.place() })
    }

    /// The bytes behind a length of two bytes, which is at most `most`.
    #[tactic(auto, unfolding(crate::specs::Reading::text_in))]
    pub fn text16(&mut self, most: u16) -> Result<&'a [u8], BadField>
        ensures { GivesIn (λ x. x.now) result self.new (text16_at most (place_of self.old)) }
    {
        let len = self.u16_in(0, most)?;
        Ok(self.take(len as usize)?)
    }

    /// The bytes behind a length of four bytes.
    #[tactic(auto, unfolding(crate::specs::Reading::text_in, crate::specs::Reading::number_in))]
    pub fn text32(&mut self) -> Result<&'a [u8], BadField>
        ensures { GivesIn (λ x. x.now) result self.new (text_in w32 0 (2 ^ 32 - 1) (place_of self.old)) }
    {
        let len = self.u32_in(0, u32::MAX)?;
        Ok(self.take(len as usize)?)
    }

    /// A digest.
    pub fn digest(&mut self) -> Result<Digest, BadField>
        ensures { GivesIn (λ x. x) result self.new (bytes_at 32 (place_of self.old)) }
    {
        let bytes = self.take(32)?;
        let mut digest = [0; 32];
        digest.copy_from_slice(bytes);
        Ok(digest)
    }
}
