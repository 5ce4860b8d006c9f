//! Reading big-endian fields, one after the other. The offset of the first byte of a field that is short is its error.

ghost use Rattle.std.specs.Prelude.{◌≡◌, ◌≤◌, ◌==◌, length, IfOk};
ghost use Rattle.mb_base.specs.Spelling.{IsBytes};

/// A byte slice and a place in it. All numbers are big-endian.
#[derive(Clone, Copy)]
pub struct Fields<'a> {
    bytes: &'a [u8],
    place: usize,
    ghost within: { place ≤ length bytes.now },
    ghost in_range: { IsBytes bytes.now },
}

/// Fewer bytes are left than the field has.
#[derive(Clone, Copy, Debug, PartialEq, Eq)]
pub struct Short {
    /// The field's first byte.
    pub at: usize,
}

/// A field is short, or has a value that isn't allowed.
#[derive(Clone, Copy, Debug, PartialEq, Eq)]
pub struct BadField {
    /// The field's first byte.
    pub at: usize,
}

impl<'a> Fields<'a> {
    ghost use Rattle.std.specs.Int.{w8, w16, w32, w64};
    ghost use Rattle.mb_base.specs.Reading.{bytes_at, number_at, cursor};
    ghost use Rattle.mb_base.specs.Fields.{Gives, place_of};

    /// Stands at place 0.
    pub fn over(bytes: &'a [u8]) -> Fields<'a>
        ensures { place_of result ≡ cursor 0 bytes.now }
    {
        Fields { bytes, place: 0 }
    }

    /// How many bytes stand before the place.
    pub fn place(&self) -> usize
        ensures { result ≡ (place_of self.now).at }
    {
        self.place
    }

    /// Whether no byte is left.
    pub fn is_at_end(&self) -> bool
        ensures { result ≡ (length (place_of self.now).rest == 0) }
    {
        self.place == self.bytes.len()
    }

    /// The next bytes, as many as asked for. `Short` comes exactly where fewer are left, and the place then stays.
    pub fn take(&mut self, count: usize) -> Result<&'a [u8], Short>
        ensures read { Gives (λ x. x.now) result self.new (bytes_at count (place_of self.old)) }
        ensures len { IfOk result (λ x. length x.now ≡ count) }
        ensures same { self.new.bytes ≡ self.old.bytes }
    {
        let left = &self.bytes[self.place..];
        if left.len() < count {
            return Err(Short { at: self.place });
        }
        self.place += count;
        Ok(&left[..count])
    }

    /// A number of one byte.
    pub fn get_u8(&mut self) -> Result<u8, Short>
        ensures read { Gives (λ x. x) result self.new (number_at w8 (place_of self.old)) }
        ensures same { self.new.bytes ≡ self.old.bytes }
    {
        let bytes = self.take(1)?;
        Ok(bytes[0])
    }

    /// A number of two bytes.
    pub fn get_u16(&mut self) -> Result<u16, Short>
        ensures read { Gives (λ x. x) result self.new (number_at w16 (place_of self.old)) }
        ensures same { self.new.bytes ≡ self.old.bytes }
    {
        let b = self.take(2)?;
        Ok(u16::from_be_bytes([b[0], b[1]]))
    }

    /// A number of four bytes.
    pub fn get_u32(&mut self) -> Result<u32, Short>
        ensures read { Gives (λ x. x) result self.new (number_at w32 (place_of self.old)) }
        ensures same { self.new.bytes ≡ self.old.bytes }
    {
        let b = self.take(4)?;
        Ok(u32::from_be_bytes([b[0], b[1], b[2], b[3]]))
    }

    /// A number of eight bytes.
    pub fn get_u64(&mut self) -> Result<u64, Short>
        ensures read { Gives (λ x. x) result self.new (number_at w64 (place_of self.old)) }
        ensures same { self.new.bytes ≡ self.old.bytes }
    {
        let b = self.take(8)?;
        Ok(u64::from_be_bytes([b[0], b[1], b[2], b[3], b[4], b[5], b[6], b[7]]))
    }
}
