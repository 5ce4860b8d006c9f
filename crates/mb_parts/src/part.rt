//! What all parts of messages have in common, and lists, options and members of them.

ghost use Rattle.std.specs.Prelude.{◌≡◌, ◌↔◌, ◌<◌, ◌^◌, ◌++◌, ℕ, length, map, replicate, List, Option, None, Some, IfSome, IsTrue, IfOk, OnOk};
ghost use Rattle.std.specs.List.{flat_map, AllByRecursion};
ghost use Rattle.std.specs.Int.{w8, w16};
ghost use Rattle.mb_base.specs.Shapes.{host_count};
ghost use Rattle.mb_base.specs.Spelling.{number, listed, optional, Rises};
ghost use Rattle.mb_base.specs.Reading.{Cursor, Reads, list_in, optional_at, repeat_at, rising_at};
ghost use Rattle.mb_base.specs.Fields.{place_of};
ghost use Rattle.mb_base.specs.declared.shape.Shape.{Shape as ShapeRecord};
ghost use Rattle.mb_parts.specs.Counted.{counted};
ghost use Rattle.mb_parts.specs.Decoded.{Decodes};
ghost use Rattle.mb_parts.specs.Fits.{AreMembers};

use crate::counting::{count_u8, count_u16};
use crate::fault::Undecoded;
use mb_base::{Fields, Host, Items, NoMemory, Shape, put_u8, put_u16};
use std::alloc::Global;

/// A part of a message: its bytes, and which values it may have.
pub trait Part: Drop {
    /// The bytes.
    ghost text: { Self → List ℕ };

    /// Each field has an allowed value.
    ghost valid: { ShapeRecord → Self → Type 0 };

    /// Whether each field has an allowed value.
    fn fits(&self, shape: &Shape) -> bool
        ensures { IsTrue result ↔ valid shape.now self.now };

    /// How many bytes there are with these, behind so many; the greatest number where there are more.
    /// Each field has an allowed value.
    fn count(&self, shape: &Shape, so_far: usize) -> usize
        requires { valid shape.now self.now }
        ensures { result ≡ counted so_far (text self.now) };

    /// Appends the bytes. Each field has an allowed value.
    fn put(&self, shape: &Shape, out: &mut Vec<u8>) -> Result<(), NoMemory>
        requires { valid shape.now self.now }
        ensures { OnOk result (out.new.items ≡ out.old.items ++ text self.now) };
}

/// A part that can be read wherever it begins.
pub trait Readable: Part {
    ghost reads: { ShapeRecord → Cursor → Reads Self };

    /// The part that begins at the place of the fields.
    fn read(alloc: Global, shape: &Shape, fields: &mut Fields<'_>) -> Result<Self, Undecoded>
        ensures { Decodes result fields.new (reads shape.now (place_of fields.old)) };
}

/// One of several hosts' statements in a certificate. The hosts of a certificate rise.
pub trait Member: Part {
    ghost member_reads: { ShapeRecord → Option ℕ → ℕ → Cursor → Reads Self };

    ghost host_of: { Self → ℕ };

    /// The member that begins at the place of the fields, of a host that is at least `least`, and not the one that is left out.
    fn read_member(
        alloc: Global,
        shape: &Shape,
        left_out: Option<Host>,
        least: Host,
        fields: &mut Fields<'_>,
    ) -> Result<Self, Undecoded>
        ensures read { Decodes result fields.new (member_reads shape.now left_out least (place_of fields.old)) }
        ensures host { IfOk result (λ m. host_of m < host_count shape.now) };

    /// Whose statement it is.
    fn host(&self) -> Host
        ensures { result ≡ host_of self.now };
}

impl<T: Part> Part for Option<T> {
    ghost text = { optional T.text };

    ghost valid = { λ s o. IfSome o (T.valid s) };

    fn fits(&self, shape: &Shape) -> bool {
        match self {
            None => true,
            Some(part) => part.fits(shape),
        }
    }

    #[tactic(auto, using(crate::proofs::CountedBytes::counted_behind))]
    fn count(&self, shape: &Shape, so_far: usize) -> usize {
        match self {
            None => count_u8(so_far, 0),
            Some(part) => part.count(shape, count_u8(so_far, 1)),
        }
    }

    fn put(&self, shape: &Shape, out: &mut Vec<u8>) -> Result<(), NoMemory> {
        match self {
            None => put_u8(out, 0),
            Some(part) => {
                put_u8(out, 1)?;
                part.put(shape, out)
            }
        }
    }
}

impl<T: Readable> Readable for Option<T> {
    ghost reads = { λ s. optional_at (T.reads s) };

    #[tactic(auto, unfolding(mb_base::specs::Reading::optional_at))]
    fn read(alloc: Global, shape: &Shape, fields: &mut Fields<'_>) -> Result<Option<T>, Undecoded> {
        if fields.u8_in(0, 1)? == 0 {
            return Ok(None);
        }
        Ok(Some(T::read(alloc, shape, fields)?))
    }
}

/// Whether each field of each part has an allowed value.
pub fn all_fit<T: Part>(shape: &Shape, parts: &[T]) -> bool
    ensures { IsTrue result ↔ AllByRecursion (T.valid shape.now) parts.now }
{
    for part in parts {
        if !part.fits(shape) {
            return false;
        }
    }
    true
}

/// Whether there are so many members, of rising hosts, and each field of each has an allowed value.
pub fn are_members<T: Member>(shape: &Shape, count: u8, members: &Items<T>) -> bool
    ensures { IsTrue result ↔ AreMembers T.host_of (T.valid shape.now) count members.now }
{
    members.len() == count as usize
        && rise(members.as_slice())
        && all_fit(shape, members.as_slice())
}

/// How many bytes there are with those of each part, behind so many; the greatest number where there are more.
/// Each field of each has an allowed value.
pub fn count_all<T: Part>(shape: &Shape, so_far: usize, parts: &[T]) -> usize
    requires { AllByRecursion (T.valid shape.now) parts.now }
    ensures { result ≡ counted so_far (flat_map T.text parts.now) }
{
    let mut all = so_far;
    for part in parts {
        all = part.count(shape, all);
    }
    all
}

/// Appends the bytes of each part. Each field of each has an allowed value.
pub fn put_all<T: Part>(shape: &Shape, parts: &[T], out: &mut Vec<u8>) -> Result<(), NoMemory>
    requires { AllByRecursion (T.valid shape.now) parts.now }
    ensures { OnOk result (out.new.items ≡ out.old.items ++ flat_map T.text parts.now) }
{
    for part in parts {
        part.put(shape, out)?;
    }
    Ok(())
}

/// How many bytes there are with those of a list, its count of two bytes among them.
/// Each field of each part has an allowed value.
#[tactic(auto, using(crate::proofs::CountedBytes::counted_behind))]
pub fn count_listed<T: Part>(shape: &Shape, so_far: usize, parts: &Items<T>) -> usize
    requires { (length parts.now < 2 ^ 16) × AllByRecursion (T.valid shape.now) parts.now }
    ensures { result ≡ counted so_far (listed w16 T.text parts.now) }
{
    count_all(
        shape,
        count_u16(so_far, parts.len() as u16),
        parts.as_slice(),
    )
}

/// Appends a count of two bytes, and the bytes of each part. Each field of each has an allowed value.
pub fn put_listed<T: Part>(
    shape: &Shape,
    parts: &Items<T>,
    out: &mut Vec<u8>,
) -> Result<(), NoMemory>
    requires { (length parts.now < 2 ^ 16) × AllByRecursion (T.valid shape.now) parts.now }
    ensures { OnOk result (out.new.items ≡ out.old.items ++ listed w16 T.text parts.now) }
{
    put_u16(out, parts.len() as u16)?;
    put_all(shape, parts.as_slice(), out)
}

/// A count of two bytes that is at most this, and as many parts.
#[tactic(auto, unfolding(mb_base::specs::Reading::list_in))]
pub fn read_listed<T: Readable>(
    alloc: Global,
    shape: &Shape,
    most: u16,
    fields: &mut Fields<'_>,
) -> Result<Items<T>, Undecoded>
    ensures { Decodes result fields.new (list_in w16 0 most (T.reads shape.now) (place_of fields.old)) }
{
    let count = fields.u16_in(0, most)?;
    read_parts(alloc, shape, u64::from(count), fields)
}

/// As many parts as asked for, one after the other.
pub fn read_parts<T: Readable>(
    alloc: Global,
    shape: &Shape,
    count: u64,
    fields: &mut Fields<'_>,
) -> Result<Items<T>, Undecoded>
    ensures { Decodes result fields.new (repeat_at (T.reads shape.now) count (place_of fields.old)) }
{
    let mut all = Items::new(alloc);
    for _ in 0..count {
        let part = T::read(alloc, shape, fields)?;
        all.push(part)?;
    }
    Ok(all)
}

/// As many members as asked for, of rising hosts, and none of the host that is left out.
pub fn read_members<T: Member>(
    alloc: Global,
    shape: &Shape,
    left_out: Option<Host>,
    count: u8,
    fields: &mut Fields<'_>,
) -> Result<Items<T>, Undecoded>
    ensures { Decodes result fields.new (rising_at (T.member_reads shape.now left_out) T.host_of count 0 (place_of fields.old)) }
{
    let mut all = Items::new(alloc);
    let mut least = 0;
    for _ in 0..count {
        let member = T::read_member(alloc, shape, left_out, least, fields)?;
        least = member.host() + 1;
        all.push(member)?;
    }
    Ok(all)
}

/// Whether the hosts of the members rise.
pub fn rise<T: Member>(members: &[T]) -> bool
    ensures { IsTrue result ↔ Rises 0 (map T.host_of members.now) }
{
    let mut least = 0;
    for member in members {
        let host = u16::from(member.host());
        if host < least {
            return false;
        }
        least = host + 1;
    }
    true
}
