//! INTEGER (X.690 section 8.3).

ghost use Rattle.std.specs.Prelude.{◌≡◌, ◌<◌, ◌≤◌, ◌^◌, ◌++◌, ◌+◌, length, IfSome, OnOk, pos};
ghost use Rattle.krb_tlv.specs.Element.{optional, tagged};
ghost use Rattle.krb_tlv.specs.Integer.{width, integer, natural, IsInt32, IsUInt32};
ghost use Rattle.krb_tlv.specs.Reading.{complement};
ghost use Rattle.krb_tlv.specs.Reading.{Finds, Takes, be_value, int_of, int32_of, below_of, int32_element_of, below_element_of, optional_at, field_at, signed, five_octets};
ghost use Rattle.krb_tlv.specs.Writing.{element_size};

use crate::length::be_number;
use crate::reader::{Reader, only_element};
use crate::tag;
use crate::writer::{Writer, size_around};
use std::alloc::AllocError;

/// The first number that 32 bits don't hold.
pub const UINT32_LIMIT: u64 = 0x1_0000_0000;

/// In how many octets the number is written.
fn width_of(n: u64) -> usize
    ensures value { result ≡ width n }
    ensures bound { result ≤ 5 }
{
    if n < 0x80 {
        1
    } else if n < 0x8000 {
        2
    } else if n < 0x80_0000 {
        3
    } else if n < 0x8000_0000 {
        4
    } else {
        5
    }
}

/// The number that the complements of at most five octets are.
fn number_of_complement(octets: &[u8]) -> u64
    requires { length octets.now ≤ 5 }
    ensures { result ≡ be_value (complement octets.now) }
{
    let end = 0x100u64.pow(octets.len() as u32);
    end - 1 - be_number(octets)
}

/// Whether the number is negative, and n if it is n or -(n + 1).
#[tactic(auto, unfolding(crate::specs::Reading::int_of))]
fn magnitude(content: &[u8]) -> Option<(bool, u64)>
    ensures { Finds (λ x. x) result (int_of content.now) }
{
    if content.len() > 5 {
        return None;
    }
    let negative = match content {
        [] => false,
        [first, ..] => *first >= 128,
    };
    let n = if negative {
        number_of_complement(content)
    } else {
        be_number(content)
    };
    if width_of(n) != content.len() {
        return None;
    }
    Some((negative, n))
}

#[tactic(auto, unfolding(crate::specs::Reading::int32_of))]
fn int32_value(content: &[u8]) -> Option<i32>
    ensures { Finds (λ x. x) result (int32_of content.now) }
{
    let (negative, n) = magnitude(content)?;
    if n >= 0x8000_0000 {
        return None;
    }
    if negative {
        Some(-1 - (n as i32))
    } else {
        Some(n as i32)
    }
}

/// The Int32 whose element the bytes are (RFC 4120 section 5.2.4).
fn read_int32(bytes: &[u8]) -> Option<i32>
    ensures { Finds (λ x. x) result (int32_element_of bytes.now) }
{
    let mut reader = Reader::new(bytes);
    let value = int32_value(reader.element(tag::INTEGER)?)?;
    reader.finish(value)
}

/// The Int32 of a field.
#[tactic(auto, unfolding(crate::specs::Reading::field_at))]
pub fn read_int32_field(fields: &mut Reader<'_>, tag: u8) -> Option<i32>
    ensures { Takes (λ x. x) result fields.new (field_at tag int32_element_of fields.old) }
{
    read_int32(fields.element(tag)?)
}

#[tactic(auto, unfolding(crate::specs::Reading::below_of))]
fn natural_value(limit: u64, content: &[u8]) -> Option<u32>
    requires { limit ≤ 2 ^ 32 }
    ensures { Finds (λ x. x) result (below_of limit content.now) }
{
    let (negative, n) = magnitude(content)?;
    if negative || n >= limit {
        return None;
    }
    Some(n as u32)
}

fn read_natural(limit: u64, bytes: &[u8]) -> Option<u32>
    requires { limit ≤ 2 ^ 32 }
    ensures { Finds (λ x. x) result (below_element_of limit bytes.now) }
{
    let mut reader = Reader::new(bytes);
    let value = natural_value(limit, reader.element(tag::INTEGER)?)?;
    reader.finish(value)
}

/// The number below a limit of an optional field.
#[tactic(auto, unfolding(crate::specs::Reading::optional_at))]
pub fn read_optional_natural(fields: &mut Reader<'_>, tag: u8, limit: u64) -> Option<Option<u32>>
    requires { limit ≤ 2 ^ 32 }
    ensures { Takes (λ x. x) result fields.new
        (optional_at tag (below_element_of limit) fields.old) }
{
    if !fields.is_at(tag) {
        return Some(None);
    }
    let value = read_natural(limit, fields.element(tag)?)?;
    Some(Some(value))
}

/// A number that is n, or -(n + 1) if it is negative.
#[derive(Drop)]
struct Signed {
    negative: bool,
    n: u32,
}

impl Signed {
    fn from_int32(z: &i32) -> Signed
        ensures { signed result.negative result.n ≡ z.now }
    {
        let negative = *z < 0;
        let n = if negative {
            (-1 - *z) as u32
        } else {
            *z as u32
        };
        Signed { negative, n }
    }

    fn from_natural(n: u32) -> Signed
        ensures { signed result.negative result.n ≡ pos n }
    {
        let negative = false;
        Signed { negative, n }
    }

    /// Its content in five octets, of which the last few are enough.
    fn octets(&self) -> [u8; 5]
        ensures { result ≡ five_octets self.now.negative self.now.n }
    {
        let [a, b, c, d] = self.n.to_be_bytes();
        if self.negative {
            [255, 255 - a, 255 - b, 255 - c, 255 - d]
        } else {
            [0, a, b, c, d]
        }
    }

    /// How many bytes its element has.
    fn size(&self) -> usize
        ensures value { result ≡ length (integer (signed self.now.negative self.now.n)) }
        ensures bound { result ≤ 7 }
    {
        2 + width_of(u64::from(self.n))
    }

    /// Adds its element under the tag of a field.
    fn write_field(&self, out: &mut Writer, tag: u8) -> Result<(), AllocError>
        ensures { OnOk result
            (out.new ≡ out.old ++ tagged tag (integer (signed self.now.negative self.now.n))) }
    {
        let n = self.n;
        let [e, d, c, b, a] = self.octets();
        match width_of(u64::from(n)) {
            1 => out.put(&[tag, 3, tag::INTEGER, 1, a]),
            2 => out.put(&[tag, 4, tag::INTEGER, 2, b, a]),
            3 => out.put(&[tag, 5, tag::INTEGER, 3, c, b, a]),
            4 => out.put(&[tag, 6, tag::INTEGER, 4, d, c, b, a]),
            _ => out.put(&[tag, 7, tag::INTEGER, 5, e, d, c, b, a]),
        }
    }
}

/// How many bytes a field with an Int32 has.
pub fn int32_field_size(z: &i32) -> usize
    ensures value { result ≡ element_size (length (integer z.now)) }
    ensures bound { result ≤ 12 }
{
    size_around(Signed::from_int32(z).size())
}

/// Adds a field with an Int32.
pub fn write_int32_field(out: &mut Writer, tag: u8, z: &i32) -> Result<(), AllocError>
    ensures { OnOk result (out.new ≡ out.old ++ tagged tag (integer z.now)) }
{
    Signed::from_int32(z).write_field(out, tag)
}

/// How many bytes an optional field with a number has.
pub fn natural_field_size(n: Option<u32>) -> usize
    ensures value { result ≡ length (optional 0 natural n) }
    ensures bound { result ≤ 12 }
{
    match n {
        Some(n) => size_around(Signed::from_natural(n).size()),
        None => 0,
    }
}

/// Adds an optional field with a number.
pub fn write_natural_field(out: &mut Writer, tag: u8, n: Option<u32>) -> Result<(), AllocError>
    ensures { OnOk result (out.new ≡ out.old ++ optional tag natural n) }
{
    match n {
        Some(n) => Signed::from_natural(n).write_field(out, tag),
        None => Ok(()),
    }
}

/// A law: the number is an Int32, as its type says. It does nothing when it runs.
pub fn known_int32(z: &i32)
    ensures { IsInt32 z.now }
{
    let _z = *z;
}

/// A law: the number is a UInt32, as its type says. It does nothing when it runs.
pub fn known_uint32(n: &Option<u32>)
    ensures { IfSome n.now IsUInt32 }
{
    if let Some(n) = n {
        let _n = *n;
    }
}
