//! Bytes with their type, the shape of HostAddress and of Checksum (RFC 4120 sections 5.2.5 and
//! 5.2.9).

ghost use Rattle.std.specs.Prelude.{◌≡◌, ◌<◌, ◌≤◌, ◌+◌, ◌++◌, ℕ, List, length, pos, OnOk};
ghost use Rattle.std.specs.List.{concat};
ghost use Rattle.krb_tlv.specs.Element.{tagged};
ghost use Rattle.krb_der.specs.Typed.{typed_fields, typed_octets};
ghost use Rattle.krb_base.specs.Limits.{frame_limit};
ghost use Rattle.krb_tlv.specs.Writing.{IsShort};
ghost use Rattle.krb_der.specs.Writing.{typed_fields_size, typed_size};
ghost use Rattle.krb_tlv.specs.Reading.{Finds, Takes, field_at};
ghost use Rattle.krb_der.specs.Reading.{typed_of};

use crate::tag;
use krb_tlv::{
    Reader, Writer, int32_field_size, read_int32_field, read_octets_field, size_around,
    write_int32_field,
};
use std::alloc::AllocError;

/// A field with a type and so many bytes has no length of more than one octet.
const MOST_SHORT: usize = 116;

/// The type and the bytes that the bytes spell.
#[tactic(auto, unfolding(crate::specs::Reading::typed_of))]
pub fn read_typed(bytes: &[u8]) -> Option<(i32, &[u8])>
    ensures { Finds (λ x. (x.0, x.1.now)) result (typed_of bytes.now) }
{
    let mut fields = Reader::inside(tag::SEQUENCE, bytes)?;
    let kind = read_int32_field(&mut fields, tag::FIELD_0)?;
    let bytes = read_octets_field(&mut fields, tag::FIELD_1)?;
    fields.finish((kind, bytes))
}

/// The type and the bytes of a field.
#[tactic(auto, unfolding(krb_tlv::specs::Reading::field_at))]
pub fn read_typed_field<'a>(fields: &mut Reader<'a>, tag: u8) -> Option<(i32, &'a [u8])>
    ensures { Takes (λ x. (x.0, x.1.now)) result fields.new (field_at tag typed_of fields.old) }
{
    read_typed(fields.element(tag)?)
}

fn fields_size_of(kind: &i32, count: usize) -> usize
    requires { count ≤ frame_limit }
    ensures value { result ≡ typed_fields_size kind.now count }
    ensures bound { result < count + 24 }
{
    int32_field_size(kind) + size_around(size_around(count))
}

/// How many bytes the spelling of a type and so many bytes has.
pub fn typed_size_of(kind: &i32, count: usize) -> usize
    requires { count ≤ frame_limit }
    ensures value { result ≡ typed_size kind.now count }
    ensures bound { result < count + 30 }
{
    size_around(fields_size_of(kind, count))
}

fn fields_size(kind: &i32, bytes: &[u8]) -> usize
    requires { IsShort bytes.now }
    ensures value { result ≡ length (concat (typed_fields kind.now bytes.now)) }
    ensures bound { result < length bytes.now + 24 }
{
    fields_size_of(kind, bytes.len())
}

/// How many bytes the spelling of a type and bytes has.
pub fn typed_size(kind: &i32, bytes: &[u8]) -> usize
    requires { IsShort bytes.now }
    ensures value { result ≡ length (typed_octets kind.now bytes.now) }
    ensures bound { result < length bytes.now + 30 }
{
    size_around(fields_size(kind, bytes))
}

/// What stands before the bytes of a field with a type, if there are few and the type is small.
fn short_front(tag: u8, kind: u8, count: u8) -> [u8; 13]
    requires kind { kind < 128 }
    requires count { count ≤ 116 }
    ensures { (bytes : List ℕ) → length bytes ≡ count
        → tagged tag (typed_octets (pos kind) bytes) ≡ result ++ bytes }
{
    [
        tag,
        count + 11,
        tag::SEQUENCE,
        count + 9,
        tag::FIELD_0,
        3,
        tag::INTEGER,
        1,
        kind,
        tag::FIELD_1,
        count + 2,
        tag::OCTET_STRING,
        count,
    ]
}

/// Adds a field with a type and bytes.
pub fn write_typed_field(
    out: &mut Writer,
    tag: u8,
    kind: &i32,
    bytes: &[u8],
) -> Result<(), AllocError>
    requires { IsShort bytes.now }
    ensures { OnOk result (out.new ≡ out.old ++ tagged tag (typed_octets kind.now bytes.now)) }
{
    if *kind >= 0 && *kind < 128 && bytes.len() <= MOST_SHORT {
        out.put(&short_front(tag, *kind as u8, bytes.len() as u8))?;
        return out.put(bytes);
    }
    let fields = fields_size(kind, bytes);
    out.begin(tag, size_around(fields))?;
    out.begin(tag::SEQUENCE, fields)?;
    write_int32_field(out, tag::FIELD_0, kind)?;
    out.octets_field(tag::FIELD_1, bytes)
}
