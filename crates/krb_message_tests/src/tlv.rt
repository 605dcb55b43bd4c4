//! Elements of DER: the examples of "A Layman's Guide to a Subset of ASN.1, BER, and DER" (INTEGER
//! and OCTET STRING), and the length of X.690 section 8.1.3.5.

use crate::asserts::{assert_same, assert_same_at};
use krb_tlv::{
    FIELD_0, FIELD_1, FIELD_2, INTEGER, OCTET_STRING, Reader, UINT32_LIMIT, Writer,
    int32_field_size, natural_field_size, only_element, read_int32_field, read_octets_field,
    read_optional_natural, write_int32_field, write_natural_field,
};
use std::alloc::{AllocError, Global};
use std::test::Fail;

/// Numbers, each as an INTEGER under the tag `[1]`.
const NUMBERS: [(i32, &[u8]); 10] = [
    (0, &[0xa1, 0x03, 0x02, 0x01, 0x00]),
    (-1, &[0xa1, 0x03, 0x02, 0x01, 0xff]),
    (999_999, &[0xa1, 0x05, 0x02, 0x03, 0x0f, 0x42, 0x3f]),
    (i32::MAX, &[0xa1, 0x06, 0x02, 0x04, 0x7f, 0xff, 0xff, 0xff]),
    (i32::MIN, &[0xa1, 0x06, 0x02, 0x04, 0x80, 0x00, 0x00, 0x00]),
    (127, &[0xa1, 0x03, 0x02, 0x01, 0x7f]),
    (128, &[0xa1, 0x04, 0x02, 0x02, 0x00, 0x80]),
    (256, &[0xa1, 0x04, 0x02, 0x02, 0x01, 0x00]),
    (-128, &[0xa1, 0x03, 0x02, 0x01, 0x80]),
    (-129, &[0xa1, 0x04, 0x02, 0x02, 0xff, 0x7f]),
];

/// The content of an OCTET STRING.
const CONTENT: [u8; 8] = [0x01, 0x23, 0x45, 0x67, 0x89, 0xab, 0xcd, 0xef];

/// That OCTET STRING under the tag `[2]`.
const OCTETS: [u8; 12] = [
    0xa2, 0x0a, 0x04, 0x08, 0x01, 0x23, 0x45, 0x67, 0x89, 0xab, 0xcd, 0xef,
];

/// How many bytes an OCTET STRING under the tag `[2]` has, and what comes before them, worked out by
/// hand (X.690 section 8.1.3).
const HEADERS: [(u16, &[u8]); 8] = [
    (0, &[0xa2, 0x02, 0x04, 0x00]),
    (125, &[0xa2, 0x7f, 0x04, 0x7d]),
    (126, &[0xa2, 0x81, 0x80, 0x04, 0x7e]),
    (127, &[0xa2, 0x81, 0x81, 0x04, 0x7f]),
    (128, &[0xa2, 0x81, 0x83, 0x04, 0x81, 0x80]),
    (252, &[0xa2, 0x81, 0xff, 0x04, 0x81, 0xfc]),
    (253, &[0xa2, 0x82, 0x01, 0x00, 0x04, 0x81, 0xfd]),
    (1000, &[0xa2, 0x82, 0x03, 0xec, 0x04, 0x82, 0x03, 0xe8]),
];

/// The field with a number.
fn int32_field(alloc: Global, number: i32) -> Result<Vec<u8>, AllocError> {
    let mut out = Writer::with_capacity(alloc, int32_field_size(&number))?;
    write_int32_field(&mut out, FIELD_1, &number)?;
    Ok(out.into_vec())
}

/// The optional field with a number.
fn natural_field(alloc: Global, number: Option<u32>) -> Result<Vec<u8>, AllocError> {
    let mut out = Writer::with_capacity(alloc, natural_field_size(number))?;
    write_natural_field(&mut out, FIELD_1, number)?;
    Ok(out.into_vec())
}

#[test]
fn numbers_are_written_and_read(rt: HostRuntime) -> Result<(), Fail> {
    for (number, field) in NUMBERS {
        let written = int32_field(rt.alloc(), number)?;
        assert_same_at(&rt, written.as_slice(), field, number);
        assert_same_at(&rt, int32_field_size(&number), field.len(), number);
        let mut fields = Reader::new(field);
        let read = read_int32_field(&mut fields, FIELD_1);
        assert_same_at(&rt, read, Some(number), number);
        assert_same_at(&rt, fields.finish(()), Some(()), number);
    }
    Ok(())
}

/// Numbers without sign, each as an INTEGER under the tag `[1]`.
const NATURALS: [(u32, &[u8]); 4] = [
    (0, &[0xa1, 0x03, 0x02, 0x01, 0x00]),
    (128, &[0xa1, 0x04, 0x02, 0x02, 0x00, 0x80]),
    (65_535, &[0xa1, 0x05, 0x02, 0x03, 0x00, 0xff, 0xff]),
    (
        u32::MAX,
        &[0xa1, 0x07, 0x02, 0x05, 0x00, 0xff, 0xff, 0xff, 0xff],
    ),
];

#[test]
fn numbers_without_sign_are_written_and_read(rt: HostRuntime) -> Result<(), Fail> {
    for (number, field) in NATURALS {
        let written = natural_field(rt.alloc(), Some(number))?;
        assert_same_at(&rt, written.as_slice(), field, number);
        let read = read_optional_natural(&mut Reader::new(field), FIELD_1, UINT32_LIMIT);
        assert_same_at(&rt, read, Some(Some(number)), number);
        // A number has to be below the limit, and isn't there under another tag.
        let limit = u64::from(number);
        let read = read_optional_natural(&mut Reader::new(field), FIELD_1, limit);
        assert_same_at(&rt, read, None, number);
        let absent = read_optional_natural(&mut Reader::new(field), FIELD_0, UINT32_LIMIT);
        assert_same_at(&rt, absent, Some(None), number);
    }
    assert_same(&rt, natural_field(rt.alloc(), None)?.len(), 0);
    Ok(())
}

#[test]
fn octets_are_written_and_read(rt: HostRuntime) -> Result<(), Fail> {
    let mut out = Writer::with_capacity(rt.alloc(), OCTETS.len())?;
    out.octets_field(FIELD_2, &CONTENT)?;
    assert_same(&rt, out.len(), OCTETS.len());
    assert_same(&rt, out.into_vec().as_slice(), OCTETS.as_slice());
    let mut fields = Reader::new(&OCTETS);
    assert_same(
        &rt,
        (fields.is_at(FIELD_1), fields.is_at(FIELD_2)),
        (false, true),
    );
    let read = read_octets_field(&mut fields, FIELD_2);
    assert_same(&rt, read, Some(CONTENT.as_slice()));
    assert_same(&rt, fields.rest().len(), 0);
    let content = only_element(OCTET_STRING, &OCTETS[2..]);
    assert_same(&rt, content, Some(CONTENT.as_slice()));
    Ok(())
}

#[test]
fn two_headers_are_written_at_once(rt: HostRuntime) -> Result<(), Fail> {
    for (size, headers) in HEADERS {
        let mut out = Writer::with_capacity(rt.alloc(), headers.len())?;
        out.begin_two(FIELD_2, OCTET_STRING, usize::from(size))?;
        let written = out.into_vec();
        assert_same_at(&rt, written.as_slice(), headers, size);
    }
    Ok(())
}

#[test]
fn elements_that_are_not_der_are_malformed(rt: HostRuntime) {
    // A tag that isn't asked for, a length beyond the bytes, one in a longer form than needed, and
    // bytes after the element.
    let others: [&[u8]; 4] = [
        &[0x04, 0x00],
        &[0x02, 0x02, 0x00],
        &[0x02, 0x81, 0x01, 0x00],
        &[0x02, 0x01, 0x00, 0x00],
    ];
    for bytes in others {
        assert_same(&rt, only_element(INTEGER, bytes), None);
    }
    assert_same(&rt, Reader::new(&[0x00]).finish(1), None);
}
