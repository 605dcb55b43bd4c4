//! Messages worked out by hand, which are read and written back, also at the limit.

mod address;
mod around;
mod borrowed;

use crate::asserts::{assert_same, assert_same_at};
use krb_der::{
    Bytes, DerError, Message, SafeMsg, decode, decode_part, encode_part, encode_priv, encode_safe,
    safe_input,
};
use std::alloc::Global;

/// Text 44 68 69 at 2023-11-14T22:13:20Z and 5 microseconds, number 7, from 10.0.0.1, with an empty
/// checksum of type 0.
pub const SAFE: [u8; 84] = [
    0x74, 0x52, 0x30, 0x50, 0xa0, 0x03, 0x02, 0x01, 0x05, 0xa1, 0x03, 0x02, 0x01, 0x14, 0xa2, 0x37,
    0x30, 0x35, 0xa0, 0x05, 0x04, 0x03, 0x44, 0x68, 0x69, 0xa1, 0x11, 0x18, 0x0f, 0x32, 0x30, 0x32,
    0x33, 0x31, 0x31, 0x31, 0x34, 0x32, 0x32, 0x31, 0x33, 0x32, 0x30, 0x5a, 0xa2, 0x03, 0x02, 0x01,
    0x05, 0xa3, 0x03, 0x02, 0x01, 0x07, 0xa4, 0x0f, 0x30, 0x0d, 0xa0, 0x03, 0x02, 0x01, 0x02, 0xa1,
    0x06, 0x04, 0x04, 0x0a, 0x00, 0x00, 0x01, 0xa3, 0x0b, 0x30, 0x09, 0xa0, 0x03, 0x02, 0x01, 0x00,
    0xa1, 0x02, 0x04, 0x00,
];

/// No text and no time, number 4294967295, from 10.0.0.1 to 10.0.0.255.
const SAFE_TO_RECEIVER: [u8; 78] = [
    0x74, 0x4c, 0x30, 0x4a, 0xa0, 0x03, 0x02, 0x01, 0x05, 0xa1, 0x03, 0x02, 0x01, 0x14, 0xa2, 0x31,
    0x30, 0x2f, 0xa0, 0x02, 0x04, 0x00, 0xa3, 0x07, 0x02, 0x05, 0x00, 0xff, 0xff, 0xff, 0xff, 0xa4,
    0x0f, 0x30, 0x0d, 0xa0, 0x03, 0x02, 0x01, 0x02, 0xa1, 0x06, 0x04, 0x04, 0x0a, 0x00, 0x00, 0x01,
    0xa5, 0x0f, 0x30, 0x0d, 0xa0, 0x03, 0x02, 0x01, 0x02, 0xa1, 0x06, 0x04, 0x04, 0x0a, 0x00, 0x00,
    0xff, 0xa3, 0x0b, 0x30, 0x09, 0xa0, 0x03, 0x02, 0x01, 0x0f, 0xa1, 0x02, 0x04, 0x00,
];

/// Encryption type 17 with an empty cipher.
const PRIV: [u8; 27] = [
    0x75, 0x19, 0x30, 0x17, 0xa0, 0x03, 0x02, 0x01, 0x05, 0xa1, 0x03, 0x02, 0x01, 0x15, 0xa3, 0x0b,
    0x30, 0x09, 0xa0, 0x03, 0x02, 0x01, 0x11, 0xa2, 0x02, 0x04, 0x00,
];

/// The same under key version 3.
const PRIV_WITH_KVNO: [u8; 32] = [
    0x75, 0x1e, 0x30, 0x1c, 0xa0, 0x03, 0x02, 0x01, 0x05, 0xa1, 0x03, 0x02, 0x01, 0x15, 0xa3, 0x10,
    0x30, 0x0e, 0xa0, 0x03, 0x02, 0x01, 0x11, 0xa1, 0x03, 0x02, 0x01, 0x03, 0xa2, 0x02, 0x04, 0x00,
];

/// The encrypted part with the body of `SAFE`.
pub const PART: [u8; 57] = [
    0x7c, 0x37, 0x30, 0x35, 0xa0, 0x05, 0x04, 0x03, 0x44, 0x68, 0x69, 0xa1, 0x11, 0x18, 0x0f, 0x32,
    0x30, 0x32, 0x33, 0x31, 0x31, 0x31, 0x34, 0x32, 0x32, 0x31, 0x33, 0x32, 0x30, 0x5a, 0xa2, 0x03,
    0x02, 0x01, 0x05, 0xa3, 0x03, 0x02, 0x01, 0x07, 0xa4, 0x0f, 0x30, 0x0d, 0xa0, 0x03, 0x02, 0x01,
    0x02, 0xa1, 0x06, 0x04, 0x04, 0x0a, 0x00, 0x00, 0x01,
];

/// The message KRB-SAFE that the bytes spell.
fn decode_safe(alloc: Global, bytes: &[u8]) -> Result<SafeMsg, DerError> {
    match decode(alloc, bytes)? {
        Message::Safe(m) => Ok(m),
        Message::Priv(_) => Err(DerError::Malformed),
    }
}

/// The message that the bytes spell, or the part, written again.
fn again(alloc: Global, bytes: &[u8]) -> Result<Vec<u8>, DerError> {
    if let Ok(body) = decode_part(alloc, bytes) {
        return if body.in_range() {
            encode_part(alloc, &body)
        } else {
            Err(DerError::Malformed)
        };
    }
    match decode(alloc, bytes)? {
        Message::Safe(m) if m.body.in_range() => encode_safe(alloc, &m),
        Message::Safe(_) => Err(DerError::Malformed),
        Message::Priv(m) => encode_priv(alloc, &m),
    }
}

#[test]
fn messages_are_read_and_written_back(rt: HostRuntime) {
    for (case, bytes) in [
        SAFE.as_slice(),
        &SAFE_TO_RECEIVER,
        &PRIV,
        &PRIV_WITH_KVNO,
        &PART,
    ]
    .into_iter()
    .enumerate()
    {
        let written = again(rt.alloc(), bytes).expect(&rt, "a message");
        assert_same_at(&rt, written.as_slice(), bytes, case);
    }
    let part = decode(rt.alloc(), &PART).err();
    assert_same(&rt, part, Some(DerError::Malformed));
}

/// The bytes under the checksum of `SAFE` with another checksum.
fn under_checksum(alloc: Global) -> Result<Vec<u8>, DerError> {
    let mut m = decode_safe(alloc, &SAFE)?;
    m.cksum_type = 16;
    m.checksum = Bytes::new(vec![in alloc; 0xa5; 12]?);
    if m.body.in_range() {
        safe_input(alloc, &m)
    } else {
        Err(DerError::Malformed)
    }
}

#[test]
fn bytes_under_any_checksum_are_those_under_none(rt: HostRuntime) {
    let input = under_checksum(rt.alloc()).expect(&rt, "a message");
    assert_same(&rt, input.as_slice(), SAFE.as_slice());
}

/// What a message or a part of so many bytes of data has: its size, and its bytes at a place.
fn large(alloc: Global, of: &[u8], count: usize) -> Result<Vec<u8>, DerError> {
    let data = Bytes::new(vec![in alloc; 0x61; count]?);
    if let Ok(mut body) = decode_part(alloc, of) {
        body.user_data = data;
        return if body.in_range() {
            encode_part(alloc, &body)
        } else {
            Err(DerError::Malformed)
        };
    }
    match decode(alloc, of)? {
        Message::Safe(mut m) => {
            m.body.user_data = data;
            if m.body.in_range() {
                encode_safe(alloc, &m)
            } else {
                Err(DerError::Malformed)
            }
        }
        Message::Priv(mut m) => {
            m.cipher = data;
            encode_priv(alloc, &m)
        }
    }
}

/// How `SAFE` begins with a text of 60,001 bytes, and of 1,000,001: its lengths are 60,090, 60,086,
/// 60,059, 60,055, 60,005 and 60,001; 1,000,095, 1,000,090, 1,000,062, 1,000,057, 1,000,006 and
/// 1,000,001.
static BEGINNINGS: [(usize, usize, &[u8]); 2] = [
    (
        60_001,
        60_094,
        &[
            0x74, 0x82, 0xea, 0xba, 0x30, 0x82, 0xea, 0xb6, 0xa0, 0x03, 0x02, 0x01, 0x05, 0xa1,
            0x03, 0x02, 0x01, 0x14, 0xa2, 0x82, 0xea, 0x9b, 0x30, 0x82, 0xea, 0x97, 0xa0, 0x82,
            0xea, 0x65, 0x04, 0x82, 0xea, 0x61, 0x61,
        ],
    ),
    (
        1_000_001,
        1_000_100,
        &[
            0x74, 0x83, 0x0f, 0x42, 0x9f, 0x30, 0x83, 0x0f, 0x42, 0x9a, 0xa0, 0x03, 0x02, 0x01,
            0x05, 0xa1, 0x03, 0x02, 0x01, 0x14, 0xa2, 0x83, 0x0f, 0x42, 0x7e, 0x30, 0x83, 0x0f,
            0x42, 0x79, 0xa0, 0x83, 0x0f, 0x42, 0x46, 0x04, 0x83, 0x0f, 0x42, 0x41, 0x61,
        ],
    ),
];

#[test]
fn long_texts_are_carried(rt: HostRuntime) {
    for (count, size, beginning) in &BEGINNINGS {
        let bytes = large(rt.alloc(), &SAFE, *count).expect(&rt, "a message");
        assert_same(&rt, bytes.len(), *size);
        assert!(rt; bytes.starts_with(beginning), "{count}");
        let again = again(rt.alloc(), &bytes).expect(&rt, "a message");
        assert!(rt; again.as_slice() == bytes.as_slice(), "{count}");
    }
    // Lengths take a third octet from 65,536 on.
    let two = large(rt.alloc(), &SAFE, 65_535).expect(&rt, "a message");
    assert!(rt; two.get(35..39) == Some([0x04, 0x82, 0xff, 0xff].as_slice()));
    let three = large(rt.alloc(), &SAFE, 65_536).expect(&rt, "a message");
    assert!(rt; three.get(35..40) == Some([0x04, 0x83, 0x01, 0x00, 0x00].as_slice()));
}

/// The longest data of a message or a part are written and read, and no longer ones.
#[test]
fn longest_messages_are_written_and_read(rt: HostRuntime) {
    for (of, most) in [
        (SAFE.as_slice(), 1_005_000 - 99),
        (&PRIV, 1_005_000 - 45),
        (&PART, 1_005_000 - 66),
    ] {
        let bytes = large(rt.alloc(), of, most).expect(&rt, "a message");
        assert_same(&rt, bytes.len(), 1_005_000);
        let again = again(rt.alloc(), &bytes).expect(&rt, "a message");
        assert!(rt; again.as_slice() == bytes.as_slice());
        let more = large(rt.alloc(), of, most + 1).err();
        assert_same(&rt, more, Some(DerError::TooLong));
    }
}
