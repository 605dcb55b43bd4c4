//! Records, and their bytes.

use crate::asserts::assert_same_at;
use krb_record::{RecordError, RecordKind, read_record, record_bytes};
use std::alloc::Global;

/// The kind of the bytes' record, whose bytes they are.
fn kind_of(alloc: Global, bytes: &[u8]) -> Result<(RecordKind, bool), RecordError> {
    let record = read_record(alloc, bytes)?;
    let again = record_bytes(alloc, &record)?;
    Ok((record.kind(), again.as_slice() == bytes))
}

/// The bytes, and the kind that has this number, or 0 where they are no record.
static ROWS: [(&[u8], u32); 19] = [
    (b"\x44", 1),
    (b"\x44hi", 1),
    (b"\x42\0\0\0\x01\x61\0\0\0\x01\x62", 2),
    (b"\x42\0\0\0\x02hi\0\0\0\x01!", 2),
    (b"\x42\0\0\0\0\0\0\0\0", 2),
    (b"\x42\0\0\0\x01\x61\0\0\0\0", 2),
    (b"\x43", 3),
    (b"", 0),
    (b"\x43\0", 0),
    (b"\x58", 0),
    (b"\x45\x61", 0),
    (b"\x42", 0),
    // One text; the second text is cut short, and then its length; a byte too many.
    (b"\x42\0\0\0\x01\x61", 0),
    (b"\x42\0\0\0\x01\x61\0\0\0\x02", 0),
    (b"\x42\0\0\0\x01\x61\0\0\0", 0),
    (b"\x42\0\0\0\x01\x61\0\0\0\x01\x62\0", 0),
    // Lengths that nothing follows.
    (b"\x42\xff\xff\xff\xff\xff\xff\xff\xff", 0),
    (b"\x42\0\0\0\0\0\x0f\x42\x40", 0),
    (b"\x43\0\0\0\x01\x61", 0),
];

#[test]
fn bytes_are_of_one_record_or_of_none(rt: HostRuntime) {
    for (case, (bytes, number)) in ROWS.iter().enumerate() {
        let expected = match RecordKind::from_number(*number) {
            Some(kind) => Ok((kind, true)),
            None => Err(RecordError::BadRecord),
        };
        assert_same_at(&rt, kind_of(rt.alloc(), bytes), expected, case);
        assert_same_at(
            &rt,
            RecordKind::of(bytes),
            RecordKind::from_number(*number),
            case,
        );
    }
}

#[test]
fn longest_text(rt: HostRuntime) {
    let mut bytes = vec![in rt.alloc(); 0x44; 1_000_001].expect(&rt, "memory");
    let expected = Ok((RecordKind::Text, true));
    assert_same_at(&rt, kind_of(rt.alloc(), &bytes), expected, 1_000_001);
    bytes.push(0x61).expect(&rt, "memory");
    let none = Err(RecordError::BadRecord);
    assert_same_at(&rt, kind_of(rt.alloc(), &bytes), none, 1_000_002);
}
