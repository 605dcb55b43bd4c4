//! Addresses (HostAddress of RFC 4120, section 5.2.5): made, cloned, compared, and encoded once.

use super::{SAFE, SAFE_TO_RECEIVER, decode_safe};
use crate::asserts::{assert_same, assert_same_at};
use krb_der::{Addresses, BodyRef, DerError, HostAddress, Moment, SafeDraft, SafeRef, draft_safe};
use std::alloc::Global;
use std::test::Fail;

/// Addresses by type and bytes, and whether each is the sender's of `SAFE`.
static ADDRESSES: [(i32, &[u8], bool); 3] = [
    (2, &[10, 0, 0, 1], true),
    (3, &[10, 0, 0, 1], false),
    (2, &[10, 0, 0], false),
];

#[test]
fn address_is_made_of_its_parts_and_cloned(rt: HostRuntime) -> Result<(), Fail> {
    let alloc = rt.alloc();
    let message = decode_safe(alloc, &SAFE)?;
    let sender = &message.body.s_addr;
    for (kind, bytes, same) in ADDRESSES {
        let made = HostAddress::new(alloc, kind, bytes)?;
        let copy = made.clone()?;
        let found = (made.same(sender), copy.same(sender));
        assert_same_at(&rt, found, (same, same), kind);
    }
    Ok(())
}

/// The message of `SAFE` between these addresses, up to its checksum.
fn draft_between(alloc: Global, addresses: &Addresses<'_>) -> Result<SafeDraft, DerError> {
    let Some(at) = Moment::from_micros(1_700_000_000_000_005) else {
        return Err(DerError::Malformed);
    };
    let body = BodyRef::between(&[0x44, 0x68, 0x69], at, 7, addresses);
    draft_safe(alloc, &SafeRef::unsigned(5, 20, body, 0), 0)
}

#[test]
fn addresses_are_encoded_once(rt: HostRuntime) -> Result<(), Fail> {
    let alloc = rt.alloc();
    let sender = HostAddress::new(alloc, 2, &[10, 0, 0, 1])?;
    let receiver = Some(HostAddress::new(alloc, 2, &[10, 0, 0, 255])?);
    let alone = Addresses::new(alloc, &sender, &None)?;
    let whole = draft_between(alloc, &alone)?.with_checksum(0, &[])?;
    assert_same(&rt, whole.as_slice(), SAFE.as_slice());
    // Both fields stand at the end of the fields before the checksum.
    let both = Addresses::new(alloc, &sender, &receiver)?;
    let draft = draft_between(alloc, &both)?;
    let last = draft.bytes.get(draft.bytes.len().saturating_sub(34)..);
    assert_same(&rt, last, SAFE_TO_RECEIVER.get(31..65));
    Ok(())
}
