//! The same messages, read without a copy.

use super::{PRIV_WITH_KVNO, SAFE, SAFE_TO_RECEIVER, decode_safe};
use crate::asserts::assert_same;
use krb_der::{
    DerError, HostAddress, Message, MessageRef, PrivRef, SafeRef, decode_borrowed, encode_priv,
    encode_safe,
};
use std::alloc::{AllocError, Global};
use std::test::Fail;

fn safe(bytes: &[u8]) -> Result<SafeRef<'_>, DerError> {
    match decode_borrowed(bytes)? {
        MessageRef::Safe(m) => Ok(m),
        MessageRef::Priv(_) => Err(DerError::Malformed),
    }
}

fn private(bytes: &[u8]) -> Result<PrivRef<'_>, DerError> {
    match decode_borrowed(bytes)? {
        MessageRef::Priv(m) => Ok(m),
        MessageRef::Safe(_) => Err(DerError::Malformed),
    }
}

fn ipv4(alloc: Global, last: u8) -> Result<HostAddress, AllocError> {
    HostAddress::new(alloc, 2, &[10, 0, 0, last])
}

#[test]
fn safe_message_lies_in_its_bytes(rt: HostRuntime) -> Result<(), Fail> {
    let m = safe(&SAFE)?;
    assert_same(&rt, (m.pvno(), m.msg_type(), m.cksum_type()), (5, 20, 0));
    assert_same(&rt, m.checksum().len(), 0);
    let body = m.body();
    assert_same(&rt, body.user_data(), [0x44, 0x68, 0x69].as_slice());
    assert_same(&rt, body.time(), (Some(1_700_000_000), Some(5)));
    assert_same(&rt, body.seq(), Some(7));
    let sender = ipv4(rt.alloc(), 1)?;
    let other = ipv4(rt.alloc(), 255)?;
    assert!(rt; body.s_addr().is(&sender) && !body.s_addr().is(&other));
    assert!(rt; body.r_addr().is_none());
    assert!(rt; body.s_addr().to_owned(rt.alloc())?.same(&sender));
    let owned = decode_safe(rt.alloc(), &SAFE)?;
    assert_same(&rt, owned.borrowed().body().seq(), Some(7));
    Ok(())
}

#[test]
fn receiver_is_read_where_it_lies(rt: HostRuntime) -> Result<(), Fail> {
    let m = safe(&SAFE_TO_RECEIVER)?;
    let body = m.body();
    assert_same(
        &rt,
        (body.time(), body.seq()),
        ((None, None), Some(u32::MAX)),
    );
    let receiver = ipv4(rt.alloc(), 255)?;
    match body.r_addr() {
        Some(address) => assert!(rt; address.is(&receiver)),
        None => assert!(rt; false, "no receiver"),
    }
    Ok(())
}

#[test]
fn private_message_lies_in_its_bytes(rt: HostRuntime) -> Result<(), Fail> {
    let m = private(&PRIV_WITH_KVNO)?;
    assert_same(&rt, (m.pvno(), m.msg_type(), m.etype()), (5, 21, 17));
    assert_same(&rt, (m.kvno(), m.cipher().len()), (Some(3), 0));
    let owned = m.to_owned(rt.alloc())?;
    let written = encode_priv(rt.alloc(), &owned)?;
    assert_same(&rt, written.as_slice(), PRIV_WITH_KVNO.as_slice());
    Ok(())
}

/// The message, with byte strings of its own, written again.
fn owned_again(alloc: Global, bytes: &[u8]) -> Result<Vec<u8>, DerError> {
    match decode_borrowed(bytes)?.to_owned(alloc)? {
        Message::Safe(m) if m.body.in_range() => encode_safe(alloc, &m),
        Message::Safe(_) => Err(DerError::Malformed),
        Message::Priv(m) => encode_priv(alloc, &m),
    }
}

#[test]
fn borrowed_messages_are_copied_whole(rt: HostRuntime) -> Result<(), Fail> {
    for bytes in [SAFE.as_slice(), &SAFE_TO_RECEIVER, &PRIV_WITH_KVNO] {
        let again = owned_again(rt.alloc(), bytes)?;
        assert_same(&rt, again.as_slice(), bytes);
    }
    let body = safe(&SAFE)?.body().to_owned(rt.alloc())?;
    assert_same(&rt, body.borrowed().seq(), Some(7));
    assert_same(
        &rt,
        body.user_data.as_slice(),
        [0x44, 0x68, 0x69].as_slice(),
    );
    // What spells nothing, and what is too long.
    assert_same(&rt, safe(&SAFE[1..]).err(), Some(DerError::Malformed));
    let long = vec![in rt.alloc(); 0u8; 1_005_001]?;
    assert_same(&rt, safe(&long).err(), Some(DerError::TooLong));
    Ok(())
}
