//! A KRB-PRIV whose encrypted part is written where its cipher will be.

use super::{PART, SAFE, decode_safe};
use crate::asserts::assert_same;
use krb_der::{Body, Bytes, DerError, Draft, Message, PrivMsg, decode, draft_priv};
use std::alloc::Global;
use std::process::Abort;

/// Encryption type 17 with no cipher.
fn without_cipher(alloc: Global) -> PrivMsg {
    PrivMsg {
        pvno: 5,
        msg_type: 21,
        etype: 17,
        kvno: None,
        cipher: Bytes::new(Vec::new(alloc)),
    }
}

/// The draft with a body's part after 16 bytes, and with room for 12 bytes after it.
fn draft(rt: &(impl Abort + Alloc<A = Global>), body: &Body) -> Result<Draft, DerError> {
    assert!(rt; body.in_range());
    let message = without_cipher(rt.alloc());
    draft_priv(rt.alloc(), &message, &[7; 16], &body.borrowed(), 12)
}

fn draft_of_safe(rt: &(impl Abort + Alloc<A = Global>)) -> Result<Draft, DerError> {
    let m = decode_safe(rt.alloc(), &SAFE)?;
    draft(rt, &m.body)
}

fn cipher_size(alloc: Global, bytes: &[u8]) -> Result<usize, DerError> {
    match decode(alloc, bytes)? {
        Message::Priv(m) => Ok(m.cipher.as_slice().len()),
        Message::Safe(_) => Err(DerError::Malformed),
    }
}

/// How many bytes the cipher has of the message that the draft is with the rest of its cipher.
fn size_with_rest(alloc: Global, draft: Draft) -> Result<usize, DerError> {
    let mut bytes = draft.bytes;
    bytes.extend_from_slice(&[9; 12])?;
    cipher_size(alloc, bytes.as_slice())
}

#[test]
fn part_is_drafted_where_its_cipher_is_to_be(rt: HostRuntime) {
    let draft = draft_of_safe(&rt).expect(&rt, "a draft");
    let text = draft.bytes.get(draft.start..).unwrap_or(&[]);
    assert!(rt; text.starts_with(&[7; 16]) && text.ends_with(&PART));
    assert_same(
        &rt,
        draft.bytes.capacity().saturating_sub(draft.bytes.len()),
        12,
    );
    assert_same(&rt, size_with_rest(rt.alloc(), draft), Ok(85));
}
