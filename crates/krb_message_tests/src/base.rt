//! Byte strings on the heap, and those that are overwritten when they end.

use crate::asserts::assert_same;
use krb_base::{Bytes, Secret};
use std::test::Fail;

#[test]
fn bytes_give_back_what_they_were_made_of(rt: HostRuntime) -> Result<(), Fail> {
    let bytes = Bytes::new(vec![in rt.alloc(); 0x68, 0x69]?);
    assert_same(&rt, bytes.as_slice(), b"hi".as_slice());
    assert_same(&rt, bytes.into_vec().as_slice(), b"hi".as_slice());
    Ok(())
}

#[test]
fn part_of_bytes_is_cut_out_shown_and_copied(rt: HostRuntime) -> Result<(), Fail> {
    let bytes = Bytes::new(Vec::from_slice(rt.alloc(), b"0123456789")?);
    let part = bytes.cut(2, 9).cut(1, 5);
    assert_same(&rt, part.as_slice(), b"3456".as_slice());
    let shown = format!(in rt.alloc(); "{part:?}")?;
    assert!(rt; shown.as_str() == "[51, 52, 53, 54]");
    assert_same(&rt, part.clone()?.as_slice(), b"3456".as_slice());
    assert_same(&rt, part.into_vec().as_slice(), b"3456".as_slice());
    Ok(())
}

#[test]
fn secret_of_a_part_grows_and_is_given_back(rt: HostRuntime) -> Result<(), Fail> {
    let bytes = Bytes::new(Vec::from_slice(rt.alloc(), b"0123456789")?);
    let mut secret = Secret::from(bytes.cut(2, 7));
    assert!(rt; secret.as_slice() == b"23456".as_slice());
    secret.append(rt.alloc(), b"abc")?;
    assert!(rt; secret.into_bytes(rt.alloc()).as_slice() == b"23456abc".as_slice());
    Ok(())
}

#[test]
fn secret_grows_shows_no_byte_and_is_given_back(rt: HostRuntime) -> Result<(), Fail> {
    let mut secret = Secret::new(Vec::from_slice(rt.alloc(), b"0")?);
    for digit in b"123456789" {
        secret.append(rt.alloc(), &[*digit])?;
    }
    assert!(rt; secret.as_slice() == b"0123456789".as_slice());
    let shown = format!(in rt.alloc(); "{secret:?}")?;
    assert!(rt; shown.as_str() == "Secret");
    assert!(rt; secret.into_vec(rt.alloc()).as_slice() == b"0123456789".as_slice());
    Ok(())
}
