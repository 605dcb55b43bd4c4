//! The batch of two texts.

use crate::asserts::assert_same;
use krb_record::{batch_bytes, read_batch};
use std::test::Fail;

#[test]
fn batch_of_two(rt: HostRuntime) -> Result<(), Fail> {
    let texts = read_batch(rt.alloc(), b"\x42\0\0\0\x01\x61\0\0\0\x01\x62")?;
    assert_same(&rt, texts.as_slice().len(), 2);
    let bytes = batch_bytes(rt.alloc(), texts.as_slice())?;
    assert_same(
        &rt,
        bytes.as_slice(),
        b"\x42\0\0\0\x01\x61\0\0\0\x01\x62".as_slice(),
    );
    Ok(())
}
