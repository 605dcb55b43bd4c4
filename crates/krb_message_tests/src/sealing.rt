//! Frames of an independent sealer (`tests/frames.py`): each sealer seals them, an opener opens them,
//! what they carry is authentic, and a receiver takes them.

mod authentic;
mod frames;
mod records;
mod sweep;

ghost use Rattle.std.specs.Prelude.{IfOk};
ghost use Rattle.krb_seal.specs.Session.{HasShortAddresses, IsShortAddress};

use crate::peers_asserts::assert_same;
use frames::{PRIV_17, PRIV_17_OTHER, PRIV_18, SAFE_17, SAFE_18};
use krb_der::{Bytes, HostAddress, Moment};
use krb_seal::{
    Aes128Sealer, Aes256Sealer, Expect, Mode, Opener, Refusal, SealError, Sealer, Session,
    SessionKey, SessionSealer, Unopened, checksum_input, put_checksum_input,
};
use std::alloc::{AllocError, Global};
use std::process::Abort;
use std::test::Fail;

/// 2023-11-14T22:13:20Z and 5 microseconds.
const MICROS: u64 = 1_700_000_000_000_005;

const KEY_128: [u8; 16] = [
    0x00, 0x01, 0x02, 0x03, 0x04, 0x05, 0x06, 0x07, 0x08, 0x09, 0x0a, 0x0b, 0x0c, 0x0d, 0x0e, 0x0f,
];

const KEY_256: [u8; 32] = [0x11; 32];

/// The address 10.0.0.`host`.
fn address(alloc: Global, host: u8) -> Result<HostAddress, AllocError>
    ensures { IfOk result IsShortAddress }
{
    Ok(HostAddress {
        kind: 2,
        bytes: Bytes::new(Vec::from_slice(alloc, &[10, 0, 0, host])?),
    })
}

/// The session of 10.0.0.1 from a number on.
fn session(alloc: Global, mode: Mode, first: u32) -> Result<Session, AllocError>
    ensures { IfOk result HasShortAddresses }
{
    Ok(Session {
        mode,
        s_addr: address(alloc, 1)?,
        r_addr: None,
        first,
    })
}

/// A session key of encryption type 18 where `wide`, else 17.
fn key(wide: bool) -> SessionKey {
    if wide {
        SessionKey::new_256(&mut { KEY_256 })
    } else {
        SessionKey::new_128(&mut { KEY_128 })
    }
}

/// A new opener of 10.0.0.1.
fn opener(alloc: Global, wide: bool, mode: Mode) -> Result<Opener, AllocError> {
    let expect = Expect {
        mode,
        s_addr: address(alloc, 1)?,
        r_addr: address(alloc, 255)?,
        require_r: false,
        expect_time: true,
        skew: 300,
    };
    Ok(Opener::new(key(wide), expect))
}

/// What a sealer seals of the user data 44 68 69, under a confounder of these bytes.
fn sealed(alloc: Global, sealer: &mut impl Sealer, byte: u8) -> Result<Vec<u8>, SealError> {
    let at = Moment::from_micros(MICROS).ok_or(SealError::Memory)?;
    sealer.seal(alloc, b"Dhi", at, [byte; 16])
}

/// What a new sealer from 7 on seals first: one of a session key, or one of its type.
fn first_frame(
    alloc: Global,
    of_key: bool,
    wide: bool,
    mode: Mode,
    byte: u8,
) -> Result<Vec<u8>, SealError> {
    let session = session(alloc, mode, 7)?;
    if of_key {
        return sealed(alloc, &mut SessionSealer::new(key(wide), session), byte);
    }
    if wide {
        let mut sealer = Aes256Sealer::new(&mut { KEY_256 }, session);
        return sealed(alloc, &mut sealer, byte);
    }
    sealed(
        alloc,
        &mut Aes128Sealer::new(&mut { KEY_128 }, session),
        byte,
    )
}

/// Asserts that a frame with the number 7 was refused by its number, which was told.
fn assert_misordered(rt: &impl Abort, answer: Result<Bytes, Unopened>) {
    match answer {
        Ok(_) => assert!(rt; false),
        Err(unopened) => {
            assert_same(rt, unopened.refusal, Refusal::BadOrder);
            assert_same(rt, unopened.number, Some(7));
        }
    }
}

/// The encryption type, the mode, the bytes of the confounder, and the frame.
static FRAMES: [(bool, Mode, u8, &[u8]); 5] = [
    (false, Mode::Safe, 0, &SAFE_17),
    (true, Mode::Safe, 0, &SAFE_18),
    (false, Mode::Priv, 0, &PRIV_17),
    (false, Mode::Priv, 1, &PRIV_17_OTHER),
    (true, Mode::Priv, 0, &PRIV_18),
];

#[test]
fn frames_are_those_of_another_sealer(rt: HostRuntime) -> Result<(), Fail> {
    let now = Moment::from_micros(MICROS).ok_or("a moment")?;
    for (wide, mode, byte, expected) in &FRAMES {
        for of_key in [false, true] {
            let frame = first_frame(rt.alloc(), of_key, *wide, *mode, *byte)?;
            assert_same(&rt, frame.as_slice(), *expected);
        }
        let opener = opener(rt.alloc(), *wide, *mode)?;
        let data = opener.unseal(rt.alloc(), expected, 7, now)?;
        assert_same(&rt, data.as_slice(), b"Dhi".as_slice());
        assert_misordered(&rt, opener.unseal_telling(rt.alloc(), expected, 8, now));
    }
    Ok(())
}

/// What stands before the fields of `SAFE_17` under its checksum, worked out by hand.
const BEFORE_FIELDS: [u8; 4] = [0x74, 0x52, 0x30, 0x50];

/// What stands after them: checksum type 0 and an empty checksum (RFC 4120 section 5.6.1).
const AFTER_FIELDS: [u8; 13] = [
    0xa3, 0x0b, 0x30, 0x09, 0xa0, 0x03, 0x02, 0x01, 0x00, 0xa1, 0x02, 0x04, 0x00,
];

#[test]
fn checksum_is_over_the_message_without_one(rt: HostRuntime) -> Result<(), Fail> {
    let fields = &SAFE_17[4..71];
    let mut expected = Vec::from_slice(rt.alloc(), &BEFORE_FIELDS)?;
    expected.extend_from_slice(fields)?;
    expected.extend_from_slice(&AFTER_FIELDS)?;
    let input = checksum_input(rt.alloc(), fields)?;
    assert_same(&rt, input.as_slice(), expected.as_slice());
    let mut bytes = Vec::from_slice(rt.alloc(), &[1, 2])?;
    put_checksum_input(&mut bytes, fields)?;
    assert_same(&rt, bytes.get(..2), Some([1, 2].as_slice()));
    assert_same(&rt, bytes.get(2..), Some(expected.as_slice()));
    Ok(())
}
