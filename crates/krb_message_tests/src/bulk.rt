//! Messages sealed in one call.

ghost use Rattle.std.specs.Prelude.{◌≡◌, ◌≤◌, IfOk, length};
ghost use Rattle.krb_seal.specs.Session.{HasShortAddresses, IsShortAddress};

use krb_bulk::{ManyError, Unsealed, are_many, frames_of, seal_many};
use krb_der::{Bytes, HostAddress, Moment};
use krb_seal::{Mode, SealError, Sealer, Session, SessionKey, SessionSealer};
use sha1::Sha1;
use std::alloc::{AllocError, Global};
use std::process::Abort;
use std::test::Fail;

/// 2023-11-14T22:13:20Z and 5 microseconds.
const MICROS: u64 = 1_700_000_000_000_005;

const KEY_128: [u8; 16] = [
    0x00, 0x01, 0x02, 0x03, 0x04, 0x05, 0x06, 0x07, 0x08, 0x09, 0x0a, 0x0b, 0x0c, 0x0d, 0x0e, 0x0f,
];

const KEY_256: [u8; 32] = [0x11; 32];

/// How many messages are sealed: twice eight, four, and one.
const COUNT: usize = 21;

/// The SHA-1 of their frames, one after another, as `tests/frames.py` prints it.
static DIGESTS: [(bool, Mode, [u8; 20]); 4] = [
    (
        false,
        Mode::Safe,
        [
            0x97, 0x94, 0xe8, 0xb7, 0x79, 0x50, 0x89, 0x9b, 0x17, 0x64, 0x50, 0xba, 0x06, 0xf1,
            0x09, 0x79, 0xbe, 0x02, 0x99, 0x47,
        ],
    ),
    (
        true,
        Mode::Safe,
        [
            0x2a, 0x59, 0x6c, 0x80, 0xd7, 0xd4, 0x1b, 0x47, 0xa5, 0x10, 0xa9, 0xc5, 0xf9, 0x29,
            0x08, 0x67, 0x80, 0x7f, 0xf3, 0xcd,
        ],
    ),
    (
        false,
        Mode::Priv,
        [
            0x55, 0xfc, 0x68, 0xc1, 0x77, 0xf9, 0x8f, 0xe9, 0xe9, 0x5d, 0x5e, 0xb4, 0x93, 0xc7,
            0x6a, 0xeb, 0x53, 0x4c, 0xc2, 0x84,
        ],
    ),
    (
        true,
        Mode::Priv,
        [
            0x9c, 0xd2, 0xf3, 0xfb, 0x39, 0x81, 0x90, 0xe1, 0x94, 0x7b, 0xed, 0x81, 0x48, 0xa9,
            0xa8, 0x5f, 0xa5, 0xd9, 0xe4, 0xc3,
        ],
    ),
];

/// The address 10.0.0.1.
fn address(alloc: Global) -> Result<HostAddress, AllocError>
    ensures { IfOk result IsShortAddress }
{
    Ok(HostAddress {
        kind: 2,
        bytes: Bytes::new(Vec::from_slice(alloc, &[10, 0, 0, 1])?),
    })
}

/// The session of 10.0.0.1 from a number on.
fn session(alloc: Global, mode: Mode, first: u32) -> Result<Session, AllocError>
    ensures { IfOk result HasShortAddresses }
{
    Ok(Session {
        mode,
        s_addr: address(alloc)?,
        r_addr: None,
        first,
    })
}

/// A sealer of encryption type 18 where `wide`, else 17.
fn sealer(alloc: Global, wide: bool, mode: Mode, first: u32) -> Result<SessionSealer, AllocError> {
    let key = if wide {
        SessionKey::new_256(&mut { KEY_256 })
    } else {
        SessionKey::new_128(&mut { KEY_128 })
    };
    Ok(SessionSealer::new(key, session(alloc, mode, first)?))
}

/// The bytes of which each message has some: 5 k + 1 at each place k.
fn pattern(alloc: Global) -> Result<Vec<u8>, AllocError> {
    let mut bytes = Vec::new(alloc);
    let mut byte = 1u8;
    for _ in 0..300 {
        bytes.push(byte)?;
        byte = byte.wrapping_add(5);
    }
    Ok(bytes)
}

/// Puts messages of these sizes into a buffer. Message k has the bytes of the pattern from place k on, and a
/// timestamp of k seconds and microseconds more than the first. Out of memory is also a pattern that is too
/// short.
fn put_messages<'a>(
    pattern: &'a [u8],
    sizes: &[usize],
    messages: &mut [Unsealed<'a>],
) -> Result<(), AllocError>
    requires { length sizes.now ≤ length messages.old }
{
    let (mut byte, mut micros) = (0u8, MICROS);
    for k in 0..sizes.len() {
        let Some(user_data) = pattern.get(k..k.saturating_add(sizes[k])) else {
            return Err(AllocError);
        };
        let Some(at) = Moment::from_micros(micros) else {
            return Err(AllocError);
        };
        messages[k] = Unsealed {
            user_data,
            at,
            confounder: [byte; 16],
        };
        byte = byte.wrapping_add(1);
        micros = micros.wrapping_add(1_000_001);
    }
    Ok(())
}

/// The same in a buffer of their number.
fn messages<'a>(
    alloc: Global,
    pattern: &'a [u8],
    sizes: &[usize],
) -> Result<Vec<Unsealed<'a>>, AllocError> {
    let Some(at) = Moment::from_micros(MICROS) else {
        return Err(AllocError);
    };
    let none = Unsealed {
        user_data: &[],
        at,
        confounder: [0; 16],
    };
    let mut messages = Vec::from_elem(alloc, none, sizes.len())?;
    put_messages(pattern, sizes, &mut messages)?;
    Ok(messages)
}

/// The sizes of the messages whose frames are known: 13 k.
fn known_sizes(alloc: Global) -> Result<Vec<usize>, AllocError> {
    let mut sizes = Vec::new(alloc);
    for k in 0..COUNT {
        sizes.push(13 * k)?;
    }
    Ok(sizes)
}

/// The digest of frames, one after another.
fn digest_of(frames: &[Vec<u8>]) -> [u8; 20] {
    let mut hash = Sha1::new();
    for frame in frames {
        hash.update(frame.as_slice());
    }
    hash.finalize()
}

#[test]
fn frames_are_those_of_another_sealer(rt: HostRuntime) -> Result<(), Fail> {
    let pattern = pattern(rt.alloc())?;
    let messages = messages(rt.alloc(), &pattern, &known_sizes(rt.alloc())?)?;
    for (wide, mode, digest) in &DIGESTS {
        let mut sealer = sealer(rt.alloc(), *wide, *mode, 7)?;
        let unsent = frames_of(rt.alloc(), &sealer, &messages)?;
        assert_eq!(rt; digest_of(&unsent).as_slice(), digest.as_slice());
        assert_eq!(rt; sealer.next(), 7);
        let frames = seal_many(rt.alloc(), &mut sealer, &messages)?;
        assert_eq!(rt; frames.len(), COUNT);
        assert_eq!(rt; digest_of(&frames).as_slice(), digest.as_slice());
        assert_eq!(rt; sealer.next(), 7 + COUNT as u64);
    }
    Ok(())
}

#[test]
fn a_key_for_several_codes_is_of_the_present_mode(rt: HostRuntime) -> Result<(), Fail> {
    let pattern = pattern(rt.alloc())?;
    let messages = messages(rt.alloc(), &pattern, &known_sizes(rt.alloc())?)?;
    for (wide, mode, digest) in &DIGESTS {
        let other = match mode {
            Mode::Safe => Mode::Priv,
            Mode::Priv => Mode::Safe,
        };
        let mut sealer = sealer(rt.alloc(), *wide, other, 7)?;
        assert!(rt; sealer.prepare_batch().is_some());
        sealer.set_mode(*mode);
        let singly = frames_of(rt.alloc(), &sealer, &messages)?;
        assert_eq!(rt; digest_of(&singly).as_slice(), digest.as_slice());
        assert!(rt; sealer.prepare_batch().is_some());
        let together = frames_of(rt.alloc(), &sealer, &messages)?;
        assert_eq!(rt; digest_of(&together).as_slice(), digest.as_slice());
    }
    Ok(())
}

#[test]
fn eight_are_many(rt: HostRuntime) {
    assert!(rt; !are_many(0));
    assert!(rt; !are_many(7));
    assert!(rt; are_many(8));
    assert!(rt; are_many(usize::MAX));
}

/// What sealing messages of these sizes answers, and the next number then.
fn answered(
    alloc: Global,
    sealer: &mut SessionSealer,
    pattern: &[u8],
    sizes: &[usize],
) -> Result<(Option<ManyError>, u64), AllocError> {
    let messages = messages(alloc, pattern, sizes)?;
    let error = seal_many(alloc, sealer, &messages).err();
    Ok((error, sealer.next()))
}

/// Message `index` can't be sealed.
fn refused(index: usize, why: SealError) -> Option<ManyError> {
    Some(ManyError::Refused { index, why })
}

#[test]
fn the_first_message_that_fails_is_named(rt: HostRuntime) -> Result<(), Fail> {
    let alloc = rt.alloc();
    let bytes = Vec::from_elem(alloc, 0u8, 1_000_010)?;
    let mut last = sealer(alloc, false, Mode::Priv, u32::MAX - 1)?;
    let exhausted = answered(alloc, &mut last, &bytes, &[0, 13, 26])?;
    assert_eq!(rt;
        exhausted,
        (refused(2, SealError::Exhausted), 4_294_967_294)
    );
    let too_long = answered(alloc, &mut last, &bytes, &[0, 13, 1_000_002])?;
    assert_eq!(rt; too_long, (refused(2, SealError::TooLong), 4_294_967_294));
    let sealed = answered(alloc, &mut last, &bytes, &[0, 13])?;
    assert_eq!(rt; sealed, (None, 4_294_967_296));
    last.wipe();
    let wiped = answered(alloc, &mut last, &bytes, &[0, 13])?;
    assert_eq!(rt; wiped, (refused(0, SealError::Wiped), 4_294_967_296));
    let none = answered(alloc, &mut last, &bytes, &[])?;
    assert_eq!(rt; none, (None, 4_294_967_296));
    Ok(())
}

#[test]
fn an_error_names_its_message(rt: HostRuntime) -> Result<(), Fail> {
    let error = ManyError::Refused {
        index: 3,
        why: SealError::Wiped,
    };
    let text = error.to_string(rt.alloc())?;
    assert_eq!(rt; text.as_str(), "message 3: the sealer was wiped");
    Ok(())
}
