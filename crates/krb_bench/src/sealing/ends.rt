//! Both ends of a session.

ghost use Rattle.std.specs.Prelude.{IfOk};
ghost use Rattle.krb_seal.specs.Session.{HasShortAddresses};

use krb_der::{HostAddress, Moment};
use krb_seal::{
    Aes128Sealer, Aes256Sealer, Etype, Expect, Mode, Opener, SealError, Sealer, Session,
    SessionKey, SessionSealer,
};
use std::alloc::{AllocError, Global};

/// 2023-11-14T22:13:20Z and 5 microseconds.
const MICROS: u64 = 1_700_000_000_000_005;

fn session(alloc: Global, mode: Mode) -> Result<Session, AllocError>
    ensures { IfOk result HasShortAddresses }
{
    Ok(Session {
        mode,
        s_addr: HostAddress::new(alloc, 2, &[10, 0, 0, 1])?,
        r_addr: None,
        first: 0,
    })
}

fn expectation(alloc: Global, mode: Mode) -> Result<Expect, AllocError> {
    Ok(Expect {
        mode,
        s_addr: HostAddress::new(alloc, 2, &[10, 0, 0, 1])?,
        r_addr: HostAddress::new(alloc, 2, &[10, 0, 0, 2])?,
        require_r: false,
        expect_time: true,
        skew: 300,
    })
}

/// The two ends of a session of encryption type 17.
pub fn ends_128(alloc: Global, mode: Mode) -> Result<(Aes128Sealer, Opener), AllocError> {
    let key = *b"chicken teriyaki";
    Ok((
        Aes128Sealer::new(&mut { key }, session(alloc, mode)?),
        Opener::new_128(&mut { key }, expectation(alloc, mode)?),
    ))
}

/// The two ends of a session of encryption type 18.
pub fn ends_256(alloc: Global, mode: Mode) -> Result<(Aes256Sealer, Opener), AllocError> {
    let key = *b"chicken teriyaki and wonton soup";
    Ok((
        Aes256Sealer::new(&mut { key }, session(alloc, mode)?),
        Opener::new_256(&mut { key }, expectation(alloc, mode)?),
    ))
}

fn key_of(etype: Etype) -> SessionKey {
    match etype {
        Etype::Aes128 => SessionKey::new_128(&mut { *b"chicken teriyaki" }),
        Etype::Aes256 => SessionKey::new_256(&mut { *b"chicken teriyaki and wonton soup" }),
    }
}

/// The sealer of a session whose type is known when it runs.
pub fn sealer_of(alloc: Global, etype: Etype, mode: Mode) -> Result<SessionSealer, AllocError> {
    Ok(SessionSealer::new(key_of(etype), session(alloc, mode)?))
}

/// The opener of such a session.
pub fn opener_of(alloc: Global, etype: Etype, mode: Mode) -> Result<Opener, AllocError> {
    Ok(Opener::new(key_of(etype), expectation(alloc, mode)?))
}

/// Seals the data so many times, and gives the last frame. Each frame is kept until the next is
/// made, so that the allocator doesn't give a large one back to the system between the two.
pub fn seal_often<S: Sealer>(
    alloc: Global,
    sealer: &mut S,
    data: &[u8],
    at: Moment,
    times: u32,
) -> Result<Vec<u8>, SealError> {
    let mut last = Vec::new(alloc);
    for _ in 0..times {
        last = sealer.seal(alloc, data, at, [7; 16])?;
    }
    Ok(last)
}

/// Opens the frame so many times, and says how often it gave its data. The data are kept until the
/// next are there, as a frame is.
pub fn open_often(
    alloc: Global,
    opener: &Opener,
    frame: &[u8],
    number: u64,
    at: Moment,
    times: u32,
) -> u32 {
    let mut opened = 0u32;
    let mut last = Vec::new(alloc);
    for _ in 0..times {
        if let Ok(data) = opener.unseal(alloc, frame, number, at) {
            opened = opened.saturating_add(1);
            last = data;
        }
    }
    drop(last);
    opened
}

/// The timestamp of each message.
pub fn moment() -> Option<Moment> {
    Moment::from_micros(MICROS)
}
