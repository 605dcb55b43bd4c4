//! What a forgery shows: somebody who has the session's key seals another record at one of its numbers, and a receiver
//! opens it. From the frame come bytes that the session's sender never coded, and their code.
#![tactic(auto)]

ghost use Rattle.std.specs.Prelude.{◌≡◌, IfOk};
ghost use Rattle.krb_seal.specs.Session.{HasShortAddresses};

use anyhow::Context;
use krb_der::{HostAddress, Moment};
use krb_forgery::{code_in, shown};
use krb_seal::{Aes256Sealer, Expect, Mode, Opener, Sealer, Session};
use std::alloc::{AllocError, Global};

/// The session of 10.0.0.1 from the number 7 on.
fn session(alloc: Global) -> Result<Session, AllocError>
    ensures short { IfOk result HasShortAddresses }
    ensures first { IfOk result (λ session. session.first ≡ 7) }
{
    Ok(Session {
        mode: Mode::Priv,
        s_addr: HostAddress::new(alloc, 2, &[10, 0, 0, 1])?,
        r_addr: None,
        first: 7,
    })
}

/// What 10.0.0.255 demands of each message from 10.0.0.1.
fn expect(alloc: Global) -> Result<Expect, AllocError> {
    Ok(Expect {
        mode: Mode::Priv,
        s_addr: HostAddress::new(alloc, 2, &[10, 0, 0, 1])?,
        r_addr: HostAddress::new(alloc, 2, &[10, 0, 0, 255])?,
        require_r: false,
        expect_time: true,
        skew: 300,
    })
}

/// The bytes under the code of a frame, and the code, in hexadecimal digits.
fn shown_digits(opener: &Opener, alloc: Global, frame: &[u8]) -> anyhow::Result<(String, String)> {
    let covered = shown(opener, alloc, frame).context("nothing is shown")?;
    let bytes = hex::encode(alloc, covered.bytes())?;
    let code = hex::encode(alloc, code_in(&covered))?;
    Ok((bytes, code))
}

fn main(rt: HostRuntime) -> anyhow::Result<()> {
    let (alloc, key) = (rt.alloc(), [0x11; 32]);
    let at = Moment::from_micros(1_700_000_000_000_005).context("no such time")?;
    let mut forger = Aes256Sealer::new(&mut { key }, session(alloc)?);
    let frame = forger.seal(alloc, b"hi", at, [7; 16])?;
    let opener = Opener::new_256(&mut { key }, expect(alloc)?);
    let data = opener.unseal(alloc, &frame, 7, at)?;
    println!(rt; "opened at 7: {} bytes", data.len())?;
    let (bytes, code) = shown_digits(&opener, alloc, &frame)?;
    println!(rt; "bytes: {bytes}")?;
    println!(rt; "code: {code}")?;
    Ok(())
}
