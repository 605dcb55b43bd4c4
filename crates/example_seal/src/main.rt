//! Seals one text as a KRB-PRIV message (RFC 4120 section 3.5), opens it at its own sequence
//! number, and prints how it is refused at another.
#![tactic(auto)]

ghost use Rattle.std.specs.Prelude.{IfOk};
ghost use Rattle.krb_seal.specs.Session.{HasShortAddresses};

use anyhow::{Context, Result};
use krb_der::{HostAddress, Moment};
use krb_seal::{Aes256Sealer, Expect, Mode, Opener, Sealer, Session};
use std::alloc::{AllocError, Global};

/// The session key, of encryption type 18, which both ends have from their exchange.
const KEY: [u8; 32] = [0x11; 32];

/// Sixteen bytes that a program draws anew for each message. Here they are fixed, so that the
/// program always prints the same.
const CONFOUNDER: [u8; 16] = [7; 16];

/// 2023-11-14T22:13:20Z and 5 microseconds.
const MICROS: u64 = 1_700_000_000_000_005;

/// What 10.0.0.1 writes into each message, the first of which has the number 7.
fn session(alloc: Global) -> Result<Session, AllocError>
    ensures { IfOk result HasShortAddresses }
{
    Ok(Session {
        mode: Mode::Priv,
        s_addr: HostAddress::new(alloc, 2, &[10, 0, 0, 1])?,
        r_addr: None,
        first: 7,
    })
}

/// What 10.0.0.255 demands of each message from 10.0.0.1: its time may be five minutes off.
fn expect(alloc: Global) -> Result<Expect, AllocError> {
    Ok(Expect {
        mode: Mode::Priv,
        s_addr: HostAddress::new(alloc, 2, &[10, 0, 0, 1])?,
        r_addr: HostAddress::new(alloc, 2, &[10, 0, 0, 255])?,
        require_r: false,
        expect_time: true,
        skew: 300,
    })
}

fn main(rt: HostRuntime) -> Result<()> {
    let alloc = rt.alloc();
    let at = Moment::from_micros(MICROS).context("past the year 9999")?;

    let mut sealer = Aes256Sealer::new(&mut { KEY }, session(alloc)?);
    let frame = sealer.seal(alloc, b"hi", at, CONFOUNDER)?;
    println!(rt; "sealed: {} bytes", frame.len())?;

    let opener = Opener::new_256(&mut { KEY }, expect(alloc)?);
    for number in [7, 8] {
        match opener.unseal(alloc, &frame, number, at) {
            Ok(data) => println!(rt; "at {number}: {}", String::from_utf8(data)?)?,
            Err(refusal) => println!(rt; "at {number}: {} {}", refusal.code(), refusal.name())?,
        }
    }
    Ok(())
}
