//! Two senders and their receivers by the relay on threads. The wire of the first repeats a frame.
#![tactic(auto)]

ghost use Rattle.std.specs.Prelude.{◌≡◌, ◌<◌, ◌≤◌, IfOk, length};
ghost use Rattle.krb_base.specs.Limits.{last_number, text_limit};
ghost use Rattle.krb_peers.specs.Sending.{source_of, IsSender};
ghost use Rattle.krb_seal.specs.Session.{HasShortAddresses};

use anyhow::{Context, Result};
use krb_base::Bytes;
use krb_der::{HostAddress, Moment};
use krb_peers::{Emit, Entry, Event, Receiver, Receiving, Sending};
use krb_relay::{NoGate, Report, relay};
use krb_seal::{Aes256Sealer, Expect, Mode, Opener, Sealer, Session};
use rand_chacha::ChaCha20Rng;
use rand_core::SeedableRng;
use std::alloc::{AllocError, Global};
use std::str;
use std::sync::Wait;
use std::thread::Threads;

/// The session of 10.0.0.`host` from the number 1 on.
fn session(alloc: Global, host: u8) -> Result<Session, AllocError>
    ensures short { IfOk result HasShortAddresses }
    ensures first { IfOk result (λ session. session.first ≡ 1) }
{
    Ok(Session {
        mode: Mode::Priv,
        s_addr: HostAddress::new(alloc, 2, &[10, 0, 0, host])?,
        r_addr: None,
        first: 1,
    })
}

/// The sealer of that session. Its key is fixed, so that the program always prints the same.
fn sealer(alloc: Global, host: u8) -> Result<Aes256Sealer, AllocError>
    ensures { IfOk result (λ sealer. sealer.next ≤ last_number) }
{
    Ok(Aes256Sealer::new(&mut [host; 32], session(alloc, host)?))
}

/// A sender of one text, whose seed is fixed too.
fn sending<S: Sealer>(
    alloc: Global,
    sealer: S,
    seed: [u8; 32],
    text: &[u8],
    plan: Option<Vec<Emit>>,
    at: Moment,
) -> Result<Sending<S>, AllocError>
    requires short { length text.now ≤ text_limit }
    requires next { (S.state sealer).next ≤ last_number }
    ensures { IfOk result (λ sending. IsSender (source_of S.state sending)) }
{
    Ok(Sending {
        sealer,
        texts: vec![in alloc; Bytes::new(Vec::from_slice(alloc, text)?)]?,
        batch: 1,
        ats: vec![in alloc; at]?,
        draws: ChaCha20Rng::from_seed(seed),
        plan,
    })
}

/// Its receiver at 10.0.0.255, which takes what is five minutes off.
fn receiving(alloc: Global, host: u8, now: Moment) -> Result<Receiving, AllocError>
    ensures { IfOk result (λ receiving. 0 < length receiving.nows.items) }
{
    let expect = Expect {
        mode: Mode::Priv,
        s_addr: HostAddress::new(alloc, 2, &[10, 0, 0, host])?,
        r_addr: HostAddress::new(alloc, 2, &[10, 0, 0, 255])?,
        require_r: false,
        expect_time: true,
        skew: 300,
    };
    Ok(Receiving {
        receiver: Receiver::new(Opener::new_256(&mut [host; 32], expect), 1),
        nows: vec![in alloc; now]?,
    })
}

/// Relays the texts "hi" and "last" over lanes of eight places.
fn relay_both<R: Threads + Wait + Sync>(rt: &R, alloc: Global, at: Moment) -> Result<Report>
    ensures { IfOk result (λ report. report.log.lanes ≡ 2) }
{
    // Frame 0 twice, and then the close.
    let plan = vec![in alloc; Emit::Frame(0), Emit::Frame(0), Emit::Frame(1)]?;
    let one: Box<dyn Sealer + Send> = Box::new(alloc, sealer(alloc, 1)?)?;
    let other: Box<dyn Sealer + Send> = Box::new(alloc, sealer(alloc, 2)?)?;
    let first = sending(alloc, one, [101; 32], b"hi", Some(plan), at)?;
    let second = sending(alloc, other, [102; 32], b"last", None, at)?;
    let sendings = vec![in alloc; first, second]?;
    let receivings = vec![in alloc; receiving(alloc, 1, at)?, receiving(alloc, 2, at)?]?;
    Ok(relay(rt, alloc, sendings, receivings, 8, &NoGate)?)
}

/// Prints the outcome of one frame.
fn print_entry(rt: &impl Print, entry: &Entry) -> Result<()> {
    let lane = entry.lane;
    match &entry.event {
        Event::Text(text) => println!(rt; "lane {lane}: {}", str::from_utf8(text.as_slice())?)?,
        Event::Closed => println!(rt; "lane {lane}: closed")?,
        Event::Refused(refusal) => println!(rt; "lane {lane}: refused, {refusal}")?,
    }
    Ok(())
}

fn main(rt: HostRuntime) -> Result<()> {
    let at = Moment::from_micros(1_700_000_000_000_005).context("past the year 9999")?;
    let report = relay_both(&rt, rt.alloc(), at)?;
    for entry in report.log.entries() {
        print_entry(&rt, entry)?;
    }
    Ok(())
}
