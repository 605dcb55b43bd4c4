//! Sessions of one message of 64 bytes and of ten: an end that is made of its key, used, and ended.

use super::ends::{moment, open_often, opener_of, seal_often, sealer_of};
use super::{Best, mode_name};
use crate::rate::rate;
use krb_der::Moment;
use krb_seal::{Etype, Mode, SealError};
use std::alloc::{AllocError, Global};
use std::io;
use std::time::{Clock, Instant};

/// How many sessions there are in one run.
const SESSIONS: u32 = 400;

/// A kind of session, and how many messages each has.
#[derive(Clone, Copy)]
struct Kind {
    etype: Etype,
    mode: Mode,
    messages: u32,
}

/// Makes the sealers one after the other, and has each seal its messages. Gives the last frame.
fn seal_all(alloc: Global, kind: Kind, at: Moment) -> Result<Vec<u8>, SealError> {
    let mut last = Vec::new(alloc);
    for _ in 0..SESSIONS {
        let mut sealer = sealer_of(alloc, kind.etype, kind.mode)?;
        last = seal_often(alloc, &mut sealer, &[0x61; 64], at, kind.messages)?;
    }
    Ok(last)
}

/// Makes the openers one after the other, and has each open the frame so many times. Gives how often
/// it gave its data.
fn open_all(alloc: Global, kind: Kind, frame: &[u8], at: Moment) -> Result<u32, AllocError> {
    let mut opened = 0u32;
    let number = u64::from(kind.messages.saturating_sub(1));
    for _ in 0..SESSIONS {
        let opener = opener_of(alloc, kind.etype, kind.mode)?;
        let count = open_often(alloc, &opener, frame, number, at, kind.messages);
        opened = opened.saturating_add(count);
    }
    Ok(opened)
}

/// One run.
fn run_once(rt: &(impl Clock + Alloc<A = Global>), kind: Kind, at: Moment) -> io::Result<Best> {
    let start = Instant::now(rt)?;
    let made = seal_all(rt.alloc(), kind, at);
    let make = start.elapsed(rt)?.as_micros();
    let Ok(frame) = made else {
        return Ok(Best {
            make,
            read: 0,
            whole: false,
        });
    };
    let start = Instant::now(rt)?;
    let opened = open_all(rt.alloc(), kind, &frame, at)?;
    let read = start.elapsed(rt)?.as_micros();
    Ok(Best {
        make,
        read,
        whole: opened == SESSIONS.saturating_mul(kind.messages),
    })
}

/// Prints the best of so many runs of a kind.
fn print_kind(
    rt: &(impl Clock + Print + Alloc<A = Global>),
    kind: Kind,
    rounds: u32,
) -> io::Result<bool> {
    let mut best = Best::none_yet();
    let Some(at) = moment() else {
        return Ok(false);
    };
    for _ in 0..rounds {
        best = best.least(run_once(rt, kind, at)?);
    }
    let mode = mode_name(kind.mode);
    let etype = kind.etype.number();
    let messages = kind.messages;
    let made = rate(u128::from(SESSIONS), best.make);
    let read = rate(u128::from(SESSIONS), best.read);
    println!(rt; "{mode} {etype} sessions of {messages}: {made} sealed, {read} opened a second")?;
    Ok(best.whole)
}

/// Prints the best speed of so many runs of each kind, and says whether each message was made and
/// read.
pub(super) fn measure(
    rt: &(impl Clock + Print + Alloc<A = Global>),
    rounds: u32,
) -> io::Result<bool> {
    let mut whole = true;
    for mode in [Mode::Safe, Mode::Priv] {
        for etype in [Etype::Aes128, Etype::Aes256] {
            let one = print_kind(
                rt,
                Kind {
                    etype,
                    mode,
                    messages: 1,
                },
                rounds,
            )?;
            let ten = print_kind(
                rt,
                Kind {
                    etype,
                    mode,
                    messages: 10,
                },
                rounds,
            )?;
            whole = whole && one && ten;
        }
    }
    Ok(whole)
}
