//! One relay of each kind, with its time, and whether two logs are the same.

ghost use Rattle.std.specs.Prelude.{◌≡◌, ◌<◌, ◌≤◌, All, IsTrue, length};
ghost use Rattle.krb_base.specs.Limits.{lane_limit};
ghost use Rattle.krb_peers.specs.Sending.{source_of, IsSender};

use super::lanes::{Size, are_senders, have_moments, receivings_of, sealer, sending};
use krb_core::Stepped;
use krb_peers::{Entry, Event, Log, Receiving, Sending, Status};
use krb_relay::{NoGate, Report, relay};
use krb_seal::Sealer;
use std::alloc::Global;
use std::io;
use std::sync::Wait;
use std::thread::Threads;
use std::time::{Clock, Instant};

/// Whether the lanes and their room keep the limits of a relay.
fn is_ready<S: Sealer>(sendings: &[Sending<S>], receivings: &[Receiving], capacity: usize) -> bool
    ensures same { IsTrue result → length sendings.now ≡ length receivings.now }
    ensures some { IsTrue result → 1 ≤ length sendings.now }
    ensures few { IsTrue result → length sendings.now ≤ lane_limit }
    ensures senders { IsTrue result
        → All (λ sending. IsSender (source_of S.state sending)) sendings.now }
    ensures moments { IsTrue result
        → All (λ receiving. 0 < length receiving.nows.items) receivings.now }
    ensures room { IsTrue result → (0 < capacity) × (capacity ≤ 64) }
{
    let count = sendings.len();
    (1..=8).contains(&count)
        && count == receivings.len()
        && (1..=64).contains(&capacity)
        && are_senders(sendings)
        && have_moments(receivings)
}

/// Whether every lane was closed.
fn all_closed(log: &Log) -> bool {
    (0..log.lanes()).all(|lane| log.status(lane) == Status::Closed)
}

/// Relays by turns: the microseconds that it takes, and whether all was relayed.
pub(crate) fn run_stepped(
    rt: &(impl Clock + Alloc<A = Global>),
    size: Size,
) -> io::Result<(u128, bool)> {
    let receivings = receivings_of(rt.alloc(), size)?;
    let mut sendings = Vec::new(rt.alloc());
    for host in 0..size.senders {
        let host = (host % 256) as u8;
        let boxed: Box<dyn Sealer + Send> = Box::new(rt.alloc(), sealer(rt.alloc(), host)?)?;
        sendings.push(sending(rt.alloc(), boxed, host, size)?)?;
    }
    if !is_ready(sendings.as_slice(), receivings.as_slice(), size.capacity) {
        return Ok((0, false));
    }
    let start = Instant::now(rt)?;
    let stepped = Stepped::new(rt.alloc(), sendings, receivings, size.capacity);
    let Ok(mut stepped) = stepped else {
        return Ok((0, false));
    };
    let finished = stepped.finish().is_ok();
    let micros = start.elapsed(rt)?.as_micros();
    Ok((micros, finished && all_closed(stepped.log())))
}

/// Relays in threads: the microseconds that it takes, and the log if all was relayed.
pub(crate) fn run_threads<R: Threads + Wait + Sync + Clock + Alloc<A = Global>>(
    rt: &R,
    size: Size,
) -> io::Result<(u128, Option<Log>)> {
    let receivings = receivings_of(rt.alloc(), size)?;
    let mut sendings = Vec::new(rt.alloc());
    for host in 0..size.senders {
        let host = (host % 256) as u8;
        let boxed: Box<dyn Sealer + Send> = Box::new(rt.alloc(), sealer(rt.alloc(), host)?)?;
        sendings.push(sending(rt.alloc(), boxed, host, size)?)?;
    }
    if !is_ready(sendings.as_slice(), receivings.as_slice(), size.capacity) {
        return Ok((0, None));
    }
    let start = Instant::now(rt)?;
    let relayed = relay(rt, rt.alloc(), sendings, receivings, size.capacity, &NoGate);
    let micros = start.elapsed(rt)?.as_micros();
    let log = match relayed {
        Ok(Report { log, sent: _ }) => log,
        Err(_) => return Ok((micros, None)),
    };
    let whole = all_closed(&log);
    Ok((micros, if whole { Some(log) } else { None }))
}

/// Whether two logs have as many lanes and the same entries.
pub(crate) fn is_same(one: &Log, other: &Log) -> bool {
    let (first, second) = (one.entries(), other.entries());
    one.lanes() == other.lanes()
        && first.len() == second.len()
        && first
            .iter()
            .zip(second)
            .all(|(entry, like)| is_same_entry(entry, like))
}

fn is_same_entry(one: &Entry, other: &Entry) -> bool {
    one.lane == other.lane
        && match (&one.event, &other.event) {
            (Event::Text(text), Event::Text(like)) => text.as_slice() == like.as_slice(),
            (Event::Closed, Event::Closed) => true,
            (Event::Refused(refusal), Event::Refused(like)) => refusal == like,
            _ => false,
        }
}
