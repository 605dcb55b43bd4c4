//! The relay on threads beside the stepped one, over the same lanes.
//!
//! Texts of as many bytes go from each sender (KRB-PRIV under encryption type 18) by `Stepped` and by
//! `relay`, in turn; printed is how many texts a second each relays, and what part of the stepped
//! relay's time `relay` takes.

mod lanes;
mod runs;

use crate::rate::rate;
pub(crate) use lanes::Size;
use runs::{is_same, run_stepped, run_threads};
use std::alloc::Global;
use std::io;
use std::sync::Wait;
use std::thread::Threads;
use std::time::{Clock, Instant};

/// The best times of both relays, in microseconds, and whether each ended well.
#[derive(Clone, Copy)]
struct Best {
    stepped: u128,
    threads: u128,
    whole: bool,
}

/// The best of so many rounds.
fn best_of(
    rt: &(impl Threads + Wait + Sync + Clock + Alloc<A = Global>),
    rounds: u32,
    size: Size,
) -> io::Result<Best> {
    let mut best = Best {
        stepped: u128::MAX,
        threads: u128::MAX,
        whole: true,
    };
    for _ in 0..rounds {
        let (stepped, well) = run_stepped(rt, size)?;
        let (threads, log) = run_threads(rt, size)?;
        best = Best {
            stepped: best.stepped.min(stepped),
            threads: best.threads.min(threads),
            whole: best.whole && well && log.is_some(),
        };
    }
    Ok(best)
}

/// Times both relays.
fn compare(
    rt: &(impl Threads + Wait + Sync + Clock + Print + Alloc<A = Global>),
    rounds: u32,
    size: Size,
) -> io::Result<bool> {
    let best = best_of(rt, rounds, size)?;
    let texts = (size.senders as u128).saturating_mul(size.texts as u128);
    let (stepped, threads) = (rate(texts, best.stepped), rate(texts, best.threads));
    let percent = best.threads.saturating_mul(100) / best.stepped.max(1);
    let batch = size.batch;
    println!(rt;
        "batch {batch}: stepped {stepped}, threads {threads} texts a second: {percent} % of the time"
    )?;
    Ok(best.whole)
}

/// Times both relays once for each of these batches, so many texts of which go together at most, or
/// if there is none, with each text alone. Says whether each relay ended well.
pub(crate) fn measure(
    rt: &(impl Threads + Wait + Sync + Clock + Print + Alloc<A = Global>),
    rounds: u32,
    size: Size,
    batches: &[u32],
) -> io::Result<bool> {
    if batches.is_empty() {
        return compare(rt, rounds, size);
    }
    let mut whole = true;
    for batch in batches {
        let size = Size {
            batch: *batch as usize,
            ..size
        };
        whole = compare(rt, rounds, size)? && whole;
    }
    Ok(whole)
}

/// Relays a small job by `relay` and then so many more like it, prints how many a second, and of how
/// many the log isn't that of the first, and says whether there was none.
pub(crate) fn soak(
    rt: &(impl Threads + Wait + Sync + Clock + Print + Alloc<A = Global>),
    jobs: u32,
) -> io::Result<bool> {
    let size = Size {
        senders: 2,
        texts: 5,
        bytes: 64,
        batch: 1,
        capacity: 2,
    };
    let (_, Some(first)) = run_threads(rt, size)? else {
        println!(rt; "the first job wasn't relayed")?;
        return Ok(false);
    };
    let start = Instant::now(rt)?;
    let mut different = 0u32;
    for _ in 0..jobs {
        let (_, log) = run_threads(rt, size)?;
        if !log.is_some_and(|log| is_same(&log, &first)) {
            different = different.saturating_add(1);
        }
    }
    let speed = rate(u128::from(jobs), start.elapsed(rt)?.as_micros());
    println!(rt; "{jobs} jobs, {speed} a second, {different} other logs")?;
    Ok(different == 0)
}
