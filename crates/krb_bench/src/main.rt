//! Times the parts of the relay: the best of many short runs.
//!
//! - `krb_bench aes ROUNDS`: the cipher.
//! - `krb_bench seal ROUNDS`: sealing and opening of messages.
//! - `krb_bench lane FRAMES [CAPACITY MICROSECONDS]`: a lane between two threads, where the receiver
//!   sleeps for so long before each take.
//! - `krb_bench relay ROUNDS SENDERS TEXTS BYTES CAPACITY [BATCH ..]`: both relays.
//! - `krb_bench soak JOBS`: one relay again and again.
//!
//! It ends with 1 if something didn't end well. For other words it prints this list and ends with
//! 2; with no argument it does nothing.
#![tactic(auto)]

mod cipher;
mod lane;
mod rate;
mod relays;
mod sealing;

use std::alloc::Global;
use std::process::ExitCode;
use std::sync::Wait;
use std::thread::Threads;
use std::time::{Clock, Duration};
use std::{env, io};

const USAGE: &str = "usage: krb_bench aes ROUNDS | seal ROUNDS \
    | lane FRAMES [CAPACITY MICROSECONDS] \
    | relay ROUNDS SENDERS TEXTS BYTES CAPACITY [BATCH ..] | soak JOBS";

/// Times what the words ask for, and says whether all ended well; `None` for other words.
fn measure(
    rt: &(impl Threads + Wait + Sync + Clock + Print + Alloc<A = Global>),
    part: &str,
    numbers: &[u32],
) -> io::Result<Option<bool>> {
    match (part, numbers) {
        ("aes", [rounds]) => cipher::measure(rt, *rounds).map(Some),
        ("seal", [rounds]) => sealing::measure(rt, *rounds).map(Some),
        ("lane", [frames]) => { lane::measure(rt, *frames, &[1, 8, 64], Duration::ZERO).map(Some) }
        ("lane", [frames, capacity, micros]) => {
            let pause = Duration::from_micros(u64::from(*micros));
            lane::measure(rt, *frames, &[*capacity as usize], pause).map(Some)
        }
        ("soak", [jobs]) => relays::soak(rt, *jobs).map(Some),
        ("relay", [rounds, senders, texts, bytes, capacity, batches @ ..]) => {
            let size = relays::Size {
                senders: *senders as usize,
                texts: *texts as usize,
                bytes: *bytes as usize,
                batch: 1,
                capacity: *capacity as usize,
            };
            relays::measure(rt, *rounds, size, batches).map(Some)
        }
        _ => Ok(None),
    }
}

/// The numbers that the words spell, if each spells one.
fn numbers_of(alloc: Global, words: &[String]) -> io::Result<Option<Vec<u32>>> {
    let mut numbers = Vec::with_capacity(alloc, words.len())?;
    for word in words {
        let Ok(number) = word.parse() else {
            return Ok(None);
        };
        numbers.push(number)?;
    }
    Ok(Some(numbers))
}

fn main(rt: HostRuntime) -> io::Result<ExitCode> {
    let words: Vec<String> = env::args(&rt)?.skip(1).collect(rt.alloc())?;
    let Some((part, rest)) = words.split_first() else {
        return Ok(ExitCode::SUCCESS);
    };
    let measured = match numbers_of(rt.alloc(), rest)? {
        Some(numbers) => measure(&rt, part, &numbers)?,
        None => None,
    };
    match measured {
        Some(true) => Ok(ExitCode::SUCCESS),
        Some(false) => Ok(ExitCode::FAILURE),
        None => {
            eprintln!(&rt; "{USAGE}")?;
            Ok(ExitCode::from(2))
        }
    }
}
