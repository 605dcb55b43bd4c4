//! `seal` and `unseal` of krb_seal, for both encryption types and modes and for data of 64, 1,024,
//! 60,000 and 1,000,000 bytes: how many messages a second are made and read. And sessions of one
//! message and of ten.

mod ends;
mod sessions;

use crate::rate::rate;
use ends::{ends_128, ends_256, moment, open_often, seal_often};
use krb_der::Moment;
use krb_seal::{Mode, Opener, Sealer};
use std::alloc::Global;
use std::io;
use std::time::{Clock, Instant};

/// How many messages of so many bytes go through in one run.
fn times(size: usize) -> u32 {
    match size {
        0..=1_000 => 4_000,
        1_001..=10_000 => 1_000,
        _ => 25,
    }
}

/// The best times of making and of reading the messages of one run, in microseconds, and whether
/// each message was made and read.
#[derive(Clone, Copy)]
struct Best {
    make: u128,
    read: u128,
    whole: bool,
}

impl Best {
    fn none_yet() -> Best {
        Best {
            make: u128::MAX,
            read: u128::MAX,
            whole: true,
        }
    }

    /// The best of this and of one run more.
    fn least(self, run: Best) -> Best {
        Best {
            make: self.make.min(run.make),
            read: self.read.min(run.read),
            whole: self.whole && run.whole,
        }
    }
}

/// One run.
fn run_once<S: Sealer>(
    rt: &(impl Clock + Alloc<A = Global>),
    sealer: &mut S,
    opener: &Opener,
    data: &[u8],
    at: Moment,
) -> io::Result<Best> {
    let times = times(data.len());
    let start = Instant::now(rt)?;
    let made = seal_often(rt.alloc(), sealer, data, at, times);
    let make = start.elapsed(rt)?.as_micros();
    let Ok(frame) = made else {
        return Ok(Best {
            make,
            read: 0,
            whole: false,
        });
    };
    let number = sealer.next().saturating_sub(1);
    let start = Instant::now(rt)?;
    let opened = open_often(rt.alloc(), opener, &frame, number, at, times);
    let read = start.elapsed(rt)?.as_micros();
    Ok(Best {
        make,
        read,
        whole: opened == times,
    })
}

/// The best of so many runs.
fn best_of<S: Sealer>(
    rt: &(impl Clock + Alloc<A = Global>),
    sealer: &mut S,
    opener: &Opener,
    size: usize,
    rounds: u32,
) -> io::Result<Best> {
    let data = vec![in rt.alloc(); 0x61u8; size]?;
    let mut best = Best::none_yet();
    let Some(at) = moment() else {
        return Ok(best);
    };
    for _ in 0..rounds {
        best = best.least(run_once(rt, sealer, opener, &data, at)?);
    }
    Ok(best)
}

fn mode_name(mode: Mode) -> &'static str {
    match mode {
        Mode::Safe => "safe",
        Mode::Priv => "priv",
    }
}

/// Times one kind of session at each size.
fn print_sizes<S: Sealer>(
    rt: &(impl Clock + Print + Alloc<A = Global>),
    sealer: &mut S,
    opener: &Opener,
    mode: Mode,
    rounds: u32,
) -> io::Result<bool> {
    let mut whole = true;
    let mode = mode_name(mode);
    let etype = sealer.etype();
    for size in [64, 1_024, 60_000, 1_000_000] {
        let best = best_of(rt, sealer, opener, size, rounds)?;
        let made = rate(u128::from(times(size)), best.make);
        let read = rate(u128::from(times(size)), best.read);
        println!(rt; "{mode} {etype} {size} bytes: {made} made, {read} read a second")?;
        whole = whole && best.whole;
    }
    Ok(whole)
}

/// Prints the best speed of so many runs of each kind, of messages and of sessions, and says whether
/// each message was made and read.
pub(crate) fn measure(
    rt: &(impl Clock + Print + Alloc<A = Global>),
    rounds: u32,
) -> io::Result<bool> {
    let mut whole = true;
    for mode in [Mode::Safe, Mode::Priv] {
        let (mut sealer, opener) = ends_128(rt.alloc(), mode)?;
        let narrow = print_sizes(rt, &mut sealer, &opener, mode, rounds)?;
        let (mut sealer, opener) = ends_256(rt.alloc(), mode)?;
        let wide = print_sizes(rt, &mut sealer, &opener, mode, rounds)?;
        whole = whole && narrow && wide;
    }
    Ok(sessions::measure(rt, rounds)? && whole)
}
