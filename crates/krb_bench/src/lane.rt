//! Frames of 100 bytes through lanes of given capacities in turn, from a worker to the calling
//! thread, and a line for each lane. The worker allocates each frame and the calling thread frees
//! it. The calling thread may sleep before each take, to show what a slow receiver costs.

ghost use Rattle.std.specs.Prelude.{◌≡◌, ◌<◌, ◌≤◌, ◌+◌, ◌^◌, [], true, length, IfSome};

use crate::rate::rate;
use krb_lane::{Item, LaneRx, LaneTx, SentAll, lane, meet};
use std::alloc::Global;
use std::snapshot::Snapshot;
use std::sync::Wait;
use std::thread::{Promise, Threads};
use std::time::{Clock, Duration, Instant};
use std::{io, thread};

/// How many bytes a frame has.
const SIZE: usize = 100;

// What a worker promises: it sends at this end, and this many frames if it sends End.
#[derive(Drop)]
struct SentFrom {
    tx: Snapshot<LaneTx>,
    frames: u64,
}

impl Promise<SentAll> for SentFrom {
    ghost use Rattle.std.specs.Prelude.{◌≡◌, ◌+◌, true, length};

    ghost kept_by = { λ p sent. (sent.lane ≡ p.tx.value.lane)
        × (sent.ended ≡ true → length sent.frames ≡ length p.tx.value.frames + p.frames) };
}

// Sends so many frames and End, while memory is available and the other end exists.
fn send_frames(rt: &impl Wait, alloc: Global, tx: LaneTx, frames: u64) -> SentAll
    requires { length tx.frames + frames < 2 ^ 60 }
    ensures lane { result.lane ≡ tx.lane }
    ensures whole { result.ended ≡ true → length result.frames ≡ length tx.frames + frames }
{
    let mut tx = tx;
    for _ in 0..frames {
        let Ok(bytes) = vec![in alloc; 0x61; SIZE] else {
            return tx.stop();
        };
        let Ok(()) = tx.send(rt, bytes) else {
            return tx.stop();
        };
    }
    match tx.end(rt) {
        Ok(sent) => sent,
        Err(tx) => tx.stop(),
    }
}

// Takes all frames up to End, and sleeps for so long before each of them.
fn take_frames(rt: &(impl Wait + Clock), rx: LaneRx, pause: Duration) -> Option<LaneRx>
    ensures lane { IfSome result (λ taken. taken.lane ≡ rx.lane) }
    ensures ended { IfSome result (λ taken. taken.ended ≡ true) }
{
    let mut rx = rx;
    for _ in rt.forever() {
        if !pause.is_zero() {
            thread::sleep(rt, pause);
        }
        match rx.take(rt) {
            Ok(Item::Frame { .. }) => {}
            Ok(Item::End) => return Some(rx),
            Err(_) => return None,
        }
    }
    unreachable!()
}

// How many frames came out of a lane of this capacity: all that a worker was to send.
fn pass_frames<R: Threads + Wait + Sync + Clock>(
    rt: &R,
    alloc: Global,
    capacity: usize,
    frames: u64,
    pause: Duration,
) -> Option<u64>
    requires capacity { (0 < capacity) × (capacity ≤ 64) }
    requires frames { frames < 2 ^ 60 }
    ensures { IfSome result (λ got. got ≡ frames) }
{
    let Ok((tx, rx)) = lane(rt, alloc, capacity) else {
        return None;
    };
    thread::scope(
        thread::scope_env(),
        rt,
        move |scope| -> Option<u64>
            requires { (frames < 2 ^ 60) × (tx ≡ rx) × (tx.frames ≡ []) }
            ensures { IfSome result (λ got. got ≡ frames) }
        {
            let promise = SentFrom {
                tx: Snapshot::of(&tx),
                frames,
            };
            let work = move || -> SentAll
                requires { length tx.frames + frames < 2 ^ 60 }
                ensures lane { result.lane ≡ tx.lane }
                ensures whole { result.ended ≡ true
                    → length result.frames ≡ length tx.frames + frames }
            { send_frames(rt, alloc, tx, frames) };
            let Ok(worker) = scope.spawn_with(promise, work) else {
                return None;
            };
            let taken = take_frames(rt, rx, pause);
            let sent = worker.join(rt);
            let met = meet(sent, taken?);
            Some(met.got)
        },
    )
}

/// Passes so many frames through a lane of each of these capacities, where the receiver sleeps for so
/// long before each take. Prints how fast they went, and says whether all did.
pub(crate) fn measure(
    rt: &(impl Threads + Wait + Sync + Clock + Print + Alloc<A = Global>),
    frames: u32,
    capacities: &[usize],
    pause: Duration,
) -> io::Result<bool> {
    let mut whole = true;
    for capacity in capacities.iter().copied() {
        let start = Instant::now(rt)?;
        let passed = if 0 < capacity && capacity <= 64 {
            pass_frames(rt, rt.alloc(), capacity, u64::from(frames), pause)
        } else {
            None
        };
        let micros = start.elapsed(rt)?.as_micros();
        match passed {
            None => {
                whole = false;
                println!(rt; "capacity {capacity}: no such lane, no memory, or no thread")?;
            }
            Some(got) => {
                let speed = rate(u128::from(got), micros);
                let millis = micros / 1000;
                println!(rt;
                    "capacity {capacity}: {got} frames in {millis} ms: {speed} frames a second"
                )?;
            }
        }
    }
    Ok(whole)
}
