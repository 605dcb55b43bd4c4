//! How two threads use a lane: a worker of a scope sends a list and promises what it sent, the
//! calling thread takes up to End, and `meet` proves that the lists are equal.

ghost use Rattle.std.specs.Prelude.{◌≡◌, ◌<◌, ◌≤◌, ◌+◌, ◌^◌, ◌++◌, [], true, length, IfOk};

use krb_base::Bytes;
use krb_lane::{Item, LaneRx, LaneTx, Met, SentAll, lane, meet};
use std::alloc::Global;
use std::snapshot::Snapshot;
use std::sync::Wait;
use std::thread;
use std::thread::{Promise, Threads};

#[derive(Drop)]
pub enum Fault {
    Memory,
    Lost,
    Spawn,
    Misnumbered,
}

// What a worker promises: it sends at this end, and all of these frames where it sends End.
#[derive(Drop)]
struct SentOf {
    tx: Snapshot<LaneTx>,
    frames: Snapshot<Vec<Bytes>>,
}

impl Promise<SentAll> for SentOf {
    ghost use Rattle.std.specs.Prelude.{◌≡◌, ◌++◌, true};

    ghost kept_by = { λ p sent. (sent.lane ≡ p.tx.value.lane)
        × (sent.ended ≡ true → sent.frames ≡ p.tx.value.frames ++ p.frames.value.items) };
}

// Sends all frames and End, as far as the other end is there.
fn send_all(rt: &impl Wait, tx: LaneTx, frames: Vec<Bytes>) -> SentAll
    requires { length tx.frames + length frames.items < 2 ^ 63 }
    ensures lane { result.lane ≡ tx.lane }
    ensures whole { result.ended ≡ true → result.frames ≡ tx.frames ++ frames.items }
{
    let mut tx = tx;
    for bytes in frames {
        let Ok(()) = tx.send(rt, bytes.into_vec()) else {
            return tx.stop();
        };
    }
    match tx.end(rt) {
        Ok(sent) => sent,
        Err(tx) => tx.stop(),
    }
}

// Takes all frames up to End. At a fault the receiving end is gone, and so its sender goes on to an
// end.
fn take_all(rt: &impl Wait, alloc: Global, rx: LaneRx) -> Result<(LaneRx, Vec<Bytes>), Fault>
    requires { rx.frames ≡ [] }
    ensures lane { IfOk result (λ taken. taken.0.lane ≡ rx.lane) }
    ensures got { IfOk result (λ taken. (taken.1.items ≡ taken.0.frames) × (taken.0.ended ≡ true)) }
{
    let mut rx = rx;
    let mut got = Vec::new(alloc);
    for _ in rt.forever() {
        match rx.take(rt) {
            Ok(Item::Frame { index, bytes }) => {
                if index != got.len() as u64 {
                    return Err(Fault::Misnumbered);
                }
                if got.push(bytes).is_err() {
                    return Err(Fault::Memory);
                }
            }
            Ok(Item::End) => return Ok((rx, got)),
            Err(_) => return Err(Fault::Lost),
        }
    }
    unreachable!()
}

// The frames, as they came out of a lane in the calling thread while a worker sent them.
pub fn pass_on<R: Threads + Wait + Sync>(
    rt: &R,
    alloc: Global,
    capacity: usize,
    frames: Vec<Bytes>,
) -> Result<(Vec<Bytes>, Met), Fault>
    requires capacity { (0 < capacity) × (capacity ≤ 64) }
    requires few { length frames.items < 2 ^ 63 }
    ensures frames { IfOk result (λ passed. passed.0.items ≡ frames.items) }
    ensures sent { IfOk result (λ passed. passed.1.sent ≡ length frames.items) }
    ensures got { IfOk result (λ passed. passed.1.got ≡ length frames.items) }
{
    let Ok((tx, rx)) = lane(rt, alloc, capacity) else {
        return Err(Fault::Memory);
    };
    thread::scope(
        thread::scope_env(),
        rt,
        move |scope| -> Result<(Vec<Bytes>, Met), Fault>
            requires { (length frames.items < 2 ^ 63) × (tx ≡ rx) × (tx.frames ≡ []) }
            ensures frames { IfOk result (λ passed. passed.0.items ≡ frames.items) }
            ensures sent { IfOk result (λ passed. passed.1.sent ≡ length frames.items) }
            ensures got { IfOk result (λ passed. passed.1.got ≡ length frames.items) }
        {
            let promise = SentOf {
                tx: Snapshot::of(&tx),
                frames: Snapshot::of(&frames),
            };
            let work = move || -> SentAll
                requires { length tx.frames + length frames.items < 2 ^ 63 }
                ensures lane { result.lane ≡ tx.lane }
                ensures whole { result.ended ≡ true → result.frames ≡ tx.frames ++ frames.items }
            { send_all(rt, tx, frames) };
            let Ok(worker) = scope.spawn_with(promise, work) else {
                return Err(Fault::Spawn);
            };
            let taken = take_all(rt, alloc, rx);
            let sent = worker.join(rt);
            let (rx, got) = taken?;
            let met = meet(sent, rx);
            Ok((got, met))
        },
    )
}
