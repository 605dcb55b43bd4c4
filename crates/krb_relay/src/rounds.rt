//! The calling thread receives in rounds: each takes one item of each lane whose End wasn't taken.
//! Where frames aren't short, those of a round are opened side by side.

ghost use Rattle.std.specs.Prelude.{◌≡◌, ◌↔◌, ◌<◌, ◌+◌, length, map, All, IsTrue, IfErr, IfNone, IfSome, OnOk, OnErr};
ghost use Rattle.std.specs.List.{AllZip};
ghost use Rattle.krb_lane.specs.Side.{Side};
ghost use Rattle.krb_peers.specs.Logged.{IsShut};
ghost use Rattle.krb_relay.specs.Gathering.{IsEnded, NotesAll, lane_of};
ghost use Rattle.krb_relay.specs.Heard.{all_heard, rounds_heard, AreAnswers};
ghost use Rattle.krb_relay.specs.Serving.{Drains, Stands, Stops, Turns, post};

use crate::cause::OwnCause;
use crate::fault::OwnFault;
use crate::side_by_side::{ENOUGH, round_side_by_side};
use krb_lane::{Item, LaneRx, Lost};
use krb_peers::{Log, Receiving};
use std::alloc::Global;
use std::snapshot::Snapshot;
use std::sync::Wait;
use std::thread::Threads;

/// If a round of so many lanes had so many bytes, the codes of the next one's frames are computed together.
/// With fewer, that gains nothing.
const MANY_LANES: usize = 4;

const ENOUGH_TOGETHER: usize = 1 << 12;

/// Serves all lanes to their Ends.
pub(crate) fn serve_all<R: Threads + Wait + Sync>(
    rt: &R,
    alloc: Global,
    starts: &Snapshot<Vec<Receiving>>,
    ends: &mut [LaneRx],
    receivings: &mut [Receiving],
    log: &mut Log,
) -> Result<(), OwnFault>
    requires { Stands 0 starts.now.value.items ends.old receivings.old log.old }
    ensures judged { OnOk result (All AreAnswers (all_heard starts.now.value.items ends.new)) }
    ensures logged { OnOk result
        (log.new.entries ≡ rounds_heard (all_heard starts.now.value.items ends.new)) }
    ensures ended { OnOk result (All IsEnded ends.new) }
    ensures noted { OnOk result (NotesAll log.new (length starts.now.value.items)) }
    ensures lanes { OnOk result (log.new.lanes ≡ length starts.now.value.items) }
    ensures stops { OnErr result (Stops starts.now.value.items ends.old ends.new log.new) }
    ensures same { map lane_of ends.new ≡ map lane_of ends.old }
{
    prepare(receivings);
    let least = if ends.len() < MANY_LANES {
        ENOUGH
    } else {
        ENOUGH_TOGETHER
    };
    let mut bytes = 0;
    for _ in rt.forever() {
        if all_ended(ends) {
            return Ok(());
        }
        bytes = if bytes < least {
            round(rt, alloc, starts, ends, receivings, log)?
        } else {
            round_side_by_side(rt, alloc, starts, ends, receivings, log)?
        };
    }
    unreachable!()
}

/// Makes the keys of codes ready for several frames at a time.
fn prepare(receivings: &mut [Receiving])
    ensures { receivings.new ≡ receivings.old }
{
    for lane in 0..receivings.len() {
        receivings[lane].receiver.prepare_batch();
    }
}

/// Whether the End of each lane was taken.
fn all_ended(ends: &[LaneRx]) -> bool
    ensures { IsTrue result ↔ All IsEnded ends.now }
{
    ends.iter().all(|rx| rx.ended())
}

/// One round. The result is how many bytes its frames had.
fn round<R: Wait>(
    rt: &R,
    alloc: Global,
    starts: &Snapshot<Vec<Receiving>>,
    ends: &mut [LaneRx],
    receivings: &mut [Receiving],
    log: &mut Log,
) -> Result<usize, OwnFault>
    requires { Stands 0 starts.now.value.items ends.old receivings.old log.old }
    ensures ok { OnOk result (Stands 0 starts.now.value.items ends.new receivings.new log.new) }
    ensures err { OnErr result (Stops starts.now.value.items ends.old ends.new log.new) }
    ensures same { map lane_of ends.new ≡ map lane_of ends.old }
{
    let mut bytes = 0usize;
    for lane in 0..ends.len() {
        let more = turn_at(rt, alloc, starts, lane, ends, receivings, log)?;
        bytes = bytes.saturating_add(more);
    }
    Ok(bytes)
}

/// The turn of a lane in a round. The result is how many bytes its frame had.
fn turn_at<R: Wait>(
    rt: &R,
    alloc: Global,
    starts: &Snapshot<Vec<Receiving>>,
    lane: usize,
    ends: &mut [LaneRx],
    receivings: &mut [Receiving],
    log: &mut Log,
) -> Result<usize, OwnFault>
    requires there { lane < length ends.old }
    requires stands { Stands lane starts.now.value.items ends.old receivings.old log.old }
    ensures ok { OnOk result
        (Stands (lane + 1) starts.now.value.items ends.new receivings.new log.new) }
    ensures err { OnErr result (Stops starts.now.value.items ends.old ends.new log.new) }
    ensures named { IfErr result (λ fault. fault.lane ≡ lane) }
    ensures same { map lane_of ends.new ≡ map lane_of ends.old }
{
    let number = lane as u32;
    match turn(
        rt,
        alloc,
        number,
        &mut ends[lane],
        &mut receivings[lane],
        log,
    ) {
        Ok(bytes) => Ok(bytes),
        Err(cause) => Err(OwnFault {
            cause,
            lane: number,
        }),
    }
}

/// Takes the next item of a lane, unless its End was taken: a frame is judged and its outcome
/// logged; an End is noted in the log. The result is how many bytes the frame had.
fn turn<R: Wait>(
    rt: &R,
    alloc: Global,
    lane: u32,
    rx: &mut LaneRx,
    receiving: &mut Receiving,
    log: &mut Log,
) -> Result<usize, OwnCause>
    requires lane { lane < log.old.lanes }
    requires shut { IsShut log.old lane receiving.old.receiver }
    requires moments { 0 < length receiving.old.nows.items }
    ensures ok { OnOk result ((start : Receiving)
        → Turns lane (post start rx.old receiving.old) log.old
        (post start rx.new receiving.new) log.new) }
    ensures err { OnErr result (Drains rx.old rx.new × (log.new ≡ log.old)) }
    ensures same { rx.new.lane ≡ rx.old.lane }
{
    if rx.ended() {
        return Ok(0);
    }
    match rx.take(rt) {
        Ok(Item::Frame { index, bytes }) => {
            let now = receiving.moment_at(index as usize);
            let receiver = &mut receiving.receiver;
            match receiver.take_into(log, alloc, lane, bytes.as_slice(), now) {
                Ok(()) => Ok(bytes.as_slice().len()),
                Err(_) => Err(OwnCause::Memory),
            }
        }
        Ok(Item::End) => {
            log.end(lane);
            Ok(0)
        }
        Err(Lost) => Err(OwnCause::Lost),
    }
}

/// Takes and drops what comes through each end, until End or until its sender is gone.
pub(crate) fn drain<R: Wait>(rt: &R, ends: &mut [LaneRx])
    ensures { AllZip Drains ends.old ends.new }
{
    for lane in 0..ends.len() {
        drain_one(rt, &mut ends[lane]);
    }
}

/// The same through one end.
fn drain_one<R: Wait>(rt: &R, rx: &mut LaneRx)
    ensures { Drains rx.old rx.new }
{
    for _ in rt.forever() {
        match rx.take(rt) {
            Ok(Item::Frame { .. }) => {}
            Ok(Item::End) | Err(Lost) => return,
        }
    }
}
