//! The frames that wait are opened, those of several lanes side by side.

ghost use Rattle.std.specs.Prelude.{◌<◌, length};
ghost use Rattle.std.specs.Option.{ForSome};
ghost use denote.Param.Send.{IsSync};
ghost use Rattle.krb_seal.specs.Covered.{IsCodedFrame};
ghost use Rattle.krb_relay.specs.Opening.{AreReady, HasMoment, IsReady, JudgesNext, Opens, OpensEach};

use crate::waiting::Waiting;
use krb_peers::{Delivery, Receiving};
use krb_seal::{Coded, Refusal};
use std::alloc::Global;
use std::thread::{Threads, join_mut};

/// Opens what waits of each lane, each in a thread of its own, or one after another if no thread can
/// be made.
#[cycle(halves)]
pub(crate) fn open_lanes<R: Threads + Sync>(
    rt: &R,
    alloc: Global,
    receivings: &mut [Receiving],
    waiting: &mut [Waiting],
)
    requires { AreReady receivings.old waiting.old }
    ensures { OpensEach receivings.old waiting.old receivings.new waiting.new }
{
    if receivings.len() < 2 {
        return open_in_turn(alloc, receivings, waiting);
    }
    let half = receivings.len() / 2;
    let (front, back) = receivings.split_at_mut(half);
    let (first, rest) = waiting.split_at_mut(half);
    open_halves(rt, alloc, front, first, back, rest);
}

/// Opens what waits of two halves of the lanes side by side.
#[cycle(halves)]
fn open_halves<R: Threads + Sync>(
    rt: &R,
    alloc: Global,
    front: &mut [Receiving],
    first: &mut [Waiting],
    back: &mut [Receiving],
    rest: &mut [Waiting],
)
    requires some { 0 < length front.old }
    requires others { 0 < length back.old }
    requires front { AreReady front.old first.old }
    requires back { AreReady back.old rest.old }
    ensures front { OpensEach front.old first.old front.new first.new }
    ensures back { OpensEach back.old rest.old back.new rest.new }
{
    let mut one = ||
        requires { IsSync R.row × AreReady front.now first.now }
        ensures { OpensEach front.entry.now first.entry.now front.exit.now first.exit.now }
    { open_lanes(rt, alloc, front, first) };
    let mut other = ||
        requires { IsSync R.row × AreReady back.now rest.now }
        ensures { OpensEach back.entry.now rest.entry.now back.exit.now rest.exit.now }
    { open_lanes(rt, alloc, back, rest) };
    join_mut(rt, &mut one, &mut other);
}

/// Opens what waits of one lane after another.
pub(crate) fn open_in_turn(alloc: Global, receivings: &mut [Receiving], waiting: &mut [Waiting])
    requires { AreReady receivings.old waiting.old }
    ensures { OpensEach receivings.old waiting.old receivings.new waiting.new }
{
    for lane in 0..receivings.len() {
        open_lane(alloc, &mut receivings[lane], &mut waiting[lane]);
    }
}

/// Opens what waits of a lane, as far as there is memory.
fn open_lane(alloc: Global, receiving: &mut Receiving, waiting: &mut Waiting)
    requires moments { HasMoment receiving.old }
    requires ready { IsReady waiting.old }
    ensures { Opens receiving.old waiting.old receiving.new waiting.new }
{
    let count = waiting.frames.len();
    if waiting.verdicts.reserve(count).is_err() {
        return;
    }
    let place = waiting.came - count;
    for k in 0..count {
        let frame = waiting.frames[k].as_slice();
        match judge(receiving, alloc, frame, None, place + k) {
            Some(verdict) => waiting.verdicts.push_back_reserved(verdict),
            None => return,
        }
    }
}

/// The verdict on the frame of this place, whose code may be given, or `None` if memory ran out.
pub(crate) fn judge(
    receiving: &mut Receiving,
    alloc: Global,
    frame: &[u8],
    coded: Option<Coded<'_>>,
    place: usize,
) -> Option<Result<Delivery, Refusal>>
    requires moments { HasMoment receiving.old }
    requires coded { ForSome coded (IsCodedFrame receiving.old.receiver.opener frame.now) }
    ensures { JudgesNext receiving.old place frame.now result receiving.new }
{
    let now = receiving.moment_at(place);
    match receiving.receiver.take_coded(alloc, frame, coded, now) {
        Ok(delivery) => Some(Ok(delivery)),
        Err(Refusal::Memory) => None,
        Err(refusal) => Some(Err(refusal)),
    }
}
