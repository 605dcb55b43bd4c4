//! The frames of a round opened with their codes computed side by side.

ghost use Rattle.std.specs.Prelude.{◌≡◌, ◌<◌, ◌≤◌, ℕ, length, get_or, slice_index_or, None};
ghost use Rattle.std.specs.Option.{ForSome};
ghost use Rattle.krb_base.specs.Limits.{lane_limit};
ghost use Rattle.krb_peers.specs.declared.receiver.Receiving.{Receiving as ReceivingValue};
ghost use Rattle.krb_relay.specs.declared.waiting.Waiting.{Waiting as WaitingValue};
ghost use Rattle.krb_relay.specs.Codes.{IsCodedFirst};
ghost use Rattle.krb_relay.specs.Opening.{AreReady, EntersEach, Enters, HasMoment, IsReady, JudgesFirst, OpensEach};

use crate::codes::codes;
use crate::opening::judge;
use crate::waiting::Waiting;
use krb_base::LANE_LIMIT;
use krb_peers::{Delivery, Receiving};
use krb_seal::{Coded, Refusal};
use std::alloc::Global;

/// Hashing side by side takes as long as hashing about so many of the longest frames one after another.
const WORTH: usize = 4;

/// The size of the first frame that waits of a lane.
fn first_size(waiting: &Waiting) -> usize {
    match waiting.frames.front() {
        Some(frame) => frame.as_slice().len(),
        None => 0,
    }
}

/// Whether it is quicker to hash the first frames that wait side by side than one after another.
pub(crate) fn are_alike(waiting: &[Waiting]) -> bool {
    let mut longest = 0usize;
    let mut total = 0usize;
    for lane in waiting {
        let size = first_size(lane);
        longest = longest.max(size);
        total = total.saturating_add(size);
    }
    total / WORTH >= longest
}

/// The verdict on the first frame that waits of a lane, whose code may be given. There is none without a
/// frame, or if memory ran out.
fn judge_first(
    alloc: Global,
    receiving: &mut Receiving,
    waiting: &Waiting,
    coded: Option<Coded<'_>>,
) -> Option<Result<Delivery, Refusal>>
    requires moments { HasMoment receiving.old }
    requires ready { IsReady waiting.now }
    requires coded { ForSome coded (IsCodedFirst receiving.old waiting.now) }
    ensures { JudgesFirst receiving.old waiting.now result receiving.new }
{
    let frame = waiting.frames.front()?;
    let place = waiting.came - waiting.frames.len();
    judge(receiving, alloc, frame.as_slice(), coded, place)
}

/// The verdicts on the first frames that wait.
fn judge_each(
    alloc: Global,
    receivings: &mut [Receiving],
    waiting: &[Waiting],
) -> [Option<Result<Delivery, Refusal>>; LANE_LIMIT]
    requires ready { AreReady receivings.old waiting.now }
    requires few { length receivings.old ≤ lane_limit }
    ensures same { length receivings.new ≡ length receivings.old }
    ensures size { length result ≡ 8 }
    ensures judged { (lane : ℕ) (r n : ReceivingValue) (w : WaitingValue) → lane < length receivings.old
        → JudgesFirst (get_or receivings.old lane r) (get_or waiting.now lane w)
        (slice_index_or result lane None) (get_or receivings.new lane n) }
{
    let mut coded = codes(alloc, receivings, waiting);
    let mut verdicts = [None, None, None, None, None, None, None, None];
    for lane in 0..receivings.len() {
        let code = coded[lane].take();
        verdicts[lane] = judge_first(alloc, &mut receivings[lane], &waiting[lane], code);
    }
    verdicts
}

/// Enters the verdict on the first frame that waits of a lane, if there is one.
fn enter(waiting: &mut Waiting, verdict: Option<Result<Delivery, Refusal>>)
    requires { IsReady waiting.old }
    ensures { Enters waiting.old verdict waiting.new }
{
    if let Some(verdict) = verdict {
        waiting.verdicts.push_back_reserved(verdict);
    }
}

/// Enters those of all lanes.
fn enter_each(waiting: &mut [Waiting], verdicts: [Option<Result<Delivery, Refusal>>; LANE_LIMIT])
    requires ready { (lane : ℕ) (w : WaitingValue) → lane < length waiting.old
        → IsReady (get_or waiting.old lane w) }
    requires few { length waiting.old ≤ lane_limit }
    requires size { length verdicts ≡ 8 }
    ensures { EntersEach waiting.old verdicts waiting.new }
{
    let mut verdicts = verdicts;
    for lane in 0..waiting.len() {
        enter(&mut waiting[lane], verdicts[lane].take());
    }
}

/// Opens the first frame that waits of each lane, as far as there is memory.
pub(crate) fn open_together(alloc: Global, receivings: &mut [Receiving], waiting: &mut [Waiting])
    requires ready { AreReady receivings.old waiting.old }
    requires few { length receivings.old ≤ lane_limit }
    ensures { OpensEach receivings.old waiting.old receivings.new waiting.new }
{
    let verdicts = judge_each(alloc, receivings, waiting);
    enter_each(waiting, verdicts);
}
