//! What the calling thread takes in a round: one item of each lane whose End wasn't taken.

ghost use Rattle.std.specs.Prelude.{◌≡◌, List, length, All};
ghost use Rattle.krb_lane.specs.Side.{Side};
ghost use Rattle.krb_relay.specs.Waiting.{HasTaken, HaveTaken, IsUnjudged};

use crate::cause::OwnCause;
use crate::waiting::{Last, Waiting};
use krb_lane::{Item, LaneRx, Lost};
use std::sync::Wait;

/// Takes one round. The result is how many bytes the frames had.
///
/// If a lane has no item, its sender being gone or memory having run out, that is the last turn.
pub(crate) fn take_round<R: Wait>(rt: &R, ends: &mut [LaneRx], waiting: &mut [Waiting]) -> usize
    requires each { length ends.old ≡ length waiting.old }
    requires unjudged { All IsUnjudged waiting.old }
    ensures taken { (mids : List Side) → HaveTaken mids ends.old waiting.old
        → HaveTaken mids ends.new waiting.new }
    ensures unjudged { All IsUnjudged waiting.new }
    ensures each { length ends.new ≡ length waiting.new }
{
    let mut bytes = 0usize;
    for lane in 0..ends.len() {
        let Some(more) = take_one(rt, &mut ends[lane], &mut waiting[lane]) else {
            return bytes;
        };
        bytes = bytes.saturating_add(more);
    }
    bytes
}

/// Takes the next item of a lane, unless its End was taken. The result is how many bytes the frame had,
/// or `None` if there is no item.
fn take_one<R: Wait>(rt: &R, rx: &mut LaneRx, waiting: &mut Waiting) -> Option<usize>
    ensures taken { (mid : Side) → HasTaken mid rx.old waiting.old
        → HasTaken mid rx.new waiting.new }
    ensures verdicts { waiting.new.verdicts ≡ waiting.old.verdicts }
{
    if rx.ended() {
        return Some(0);
    }
    if waiting.frames.reserve(1).is_err() {
        return None;
    }
    match rx.take(rt) {
        Ok(Item::Frame { index: _, bytes }) => {
            let count = bytes.as_slice().len();
            waiting.came = rx.count() as usize;
            waiting.frames.push_back_reserved(bytes);
            Some(count)
        }
        Ok(Item::End) => {
            waiting.last = Last::End;
            Some(0)
        }
        Err(Lost) => {
            waiting.last = Last::More(OwnCause::Lost);
            None
        }
    }
}
