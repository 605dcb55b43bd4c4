//! Taking of several frames into one buffer.

ghost use Rattle.std.specs.Prelude.{◌≡◌, ◌≤◌, [], length, OnErr, OnOk};
ghost use Rattle.krb_structs.specs.Fault.{IsDone, answer_of};
ghost use Rattle.krb_structs.specs.Reasons.{NeedsMoment};
ghost use Rattle.krb_calls.specs.Takes.{TakesInTurn};

use crate::codes::next_code;
use crate::frame::KrbFrame;
use crate::one::take_one;
use crate::taken::KrbTaken;
use krb_bulk::are_many;
use krb_structs::{Fault, KrbMoment, LaneReceiver};
use std::alloc::Global;
use std::collections::VecDeque;

/// How many frames are taken in one call at most.
pub const MOST_FRAMES: usize = 64;

/// Takes frames one after another.
fn take_all(
    alloc: Global,
    receiver: &mut LaneReceiver,
    frames: &[KrbFrame<'_>],
    at: &KrbMoment,
    out: &mut [u8],
    taken: &mut [KrbTaken],
)
    requires count { length frames.now ≤ length taken.old }
    ensures { TakesInTurn receiver.old at.now frames.now taken.old out.old receiver.new taken.new
        out.new }
{
    let mut from = 0;
    let mut queue = VecDeque::new(alloc);
    for index in 0..frames.len() {
        let coded = next_code(alloc, receiver.opener(), &frames[index..], &mut queue);
        from += take_one(
            alloc,
            receiver,
            frames[index].bytes,
            coded,
            at,
            &mut out[from..],
            &mut taken[index],
        );
    }
}

/// Takes frames one after another at a moment, each as [`LaneReceiver::take_numbered`] does with the room
/// that is left, and reports for each what that call would report. The bytes of their records stand one after
/// another in the buffer. What follows them stays.
///
/// A fault is that of the moment, and then no frame is taken and all stays as it was.
pub fn take_many_into(
    alloc: Global,
    receiver: &mut LaneReceiver,
    frames: &[KrbFrame<'_>],
    at: &KrbMoment,
    out: &mut [u8],
    taken: &mut [KrbTaken],
) -> Result<(), Fault>
    requires { length frames.now ≤ length taken.old }
    ensures taken { OnOk result (TakesInTurn receiver.old at.now frames.now taken.old out.old
        receiver.new taken.new out.new) }
    ensures unchanged { OnErr result (receiver.new ≡ receiver.old) }
    ensures out_kept { OnErr result (out.new ≡ out.old) }
    ensures taken_kept { OnErr result (taken.new ≡ taken.old) }
    ensures answer { NeedsMoment at.now IsDone (answer_of result) }
{
    at.moment()?;
    if are_many(frames.len()) {
        receiver.prepare_batch();
    }
    take_all(alloc, receiver, frames, at, out, taken);
    Ok(())
}
