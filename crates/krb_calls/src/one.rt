//! One frame of several.

ghost use Rattle.std.specs.Prelude.{◌≡◌, ◌≤◌, length};
ghost use Rattle.std.specs.Option.{ForSome};
ghost use Rattle.krb_seal.specs.Covered.{IsCodedFrame};
ghost use Rattle.krb_calls.specs.Takes.{Takes, used};

use crate::taken::KrbTaken;
use krb_seal::Coded;
use krb_structs::{KrbMoment, LaneReceiver};
use std::alloc::Global;

/// Takes a frame, whose code may be given, as
/// [`LaneReceiver::take_numbered`](krb_structs::LaneReceiver::take_numbered) does, and answers how many
/// bytes it wrote.
pub fn take_one(
    alloc: Global,
    receiver: &mut LaneReceiver,
    frame: &[u8],
    coded: Option<Coded<'_>>,
    at: &KrbMoment,
    out: &mut [u8],
    taken: &mut KrbTaken,
) -> usize
    requires coded { ForSome coded (IsCodedFrame receiver.old.opener frame.now) }
    ensures takes { Takes receiver.old at.now frame.now taken.old out.old receiver.new taken.new
        out.new }
    ensures used { result ≡ used taken.new }
    ensures within { result ≤ length out.new }
    ensures opener { receiver.new.opener ≡ receiver.old.opener }
{
    let mut number = taken.number;
    match receiver.take_coded(alloc, frame, coded, at, out, &mut number) {
        Ok((kind, size)) => {
            *taken = KrbTaken {
                answer: 0,
                kind,
                size,
                number,
            };
            size
        }
        Err(fault) => {
            taken.answer = fault.code();
            taken.number = number;
            0
        }
    }
}
