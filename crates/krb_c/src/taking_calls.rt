//! What C calls to take several frames.

ghost use Rattle.std.specs.Prelude.{◌≡◌, length};
ghost use Rattle.krb_c.specs.Taking.{TakeManyAnswer, TakesManyTo};

use crate::handle::Handle;
use crate::receiver_handle::KrbReceiver;
use krb_calls::{KrbFrame, KrbTaken, MOST_FRAMES, take_many_into};
use krb_structs::{Fault, KrbMoment};
use std::alloc::Global;

/// Takes these frames one after another at this moment, each as
/// [`krbrelay_receiver_take_numbered`](crate::receiver_calls::krbrelay_receiver_take_numbered) does with the
/// room that is left, and reports for each what that call would report. There are at most 64. Any answer but 0
/// leaves all as it was, and no frame is taken.
#[unsafe(no_mangle)]
pub extern "C" fn krbrelay_receiver_take_many(
    alloc: Global,
    handle: &mut KrbReceiver,
    frames: &[KrbFrame<'_>],
    at: &KrbMoment,
    out: &mut [u8],
    taken: &mut [KrbTaken; MOST_FRAMES],
) -> u32
    ensures taken { result ≡ 0 → TakesManyTo handle.old.receiver at.now frames.now taken.old out.old
        handle.new.receiver taken.new out.new }

    ensures unchanged { ¬ (result ≡ 0) → handle.new.receiver ≡ handle.old.receiver }
    ensures out_kept { ¬ (result ≡ 0) → out.new ≡ out.old }
    ensures taken_kept { ¬ (result ≡ 0) → taken.new ≡ taken.old }
    ensures answer { TakeManyAnswer handle.old.receiver (length frames.now) at.now result }
{
    if frames.len() > MOST_FRAMES {
        return Fault::Argument.code();
    }
    let Some(mut receiver) = handle.take(alloc) else {
        return Fault::Empty.code();
    };
    let done = take_many_into(alloc, &mut receiver, frames, at, out, taken);
    handle.put(alloc, receiver);
    match done {
        Ok(()) => 0,
        Err(fault) => fault.code(),
    }
}
