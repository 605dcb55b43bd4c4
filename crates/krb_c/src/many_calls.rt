//! What C calls to seal several messages.

ghost use Rattle.std.specs.Prelude.{◌≡◌, length};
ghost use Rattle.krb_c.specs.Many.{ManyAnswerBy, SealsManyTo, advanced_by_if, failed_by, many_code};

use crate::handle::Handle;
use crate::sealer_handle::KrbSealer;
use krb_calls::{KrbUnsealed, MOST_MESSAGES, ManyFault, seal_many_into};
use krb_structs::Fault;
use std::alloc::Global;

/// Answers 0 or the number of the fault. Where it is that of a message, it tells which.
pub fn many_answer(failed: &mut usize, sealed: Result<(), ManyFault>) -> u32
    ensures answer { result ≡ many_code sealed }
    ensures failed { failed.new ≡ failed_by sealed failed.old }
{
    match sealed {
        Ok(()) => 0,
        Err(ManyFault::Message { index, fault }) => {
            *failed = index;
            fault.code()
        }
        Err(ManyFault::All(fault)) => fault.code(),
    }
}

/// Writes the frames of these messages at the next sequence numbers, one after another, and the size
/// of each. There are at most 64. Any answer but 0 leaves all as it was; where it is that of a message,
/// `failed` is the index of the first that isn't sealed.
#[unsafe(no_mangle)]
pub extern "C" fn krbrelay_sealer_seal_many(
    alloc: Global,
    handle: &mut KrbSealer,
    messages: &[KrbUnsealed<'_>],
    out: &mut [u8],
    sizes: &mut [usize; MOST_MESSAGES],
    failed: &mut usize,
) -> u32
    ensures sealed { result ≡ 0 → SealsManyTo handle.old.sealer messages.now out.old out.new
        sizes.old sizes.new }
    ensures advanced { result ≡ 0 → handle.new.sealer
        ≡ advanced_by_if handle.old.sealer (length messages.now) }

    ensures unchanged { ¬ (result ≡ 0) → handle.new.sealer ≡ handle.old.sealer }
    ensures out_kept { ¬ (result ≡ 0) → out.new ≡ out.old }
    ensures sizes_kept { ¬ (result ≡ 0) → sizes.new ≡ sizes.old }
    ensures answer { ManyAnswerBy handle.old.sealer messages.now (length out.old) failed.old
        failed.new result }
{
    if messages.len() > MOST_MESSAGES {
        return Fault::Argument.code();
    }
    let Some(mut sealer) = handle.take(alloc) else {
        return Fault::Empty.code();
    };
    let sealed = seal_many_into(alloc, &mut sealer, messages, out, sizes);
    handle.put(alloc, sealer);
    many_answer(failed, sealed)
}
