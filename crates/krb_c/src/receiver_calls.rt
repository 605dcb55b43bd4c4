//! What C calls of receivers. Each function answers 0, or the number of the fault of the first condition
//! that doesn't hold.

ghost use Rattle.std.specs.Prelude.{◌≡◌, ◌≤◌, drop, length, take, None};
ghost use Rattle.krb_seal.specs.Opens.{opener_of};
ghost use Rattle.krb_c.specs.Exports.{Demands, IsDemanded, IsDemanding, AcceptsTo, TellsNumberTo};
ghost use Rattle.krb_structs.specs.Moment.{micros_of};
ghost use Rattle.krb_structs.specs.Reasons.{ReceiverAnswer, TakeAnswer};
ghost use Rattle.krb_structs.specs.Session.{IsExpect, expect_of, is_set};

use crate::handle::Handle;
use crate::receiver_handle::KrbReceiver;
use krb_structs::{Fault, KrbExpect, KrbMoment, LaneReceiver};
use std::alloc::Global;

/// Makes a receiver of encryption type 17 or 18 under a key of 16 or 32 bytes, which demands the
/// number `expected` next, or refuses all where `closed` isn't 0. What the handle held ends.
#[unsafe(no_mangle)]
pub extern "C" fn krbrelay_receiver_new(
    alloc: Global,
    handle: &mut KrbReceiver,
    etype: i32,
    key: &[u8],
    told: &KrbExpect,
    expected: u64,
    closed: u32,
) -> u32
    ensures made { result ≡ 0 → Demands handle.new.receiver
        (opener_of etype key.now (expect_of told.now)) expected (is_set closed) }
    ensures nothing { ¬ (result ≡ 0) → handle.new.receiver ≡ None }
    ensures answer { ReceiverAnswer expected etype (length key.now) (IsExpect told.now)
        told.now.mode told.now.sender.len told.now.receiver.len result }
{
    match LaneReceiver::new(alloc, etype, key, told, expected, closed != 0) {
        Ok(receiver) => {
            handle.put(alloc, receiver);
            0
        }
        Err(fault) => {
            handle.clear(alloc);
            fault.code()
        }
    }
}

/// Takes a frame at this moment: tells the kind of its record (1 a text, 2 a batch, 3 the close),
/// and writes the record's bytes after the first and their size. Any answer but 0 leaves all as it
/// was.
#[unsafe(no_mangle)]
pub extern "C" fn krbrelay_receiver_take(
    alloc: Global,
    handle: &mut KrbReceiver,
    frame: &[u8],
    at: &KrbMoment,
    kind: &mut u32,
    out: &mut [u8],
    size: &mut usize,
) -> u32
    ensures accepted { result ≡ 0 → AcceptsTo handle.old.receiver (micros_of at.now) frame.now
        kind.new (take size.new out.new) handle.new.receiver }
    ensures size { result ≡ 0 → size.new ≤ length out.new }
    ensures rest { result ≡ 0 → drop size.new out.new ≡ drop size.new out.old }

    ensures unchanged { ¬ (result ≡ 0) → handle.new.receiver ≡ handle.old.receiver }
    ensures out_kept { ¬ (result ≡ 0) → out.new ≡ out.old }
    ensures size_kept { ¬ (result ≡ 0) → size.new ≡ size.old }
    ensures kind_kept { ¬ (result ≡ 0) → kind.new ≡ kind.old }
    ensures answer { TakeAnswer handle.old.receiver at.now frame.now (length out.old) result }
{
    let Some(mut receiver) = handle.take(alloc) else {
        return Fault::Empty.code();
    };
    let taken = receiver.take(alloc, frame, at, out);
    handle.put(alloc, receiver);
    match taken {
        Ok((found, written)) => {
            *kind = found;
            *size = written;
            0
        }
        Err(fault) => fault.code(),
    }
}

/// Takes a frame as `krbrelay_receiver_take` does, and tells its number. If its number is all that the
/// frame is refused by (42), it tells the one at which the frame opens, and the highest of 64 bits if it
/// opens at none. With another answer it tells no number.
#[unsafe(no_mangle)]
pub extern "C" fn krbrelay_receiver_take_numbered(
    alloc: Global,
    handle: &mut KrbReceiver,
    frame: &[u8],
    at: &KrbMoment,
    kind: &mut u32,
    out: &mut [u8],
    size: &mut usize,
    number: &mut u64,
) -> u32
    ensures accepted { result ≡ 0 → AcceptsTo handle.old.receiver (micros_of at.now) frame.now
        kind.new (take size.new out.new) handle.new.receiver }
    ensures size { result ≡ 0 → size.new ≤ length out.new }
    ensures rest { result ≡ 0 → drop size.new out.new ≡ drop size.new out.old }
    ensures number { result ≡ 0 → IsDemanded handle.old.receiver number.new }
    ensures misordered { result ≡ 42 → TellsNumberTo handle.old.receiver (micros_of at.now)
        frame.now number.new }

    ensures unchanged { ¬ (result ≡ 0) → handle.new.receiver ≡ handle.old.receiver }
    ensures out_kept { ¬ (result ≡ 0) → out.new ≡ out.old }
    ensures size_kept { ¬ (result ≡ 0) → size.new ≡ size.old }
    ensures kind_kept { ¬ (result ≡ 0) → kind.new ≡ kind.old }
    ensures number_kept { ¬ (result ≡ 0) → ¬ (result ≡ 42) → number.new ≡ number.old }
    ensures answer { TakeAnswer handle.old.receiver at.now frame.now (length out.old) result }
{
    let Some(mut receiver) = handle.take(alloc) else {
        return Fault::Empty.code();
    };
    let taken = receiver.take_numbered(alloc, frame, at, out, number);
    handle.put(alloc, receiver);
    match taken {
        Ok((found, written)) => {
            *kind = found;
            *size = written;
            0
        }
        Err(fault) => fault.code(),
    }
}

/// Tells the number that is demanded next, 4,294,967,296 where none is left, and whether a close was
/// accepted.
#[unsafe(no_mangle)]
pub extern "C" fn krbrelay_receiver_state(
    alloc: Global,
    handle: &mut KrbReceiver,
    expected: &mut u64,
    closed: &mut u32,
) -> u32
    ensures told { result ≡ 0 → IsDemanding handle.old.receiver expected.new closed.new }
    ensures empty { ¬ (result ≡ 0) → (result ≡ 907) × (handle.old.receiver ≡ None) }
    ensures expected_kept { ¬ (result ≡ 0) → expected.new ≡ expected.old }
    ensures closed_kept { ¬ (result ≡ 0) → closed.new ≡ closed.old }
    ensures kept { handle.new.receiver ≡ handle.old.receiver }
{
    let Some(receiver) = handle.take(alloc) else {
        return Fault::Empty.code();
    };
    *expected = receiver.expected();
    *closed = u32::from(receiver.closed());
    handle.put(alloc, receiver);
    0
}

/// Overwrites the keys, and frees the receiver. The handle holds nothing then.
#[unsafe(no_mangle)]
pub extern "C" fn krbrelay_receiver_free(alloc: Global, handle: &mut KrbReceiver)
    ensures { handle.new.receiver ≡ None }
{
    handle.clear(alloc);
}
