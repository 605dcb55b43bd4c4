//! What C calls of sealers. Each function answers 0, or the number of the fault of the first condition
//! that doesn't hold.

ghost use Rattle.std.specs.Prelude.{◌≡◌, ◌≤◌, drop, length, take, None, Some};
ghost use Rattle.krb_seal.specs.Sealer.{new_state};
ghost use Rattle.krb_c.specs.Answers.{ModeAnswerBy, RecordAnswerBy, SealAnswerBy, SizeAnswerBy};
ghost use Rattle.krb_c.specs.Exports.{IsNext, IsNextSize, SealsTo, advanced_if, in_mode_if, wiped_if, SealsRecordTo};
ghost use Rattle.krb_structs.specs.Moment.{micros_of};
ghost use Rattle.krb_structs.specs.Reasons.{NewAnswer};
ghost use Rattle.krb_structs.specs.Room.{FitsFrames, frame_room};
ghost use Rattle.krb_structs.specs.Session.{IsSession, mode_of, session_of};

use crate::handle::Handle;
use crate::sealer_handle::KrbSealer;
use krb_structs::{AnySealer, Fault, KrbMoment, KrbSession, Wipe, answer, frame_size};
use std::alloc::Global;

/// Makes a sealer of encryption type 17 or 18 under a key of 16 or 32 bytes. What the handle held
/// ends.
#[unsafe(no_mangle)]
pub extern "C" fn krbrelay_sealer_new(
    alloc: Global,
    handle: &mut KrbSealer,
    etype: i32,
    key: &[u8],
    told: &KrbSession,
) -> u32
    ensures made { result ≡ 0 → handle.new.sealer
        ≡ Some (new_state etype key.now (session_of told.now)) }
    ensures nothing { ¬ (result ≡ 0) → handle.new.sealer ≡ None }
    ensures answer { NewAnswer etype (length key.now) (IsSession told.now) told.now.mode
        told.now.sender.len told.now.receiver.len result }
{
    match AnySealer::new(alloc, etype, key, told) {
        Ok(sealer) => {
            handle.put(alloc, sealer);
            0
        }
        Err(fault) => {
            handle.clear(alloc);
            fault.code()
        }
    }
}

/// A size of buffer in which the frame of that many bytes of user data fits.
#[unsafe(no_mangle)]
pub extern "C" fn krbrelay_frame_size(len: usize) -> usize
    ensures value { result ≡ frame_room len }
    ensures law { FitsFrames len result }
{
    frame_size(len)
}

/// Writes the frame of these user data at the next sequence number, and its size. The confounder is
/// 16 bytes that nobody can foresee. Any answer but 0 leaves all as it was.
#[unsafe(no_mangle)]
pub extern "C" fn krbrelay_sealer_seal(
    alloc: Global,
    handle: &mut KrbSealer,
    user: &[u8],
    at: &KrbMoment,
    confounder: &[u8; 16],
    out: &mut [u8],
    size: &mut usize,
) -> u32
    ensures sealed { result ≡ 0 → SealsTo handle.old.sealer user.now (micros_of at.now)
        confounder.now (take size.new out.new) }
    ensures size { result ≡ 0 → size.new ≤ length out.new }
    ensures rest { result ≡ 0 → drop size.new out.new ≡ drop size.new out.old }
    ensures advanced { result ≡ 0 → handle.new.sealer ≡ advanced_if handle.old.sealer }

    ensures unchanged { ¬ (result ≡ 0) → handle.new.sealer ≡ handle.old.sealer }
    ensures out_kept { ¬ (result ≡ 0) → out.new ≡ out.old }
    ensures size_kept { ¬ (result ≡ 0) → size.new ≡ size.old }
    ensures answer { SealAnswerBy handle.old.sealer (length user.now) at.now (length out.old)
        result }
{
    let Some(mut sealer) = handle.take(alloc) else {
        return Fault::Empty.code();
    };
    let sealed = sealer.seal(alloc, user, at, confounder, out);
    handle.put(alloc, sealer);
    answer(size, sealed)
}

/// Writes the frame of a record at the next sequence number, and its size: of a text (kind 1), a
/// batch (2) or the close (3), whose bytes after the first are `body`. Any answer but 0 leaves all as
/// it was.
#[unsafe(no_mangle)]
pub extern "C" fn krbrelay_sealer_seal_record(
    alloc: Global,
    handle: &mut KrbSealer,
    kind: u32,
    body: &[u8],
    at: &KrbMoment,
    confounder: &[u8; 16],
    out: &mut [u8],
    size: &mut usize,
) -> u32
    ensures sealed { result ≡ 0 → SealsRecordTo handle.old.sealer kind body.now (micros_of at.now)
        confounder.now (take size.new out.new) }
    ensures size { result ≡ 0 → size.new ≤ length out.new }
    ensures rest { result ≡ 0 → drop size.new out.new ≡ drop size.new out.old }
    ensures advanced { result ≡ 0 → handle.new.sealer ≡ advanced_if handle.old.sealer }

    ensures unchanged { ¬ (result ≡ 0) → handle.new.sealer ≡ handle.old.sealer }
    ensures out_kept { ¬ (result ≡ 0) → out.new ≡ out.old }
    ensures size_kept { ¬ (result ≡ 0) → size.new ≡ size.old }
    ensures answer { RecordAnswerBy handle.old.sealer kind body.now at.now (length out.old)
        result }
{
    let Some(mut sealer) = handle.take(alloc) else {
        return Fault::Empty.code();
    };
    let sealed = sealer.seal_record(alloc, kind, body, at, confounder, out);
    handle.put(alloc, sealer);
    answer(size, sealed)
}

/// Tells the next sequence number, which is 4,294,967,296 where no number is left.
#[unsafe(no_mangle)]
pub extern "C" fn krbrelay_sealer_next(alloc: Global, handle: &mut KrbSealer, next: &mut u64) -> u32
    ensures told { result ≡ 0 → IsNext handle.old.sealer next.new }
    ensures empty { ¬ (result ≡ 0) → (result ≡ 907) × (handle.old.sealer ≡ None) }
    ensures untold { ¬ (result ≡ 0) → next.new ≡ next.old }
    ensures kept { handle.new.sealer ≡ handle.old.sealer }
{
    let Some(sealer) = handle.take(alloc) else {
        return Fault::Empty.code();
    };
    *next = sealer.next();
    handle.put(alloc, sealer);
    0
}

/// Tells the exact size of the frame of so many bytes of user data at the next sequence number and
/// this moment. Where no number is left, no frame has it.
#[unsafe(no_mangle)]
pub extern "C" fn krbrelay_sealer_frame_size(
    alloc: Global,
    handle: &mut KrbSealer,
    len: usize,
    at: &KrbMoment,
    size: &mut usize,
) -> u32
    ensures size { result ≡ 0 → IsNextSize handle.old.sealer len at.now size.new }
    ensures answer { SizeAnswerBy handle.old.sealer len at.now result }
    ensures untold { ¬ (result ≡ 0) → size.new ≡ size.old }
    ensures kept { handle.new.sealer ≡ handle.old.sealer }
{
    let Some(sealer) = handle.take(alloc) else {
        return Fault::Empty.code();
    };
    let told = sealer.next_size(len, at);
    handle.put(alloc, sealer);
    answer(size, told)
}

/// Seals in this mode from now on: 20 for KRB-SAFE, 21 for KRB-PRIV. Key, number and addresses stay.
#[unsafe(no_mangle)]
pub extern "C" fn krbrelay_sealer_set_mode(
    alloc: Global,
    handle: &mut KrbSealer,
    number: u32,
) -> u32
    ensures set { result ≡ 0 → handle.new.sealer ≡ in_mode_if handle.old.sealer (mode_of number) }
    ensures unchanged { ¬ (result ≡ 0) → handle.new.sealer ≡ handle.old.sealer }
    ensures answer { ModeAnswerBy handle.old.sealer number result }
{
    let Some(mut sealer) = handle.take(alloc) else {
        return Fault::Empty.code();
    };
    let set = sealer.set_mode(number);
    handle.put(alloc, sealer);
    match set {
        Ok(()) => 0,
        Err(fault) => fault.code(),
    }
}

/// Overwrites the keys where they lie. The sealer seals nothing from then on.
#[unsafe(no_mangle)]
pub extern "C" fn krbrelay_sealer_wipe(alloc: Global, handle: &mut KrbSealer)
    ensures { handle.new.sealer ≡ wiped_if handle.old.sealer }
{
    if let Some(mut sealer) = handle.take(alloc) {
        sealer.wipe();
        handle.put(alloc, sealer);
    }
}

/// Overwrites the keys, and frees the sealer. The handle holds nothing then.
#[unsafe(no_mangle)]
pub extern "C" fn krbrelay_sealer_free(alloc: Global, handle: &mut KrbSealer)
    ensures { handle.new.sealer ≡ None }
{
    handle.clear(alloc);
}
