//! What C calls of openers. Each function answers 0, or the number of the fault of the first condition
//! that doesn't hold.

ghost use Rattle.std.specs.Prelude.{◌≡◌, ◌≤◌, drop, length, take, Ok, None, Some};
ghost use Rattle.krb_seal.specs.Opens.{opener_of};
ghost use Rattle.krb_structs.specs.Opening.{GivesTo, OpensTo};
ghost use Rattle.krb_c.specs.Exports.{opener_wiped_if};
ghost use Rattle.krb_structs.specs.Moment.{micros_of};
ghost use Rattle.krb_structs.specs.Reasons.{DemandAnswer, NewAnswer, OpenAnswer};
ghost use Rattle.krb_structs.specs.Session.{IsExpect, expect_of};

use crate::handle::Handle;
use crate::opener_handle::KrbOpener;
use krb_structs::{
    Fault, KrbCarried, KrbDemand, KrbExpect, KrbMoment, Wipe, WipeableOpener, answer, open_into,
    unseal_in_place, unseal_into,
};
use std::alloc::Global;

/// Makes an opener of encryption type 17 or 18 under a key of 16 or 32 bytes. What the handle held
/// ends.
#[unsafe(no_mangle)]
pub extern "C" fn krbrelay_opener_new(
    alloc: Global,
    handle: &mut KrbOpener,
    etype: i32,
    key: &[u8],
    told: &KrbExpect,
) -> u32
    ensures made { result ≡ 0 → handle.new.opener
        ≡ Some (Some (opener_of etype key.now (expect_of told.now))) }
    ensures nothing { ¬ (result ≡ 0) → handle.new.opener ≡ None }
    ensures answer { NewAnswer etype (length key.now) (IsExpect told.now) told.now.mode
        told.now.sender.len told.now.receiver.len result }
{
    match WipeableOpener::new(alloc, etype, key, told) {
        Ok(opener) => {
            handle.put(alloc, opener);
            0
        }
        Err(fault) => {
            handle.clear(alloc);
            fault.code()
        }
    }
}

/// Writes the user data of a frame that carries the sequence number, at this moment, and their
/// size. Any answer but 0 leaves all as it was.
#[unsafe(no_mangle)]
pub extern "C" fn krbrelay_opener_unseal(
    alloc: Global,
    handle: &mut KrbOpener,
    frame: &[u8],
    number: u64,
    at: &KrbMoment,
    out: &mut [u8],
    size: &mut usize,
) -> u32
    ensures opened { result ≡ 0 → OpensTo handle.old.opener number (micros_of at.now)
        frame.now (Ok (take size.new out.new)) }
    ensures size { result ≡ 0 → size.new ≤ length out.new }
    ensures rest { result ≡ 0 → drop size.new out.new ≡ drop size.new out.old }

    ensures kept { handle.new.opener ≡ handle.old.opener }
    ensures out_kept { ¬ (result ≡ 0) → out.new ≡ out.old }
    ensures size_kept { ¬ (result ≡ 0) → size.new ≡ size.old }
    ensures answer { OpenAnswer handle.old.opener number at.now frame.now (length out.old) result }
{
    let Some(opener) = handle.take(alloc) else {
        return Fault::Empty.code();
    };
    let opened = unseal_into(alloc, &opener, frame, number, at, out);
    handle.put(alloc, opener);
    answer(size, opened)
}

/// Opens a frame that carries the sequence number, at this moment, into its own bytes: its user data
/// are written over its beginning, and their size is reported. Any answer but 0 leaves all as it was.
#[unsafe(no_mangle)]
pub extern "C" fn krbrelay_opener_unseal_in_place(
    alloc: Global,
    handle: &mut KrbOpener,
    frame: &mut [u8],
    number: u64,
    at: &KrbMoment,
    size: &mut usize,
) -> u32
    ensures opened { result ≡ 0 → OpensTo handle.old.opener number (micros_of at.now)
        frame.old (Ok (take size.new frame.new)) }
    ensures size { result ≡ 0 → size.new ≤ length frame.new }
    ensures rest { result ≡ 0 → drop size.new frame.new ≡ drop size.new frame.old }

    ensures kept { handle.new.opener ≡ handle.old.opener }
    ensures frame_kept { ¬ (result ≡ 0) → frame.new ≡ frame.old }
    ensures size_kept { ¬ (result ≡ 0) → size.new ≡ size.old }
    ensures answer { OpenAnswer handle.old.opener number at.now frame.old (length frame.old)
        result }
{
    let Some(opener) = handle.take(alloc) else {
        return Fault::Empty.code();
    };
    let opened = unseal_in_place(alloc, &opener, frame, number, at);
    handle.put(alloc, opener);
    answer(size, opened)
}

/// Opens a frame with demands of the caller's, at this moment: writes its user data and their size,
/// and tells what else it carried. Any answer but 0 leaves all as it was.
#[unsafe(no_mangle)]
pub extern "C" fn krbrelay_opener_open(
    alloc: Global,
    handle: &mut KrbOpener,
    frame: &[u8],
    demand: &KrbDemand,
    at: &KrbMoment,
    out: &mut [u8],
    size: &mut usize,
    told: &mut KrbCarried,
) -> u32
    ensures opened { result ≡ 0 → GivesTo handle.old.opener demand.now (micros_of at.now)
        frame.now (take size.new out.new) told.new }
    ensures size { result ≡ 0 → size.new ≤ length out.new }
    ensures rest { result ≡ 0 → drop size.new out.new ≡ drop size.new out.old }

    ensures kept { handle.new.opener ≡ handle.old.opener }
    ensures out_kept { ¬ (result ≡ 0) → out.new ≡ out.old }
    ensures size_kept { ¬ (result ≡ 0) → size.new ≡ size.old }
    ensures untold { ¬ (result ≡ 0) → told.new ≡ told.old }
    ensures answer { DemandAnswer handle.old.opener demand.now at.now frame.now (length out.old)
        result }
{
    let Some(opener) = handle.take(alloc) else {
        return Fault::Empty.code();
    };
    let opened = open_into(alloc, &opener, frame, demand, at, out, told);
    handle.put(alloc, opener);
    answer(size, opened)
}

/// Overwrites the keys where they lie. The opener opens nothing from then on.
#[unsafe(no_mangle)]
pub extern "C" fn krbrelay_opener_wipe(alloc: Global, handle: &mut KrbOpener)
    ensures { handle.new.opener ≡ opener_wiped_if handle.old.opener }
{
    if let Some(mut opener) = handle.take(alloc) {
        opener.wipe();
        handle.put(alloc, opener);
    }
}

/// Overwrites the keys, and frees the opener. The handle holds nothing then.
#[unsafe(no_mangle)]
pub extern "C" fn krbrelay_opener_free(alloc: Global, handle: &mut KrbOpener)
    ensures { handle.new.opener ≡ None }
{
    handle.clear(alloc);
}
