//! What C calls of peers. Each function answers 0, or the number of the fault of the first condition
//! that doesn't hold.

ghost use Rattle.std.specs.Prelude.{◌≡◌, ◌≤◌, drop, length, take, None, Some};
ghost use Rattle.krb_c.specs.Many.{ManyAnswerBy, SealsManyTo, sealed_many_if, sealer_if};
ghost use Rattle.krb_c.specs.Peers.{ExportsAt, HasNumbers, MisordersAt, OpenAnswerAt, OpensAt, ResumesIn, SealAnswerAt, SealsAt, opened_if, sealed_if};
ghost use Rattle.krb_structs.specs.Moment.{micros_of};
ghost use Rattle.krb_structs.specs.Peer.{new_peer};
ghost use Rattle.krb_structs.specs.Reasons.{PeerAnswer, ResumeAnswer};

use crate::handle::Handle;
use crate::many_calls::many_answer;
use crate::peer_handle::KrbPeer;
use krb_calls::{KrbUnsealed, MOST_MESSAGES, peer_seal_many_into};
use krb_structs::{EXPORT_SIZE, Fault, KrbCarried, KrbDemand, KrbMoment, KrbSession, Peer, answer};
use std::alloc::Global;

/// Makes a peer of encryption type 17 or 18 under a key of 16 or 32 bytes. What the handle held ends.
#[unsafe(no_mangle)]
pub extern "C" fn krbrelay_peer_new(
    alloc: Global,
    handle: &mut KrbPeer,
    etype: i32,
    key: &[u8],
    told: &KrbSession,
    demand: &KrbDemand,
) -> u32
    ensures made { result ≡ 0 → handle.new.peer
        ≡ Some (new_peer etype key.now told.now demand.now) }
    ensures nothing { ¬ (result ≡ 0) → handle.new.peer ≡ None }
    ensures answer { PeerAnswer etype (length key.now) told.now demand.now result }
{
    match Peer::new(alloc, etype, key, told, demand) {
        Ok(peer) => {
            handle.put(alloc, peer);
            0
        }
        Err(fault) => {
            handle.clear(alloc);
            fault.code()
        }
    }
}

/// Makes a peer that goes on where another was exported: the numbers of the session and of the demand
/// are 0. What the handle held ends.
#[unsafe(no_mangle)]
pub extern "C" fn krbrelay_peer_resume(
    alloc: Global,
    handle: &mut KrbPeer,
    etype: i32,
    key: &[u8],
    told: &KrbSession,
    demand: &KrbDemand,
    state: &[u8; EXPORT_SIZE],
) -> u32
    ensures made { result ≡ 0 → ResumesIn etype key.now told.now demand.now state.now
        handle.new.peer }
    ensures nothing { ¬ (result ≡ 0) → handle.new.peer ≡ None }
    ensures answer { ResumeAnswer etype (length key.now) told.now demand.now state.now result }
{
    match Peer::resume(alloc, etype, key, told, demand, state) {
        Ok(peer) => {
            handle.put(alloc, peer);
            0
        }
        Err(fault) => {
            handle.clear(alloc);
            fault.code()
        }
    }
}

/// Writes the frame of these user data at the next sequence number, and its size, as
/// [`krbrelay_sealer_seal`](crate::sealer_calls::krbrelay_sealer_seal) does.
#[unsafe(no_mangle)]
pub extern "C" fn krbrelay_peer_seal(
    alloc: Global,
    handle: &mut KrbPeer,
    user: &[u8],
    at: &KrbMoment,
    confounder: &[u8; 16],
    out: &mut [u8],
    size: &mut usize,
) -> u32
    ensures sealed { result ≡ 0 → SealsAt handle.old.peer user.now (micros_of at.now)
        confounder.now (take size.new out.new) }
    ensures size { result ≡ 0 → size.new ≤ length out.new }
    ensures rest { result ≡ 0 → drop size.new out.new ≡ drop size.new out.old }
    ensures advanced { result ≡ 0 → handle.new.peer ≡ sealed_if handle.old.peer }

    ensures unchanged { ¬ (result ≡ 0) → handle.new.peer ≡ handle.old.peer }
    ensures out_kept { ¬ (result ≡ 0) → out.new ≡ out.old }
    ensures size_kept { ¬ (result ≡ 0) → size.new ≡ size.old }
    ensures answer { SealAnswerAt handle.old.peer (length user.now) at.now (length out.old)
        result }
{
    let Some(mut peer) = handle.take(alloc) else {
        return Fault::Empty.code();
    };
    let sealed = peer.seal(alloc, user, at, confounder, out);
    handle.put(alloc, peer);
    answer(size, sealed)
}

/// Writes the frames of these messages at the next sequence numbers, one after another, and the size of
/// each, as [`krbrelay_sealer_seal_many`](crate::many_calls::krbrelay_sealer_seal_many) does. What is expected of
/// the other end stays.
#[unsafe(no_mangle)]
pub extern "C" fn krbrelay_peer_seal_many(
    alloc: Global,
    handle: &mut KrbPeer,
    messages: &[KrbUnsealed<'_>],
    out: &mut [u8],
    sizes: &mut [usize; MOST_MESSAGES],
    failed: &mut usize,
) -> u32
    ensures sealed { result ≡ 0 → SealsManyTo (sealer_if handle.old.peer) messages.now out.old
        out.new sizes.old sizes.new }
    ensures advanced { result ≡ 0 → handle.new.peer
        ≡ sealed_many_if handle.old.peer (length messages.now) }

    ensures unchanged { ¬ (result ≡ 0) → handle.new.peer ≡ handle.old.peer }
    ensures out_kept { ¬ (result ≡ 0) → out.new ≡ out.old }
    ensures sizes_kept { ¬ (result ≡ 0) → sizes.new ≡ sizes.old }
    ensures answer { ManyAnswerBy (sealer_if handle.old.peer) messages.now (length out.old)
        failed.old failed.new result }
{
    if messages.len() > MOST_MESSAGES {
        return Fault::Argument.code();
    }
    let Some(mut peer) = handle.take(alloc) else {
        return Fault::Empty.code();
    };
    let sealed = peer_seal_many_into(alloc, &mut peer, messages, out, sizes);
    handle.put(alloc, peer);
    many_answer(failed, sealed)
}

/// Opens a frame that carries the number which is expected, at this moment: writes its user data and
/// their size, and tells what else it carried. The number that is expected is one more then.
///
/// BADORDER, 42, says that the message is authentic and passes all checks but the number's, and tells
/// what it carried. Nothing else changes then, and nothing at all on any other answer but 0.
#[unsafe(no_mangle)]
pub extern "C" fn krbrelay_peer_open(
    alloc: Global,
    handle: &mut KrbPeer,
    frame: &[u8],
    at: &KrbMoment,
    out: &mut [u8],
    size: &mut usize,
    told: &mut KrbCarried,
) -> u32
    ensures opened { result ≡ 0 → OpensAt handle.old.peer (micros_of at.now) frame.now
        (take size.new out.new) told.new }
    ensures size { result ≡ 0 → size.new ≤ length out.new }
    ensures rest { result ≡ 0 → drop size.new out.new ≡ drop size.new out.old }
    ensures risen { result ≡ 0 → handle.new.peer ≡ opened_if handle.old.peer }
    ensures misordered { result ≡ 42 → MisordersAt handle.old.peer (micros_of at.now) frame.now
        told.new }

    ensures unchanged { ¬ (result ≡ 0) → handle.new.peer ≡ handle.old.peer }
    ensures out_kept { ¬ (result ≡ 0) → out.new ≡ out.old }
    ensures size_kept { ¬ (result ≡ 0) → size.new ≡ size.old }
    ensures untold { ¬ (result ≡ 0) → ¬ (result ≡ 42) → told.new ≡ told.old }
    ensures answer { OpenAnswerAt handle.old.peer at.now frame.now (length out.old) result }
{
    let Some(mut peer) = handle.take(alloc) else {
        return Fault::Empty.code();
    };
    let opened = peer.open(alloc, frame, at, out, told);
    handle.put(alloc, peer);
    answer(size, opened)
}

/// Tells the next sequence number that is sealed and the one that is expected, each 4,294,967,296 where
/// none is left.
#[unsafe(no_mangle)]
pub extern "C" fn krbrelay_peer_state(
    alloc: Global,
    handle: &mut KrbPeer,
    next: &mut u64,
    expected: &mut u64,
) -> u32
    ensures told { result ≡ 0 → HasNumbers handle.old.peer next.new expected.new }
    ensures empty { ¬ (result ≡ 0) → (result ≡ 907) × (handle.old.peer ≡ None) }
    ensures next_kept { ¬ (result ≡ 0) → next.new ≡ next.old }
    ensures expected_kept { ¬ (result ≡ 0) → expected.new ≡ expected.old }
    ensures kept { handle.new.peer ≡ handle.old.peer }
{
    let Some(peer) = handle.take(alloc) else {
        return Fault::Empty.code();
    };
    *next = peer.next();
    *expected = peer.expected();
    handle.put(alloc, peer);
    0
}

/// Writes both numbers as 20 bytes, from which `krbrelay_peer_resume` goes on. There is no secret in
/// them.
#[unsafe(no_mangle)]
pub extern "C" fn krbrelay_peer_export(
    alloc: Global,
    handle: &mut KrbPeer,
    state: &mut [u8; EXPORT_SIZE],
) -> u32
    ensures exported { result ≡ 0 → ExportsAt handle.old.peer state.new }
    ensures empty { ¬ (result ≡ 0) → (result ≡ 907) × (handle.old.peer ≡ None) }
    ensures state_kept { ¬ (result ≡ 0) → state.new ≡ state.old }
    ensures kept { handle.new.peer ≡ handle.old.peer }
{
    let Some(peer) = handle.take(alloc) else {
        return Fault::Empty.code();
    };
    *state = peer.export();
    handle.put(alloc, peer);
    0
}

/// Overwrites the keys, and frees the peer. The handle holds nothing then.
#[unsafe(no_mangle)]
pub extern "C" fn krbrelay_peer_free(alloc: Global, handle: &mut KrbPeer)
    ensures { handle.new.peer ≡ None }
{
    handle.clear(alloc);
}
