//! What C calls of a shard of a sender with all its sessions. A handle of zeros is one with no session and no list. A
//! session is its place: that of the first is 0. A function that answers 0 or 912 answers 912 where there is no
//! session at the place, or an argument doesn't fit: then all stays as it was.

ghost use Rattle.std.specs.Prelude.{◌≡◌, ◌≢◌, ◌↔◌, ◌==◌, ◌-◌, ◌<◌, ◌≤◌, ◌^◌, if◌then◌else◌, None, length, max, IfNone, IfSome, IsSome};
ghost use Rattle.krb_carry.specs.Progress.{Counts};
ghost use Rattle.krb_carrier_structs.specs.Lane.{own_of, told_row};
ghost use Rattle.krb_carrier_structs.specs.Numbers.{says};
ghost use Rattle.krb_carrier_structs.specs.Receipt.{told_receipt};
ghost use Rattle.krb_carrier_structs.specs.Sending.{Tells};
ghost use Rattle.krb_c.specs.Queue.{out_of_memory};
ghost use Rattle.krb_c.specs.Lanes.{Adds, CanHear, CanSealAt, HasPlace, HearsTold, StaysAsItWas, TurnsTold, lane_of, told_list};
ghost use Rattle.krb_engine.specs.Sending as engine;
ghost use Rattle.krb_sender.specs.Lane.{AllAreAwake, Becomes, HasNoTurn, IsNext, IsSameButList, Was, no_sessions};
ghost use Rattle.krb_sender.specs.Session.{loaded, released, stopped, with_end};

use crate::handle::Handle;
use crate::held_lane::HeldLane;
use crate::lane_handle::KrbLane;
use krb_carrier_structs::{
    KrbReceipt, KrbSending, KrbServed, KrbStored, number_of_lane_heard, own_of,
};
use krb_carry::HISTORY_SIZE;
use krb_seal::Refusal;
use krb_sender::Lane;
use krb_structs::Fault;
use std::alloc::Global;

// ---- sessions

/// One session more, of which the outbox has this: tells its place. The first frame of one that opens is its opening,
/// which leaves only after a release.
#[unsafe(no_mangle)]
pub extern "C" fn krbrelay_lane_add(
    alloc: Global,
    handle: &mut KrbLane,
    row: &KrbStored,
    opens: u32,
    place: &mut u32,
) -> u32
    ensures done { ¬ (row.now.done ≤ row.now.carried) → result ≡ 912 }
    ensures carried { ¬ (row.now.carried ≤ row.now.next) → result ≡ 912 }
    ensures many { ¬ (length (lane_of handle.old.lane).sessions < 2 ^ 32 - 1) → result ≡ 912 }
    ensures added { result ≡ 0 → Adds (lane_of handle.old.lane) row.now opens place.new (lane_of handle.new.lane) }
    ensures memory { row.now.done ≤ row.now.carried → row.now.carried ≤ row.now.next
        → length (lane_of handle.old.lane).sessions < 2 ^ 32 - 1 → ¬ (result ≡ 0) → result ≡ out_of_memory }
    ensures kept { ¬ (result ≡ 0) → StaysAsItWas (lane_of handle.old.lane) (lane_of handle.new.lane) }
    ensures untold { ¬ (result ≡ 0) → place.new ≡ place.old }
{
    if row.done > row.carried || row.carried > row.next {
        return Fault::Argument.code();
    }
    let Some(mut held) = held_or_new(alloc, handle) else {
        return Fault::Refused(Refusal::Memory).code();
    };
    let count = held.lane.len();
    if count >= u32::MAX as usize {
        handle.put(alloc, held);
        return Fault::Argument.code();
    }
    let added = held.lane.add(&row.row(), opens != 0);
    handle.put(alloc, held);
    if added.is_err() {
        return Fault::Refused(Refusal::Memory).code();
    }
    *place = count as u32;
    0
}

/// Takes the shard, or makes one, if there is memory.
fn held_or_new(alloc: Global, handle: &mut KrbLane) -> Option<Box<HeldLane>>
    ensures held { IfSome result (λ held. held.value.lane ≡ lane_of handle.old.lane) }
    ensures empty { result ≡ None → lane_of handle.old.lane ≡ no_sessions }
    ensures kept { result ≡ None → lane_of handle.new.lane ≡ lane_of handle.old.lane }
{
    if let Some(held) = handle.take(alloc) {
        return Some(held);
    }
    let lane = Lane::new(alloc);
    match Box::new(alloc, HeldLane { lane }) {
        Ok(held) => Some(held),
        Err(_) => None,
    }
}

/// The outbox has this of the session now.
#[unsafe(no_mangle)]
pub extern "C" fn krbrelay_lane_reload(
    alloc: Global,
    handle: &mut KrbLane,
    place: u32,
    row: &KrbStored,
    opens: u32,
) -> u32
    ensures ok { result ≡ 0 ↔ (HasPlace handle.old.lane place × (row.now.done ≤ row.now.carried) × (row.now.carried ≤ row.now.next)) }
    ensures argument { ¬ (result ≡ 0) → result ≡ 912 }
    ensures session { result ≡ 0 → Becomes (lane_of handle.old.lane) place
        (λ it. loaded (told_row row.now) (says opens) (lane_of handle.old.lane).clock) (lane_of handle.new.lane) }
    ensures kept { ¬ (result ≡ 0) → handle.new.lane ≡ handle.old.lane }
{
    if row.done > row.carried || row.carried > row.next {
        return Fault::Argument.code();
    }
    let Some(mut held) = handle.take(alloc) else {
        return Fault::Argument.code();
    };
    let is_there = (place as usize) < held.lane.len();
    if is_there {
        held.lane.reload(place, &row.row(), opens != 0);
    }
    handle.put(alloc, held);
    answer(is_there)
}

/// 0, or 912.
pub fn answer(fits: bool) -> u32
    ensures { result ≡ (if fits then 0 else 912) }
{
    if fits { 0 } else { Fault::Argument.code() }
}

/// Tells the session's end.
#[unsafe(no_mangle)]
pub extern "C" fn krbrelay_lane_session(
    alloc: Global,
    handle: &mut KrbLane,
    place: u32,
    sending: &mut KrbSending,
) -> u32
    ensures ok { result ≡ 0 ↔ HasPlace handle.old.lane place }
    ensures argument { ¬ (result ≡ 0) → result ≡ 912 }
    ensures tells { result ≡ 0 → Was (lane_of handle.old.lane) place (λ it. Tells sending.new it.end) }
    ensures kept { handle.new.lane ≡ handle.old.lane }
    ensures untold { ¬ (result ≡ 0) → sending.new ≡ sending.old }
{
    let Some(held) = handle.take(alloc) else {
        return Fault::Argument.code();
    };
    let told = end_at(&held.lane, place);
    handle.put(alloc, held);
    let Some(told) = told else {
        return Fault::Argument.code();
    };
    *sending = told;
    0
}

/// The struct of the end of a session, if there is one at the place.
fn end_at(lane: &Lane, place: u32) -> Option<KrbSending>
    ensures variant { IsSome result ↔ (place < length lane.now.sessions) }
    ensures tells { IfSome result (λ told. Was lane.now place (λ it. Tells told it.end)) }
{
    if place as usize >= lane.len() {
        return None;
    }
    Some(end_told(lane, place))
}

/// The struct of a session's end.
fn end_told(lane: &Lane, place: u32) -> KrbSending
    requires { place < length lane.now.sessions }
    ensures { Was lane.now place (λ it. Tells result it.end) }
{
    KrbSending::of(lane.session(place).end())
}

// ---- what is to be done

/// Tells which session is served next and what is to be done of it, and answers 1; or answers 0, if none is.
#[unsafe(no_mangle)]
pub extern "C" fn krbrelay_lane_turn(
    alloc: Global,
    handle: &mut KrbLane,
    now: u64,
    served: &mut KrbServed,
) -> u32
    ensures or_not { result ≤ 1 }
    ensures served { result ≡ 1 → TurnsTold (lane_of handle.old.lane) served.new (lane_of handle.new.lane) }
    ensures none { result ≡ 0 → HasNoTurn (lane_of handle.old.lane) (lane_of handle.new.lane) }
    ensures untold { result ≡ 0 → served.new ≡ served.old }
    ensures clock { IsSome handle.old.lane
        → (lane_of handle.new.lane).clock ≡ max (lane_of handle.old.lane).clock now }
{
    let Some(mut held) = handle.take(alloc) else {
        return 0;
    };
    let turn = held.lane.turn(now);
    handle.put(alloc, held);
    let Some(turn) = turn else {
        return 0;
    };
    *served = KrbServed::of(turn);
    1
}

/// When a session has a turn again, if nothing happens before.
#[unsafe(no_mangle)]
pub extern "C" fn krbrelay_lane_next_time(alloc: Global, handle: &mut KrbLane) -> u64
    ensures value { IsNext (lane_of handle.old.lane) result }
    ensures kept { handle.new.lane ≡ handle.old.lane }
{
    let Some(held) = handle.take(alloc) else {
        return u64::MAX;
    };
    let at = held.lane.next_time();
    handle.put(alloc, held);
    at
}

// ---- what happens

/// So many frames more of the session are stored.
#[unsafe(no_mangle)]
pub extern "C" fn krbrelay_lane_sealed(
    alloc: Global,
    handle: &mut KrbLane,
    place: u32,
    count: u64,
) -> u32
    ensures ok { result ≡ 0 ↔ CanSealAt handle.old.lane place count }
    ensures argument { ¬ (result ≡ 0) → result ≡ 912 }
    ensures session { result ≡ 0 → Becomes (lane_of handle.old.lane) place
        (λ it. with_end it (engine.sealed it.end count)) (lane_of handle.new.lane) }
    ensures kept { ¬ (result ≡ 0) → handle.new.lane ≡ handle.old.lane }
{
    let Some(mut held) = handle.take(alloc) else {
        return Fault::Argument.code();
    };
    let fits = (place as usize) < held.lane.len()
        && count <= u64::MAX - held.lane.session(place).end().progress().next();
    if fits {
        let _ = held.lane.sealed(place, count);
    }
    handle.put(alloc, held);
    answer(fits)
}

/// A copy of the frame of this number stands at this offset of the shard's list: tells whether it counts, 1 or 0.
#[unsafe(no_mangle)]
pub extern "C" fn krbrelay_lane_confirmed(
    alloc: Global,
    handle: &mut KrbLane,
    place: u32,
    number: u64,
    offset: u64,
    now: u64,
    counts: &mut u32,
) -> u32
    ensures ok { result ≡ 0 ↔ HasPlace handle.old.lane place }
    ensures argument { ¬ (result ≡ 0) → result ≡ 912 }
    ensures counts { result ≡ 0 → Was (lane_of handle.old.lane) place
        (λ it. counts.new ≡ 1 ↔ Counts it.end.progress number offset) }
    ensures or_not { result ≡ 0 → counts.new ≤ 1 }
    ensures session { result ≡ 0 → Becomes (lane_of handle.old.lane) place
        (λ it. with_end it (if counts.new == 1 then engine.confirmed it.end offset now else it.end)) (lane_of handle.new.lane) }
    ensures kept { ¬ (result ≡ 0) → handle.new.lane ≡ handle.old.lane }
    ensures untold { ¬ (result ≡ 0) → counts.new ≡ counts.old }
{
    let Some(mut held) = handle.take(alloc) else {
        return Fault::Argument.code();
    };
    let is_there = (place as usize) < held.lane.len();
    if is_there {
        *counts = u32::from(held.lane.confirmed(place, number, offset, now));
    }
    handle.put(alloc, held);
    answer(is_there)
}

/// A receiver says what took effect of the session, and what it asks for: tells what follows. `own_is` says whether
/// `own` is the digest of this outbox's own frames below the receipt's number (1), there is none (2), or it can't be
/// read now (3).
#[unsafe(no_mangle)]
pub extern "C" fn krbrelay_lane_receipt(
    alloc: Global,
    handle: &mut KrbLane,
    place: u32,
    receipt: &KrbReceipt,
    own: &[u8; HISTORY_SIZE],
    own_is: u32,
    now: u64,
    heard: &mut u32,
) -> u32
    ensures ok { result ≡ 0 ↔ CanHear handle.old.lane place receipt.now own_is own.now }
    ensures argument { ¬ (result ≡ 0) → result ≡ 912 }
    ensures hears { result ≡ 0 → HearsTold (lane_of handle.old.lane) place receipt.now own_is own.now now heard.new (lane_of handle.new.lane) }
    ensures kept { ¬ (result ≡ 0) → handle.new.lane ≡ handle.old.lane }
    ensures untold { ¬ (result ≡ 0) → heard.new ≡ heard.old }
{
    let Some(mut held) = handle.take(alloc) else {
        return Fault::Argument.code();
    };
    let told = if (place as usize) < held.lane.len() {
        hear(&mut held.lane, place, receipt, own, own_is, now)
    } else {
        None
    };
    handle.put(alloc, held);
    let Some(told) = told else {
        return Fault::Argument.code();
    };
    *heard = told;
    0
}

/// A session hears a receipt, if there is one, and it is said what the own digest is.
fn hear(
    lane: &mut Lane,
    place: u32,
    receipt: &KrbReceipt,
    own: &[u8; HISTORY_SIZE],
    own_is: u32,
    now: u64,
) -> Option<u32>
    requires { place < length lane.old.sessions }
    ensures variant { IsSome result ↔ (IsSome (told_receipt receipt.now) × IsSome (own_of own_is own.now)) }
    ensures hears { IfSome result (λ heard. HearsTold lane.old place receipt.now own_is own.now now heard lane.new) }
    ensures kept { IfNone result (lane.new ≡ lane.old) }
{
    let (said, asks) = receipt.receipt()?;
    let own = own_of(own_is, own)?;
    Some(number_of_lane_heard(lane.receipt(place, &said, own, asks, now)))
}

/// Nothing of the session leaves any more, and it has nothing under way.
#[unsafe(no_mangle)]
pub extern "C" fn krbrelay_lane_stop(alloc: Global, handle: &mut KrbLane, place: u32) -> u32
    ensures ok { result ≡ 0 ↔ HasPlace handle.old.lane place }
    ensures argument { ¬ (result ≡ 0) → result ≡ 912 }
    ensures session { result ≡ 0 → Becomes (lane_of handle.old.lane) place stopped (lane_of handle.new.lane) }
    ensures kept { ¬ (result ≡ 0) → handle.new.lane ≡ handle.old.lane }
{
    let Some(mut held) = handle.take(alloc) else {
        return Fault::Argument.code();
    };
    let is_there = (place as usize) < held.lane.len();
    if is_there {
        held.lane.stop(place);
    }
    handle.put(alloc, held);
    answer(is_there)
}

/// The session's opening may leave in its next turn.
#[unsafe(no_mangle)]
pub extern "C" fn krbrelay_lane_release(alloc: Global, handle: &mut KrbLane, place: u32) -> u32
    ensures ok { result ≡ 0 ↔ HasPlace handle.old.lane place }
    ensures argument { ¬ (result ≡ 0) → result ≡ 912 }
    ensures session { result ≡ 0 → Becomes (lane_of handle.old.lane) place released (lane_of handle.new.lane) }
    ensures kept { ¬ (result ≡ 0) → handle.new.lane ≡ handle.old.lane }
{
    let Some(mut held) = handle.take(alloc) else {
        return Fault::Argument.code();
    };
    let is_there = (place as usize) < held.lane.len();
    if is_there {
        held.lane.release(place);
    }
    handle.put(alloc, held);
    answer(is_there)
}

/// The shard has this list now, or none can be had: `has_list` is 0. If it is a different one, all sessions have their
/// turn. If memory runs out, the shard is as it was.
#[unsafe(no_mangle)]
pub extern "C" fn krbrelay_lane_listed(
    alloc: Global,
    handle: &mut KrbLane,
    has_list: u32,
    list: u64,
) -> u32
    ensures listed { result ≡ 0 → IsSameButList (lane_of handle.old.lane) (told_list has_list list) (lane_of handle.new.lane) }
    ensures awake { result ≡ 0 → told_list has_list list ≢ (lane_of handle.old.lane).list → AllAreAwake (lane_of handle.new.lane) }
    ensures memory { ¬ (result ≡ 0) → result ≡ out_of_memory }
    ensures kept { ¬ (result ≡ 0) → lane_of handle.new.lane ≡ lane_of handle.old.lane }
{
    let Some(mut held) = held_or_new(alloc, handle) else {
        return Fault::Refused(Refusal::Memory).code();
    };
    held.lane.listed(list_of(has_list, list));
    handle.put(alloc, held);
    0
}

/// A list, if the flag says so.
fn list_of(has_list: u32, list: u64) -> Option<u64>
    ensures { result ≡ told_list has_list list }
{
    if has_list == 0 {
        return None;
    }
    Some(list)
}

/// Frees the shard. The handle holds nothing then.
#[unsafe(no_mangle)]
pub extern "C" fn krbrelay_lane_free(alloc: Global, handle: &mut KrbLane)
    ensures { handle.new.lane ≡ None }
{
    handle.clear(alloc);
}
