//! What C calls of a shard of a receiver with all its sessions. A session is its place: that of the first is 0. A function
//! that answers 0 or 912 answers 912 where the handle holds no shard, there is no session at the place, or an argument
//! doesn't fit: then all stays as it was.

ghost use Rattle.std.specs.Prelude.{◌≡◌, ◌↔◌, ◌&&◌, ◌+◌, ◌-◌, ◌<◌, ◌≤◌, ◌^◌, true, false, None, length, slice_index_or, IsSome};
ghost use Rattle.krb_engine.specs.declared.receiving.Receiving.{Receiving};
ghost use Rattle.krb_carrier_structs.specs.Numbers.{says};
ghost use Rattle.krb_carrier_structs.specs.Receipt.{told_receipt};
ghost use Rattle.krb_carrier_structs.specs.Shard.{found_number, told_effects};
ghost use Rattle.krb_carrier_structs.specs.Shards.{reading_told};
ghost use Rattle.krb_c.specs.Queue.{out_of_memory};
ghost use Rattle.krb_c.specs.Shards.{AddsRow, CanBegin, CanFail, CanOwe, CanTakeAt, FailsTold, HasBegun, HasSession, ListsTold, MayTake, OwesTold, PaysTold, TakesTold, TellsSession, TurnsTo, shard_of};
ghost use Rattle.krb_receiver.specs.Shard.{Begins, IsLoaded, IsNext, Passes, Stores, found_of, is_full, is_same, no_sessions, spot};

use crate::handle::Handle;
use crate::held_shard::HeldShard;
use crate::lane_calls::answer;
use crate::shard_handle::KrbShard;
use krb_carrier_structs::{
    KrbReading, KrbReceipt, KrbReceiving, KrbRow, KrbSeen, asks_of, due_told, effects_of,
    failure_of, number_of_found, number_of_outcome, number_of_then, number_of_turn, time_of_turn,
};
use krb_engine::Spot;
use krb_receiver::Shard;
use krb_seal::Refusal;
use krb_structs::Fault;
use std::alloc::Global;

// ---- what the store and the carrier have

/// Makes a shard of which nothing is loaded. `are_outside`: no rollback of the store undoes what effects did. `put_aside`:
/// a text that is refused too often is put aside.
#[unsafe(no_mangle)]
pub extern "C" fn krbrelay_shard_new(
    alloc: Global,
    handle: &mut KrbShard,
    are_outside: u32,
    put_aside: u32,
) -> u32
    ensures made { result ≡ 0 → shard_of handle.new.shard ≡ no_sessions (told_effects are_outside put_aside) }
    ensures held { result ≡ 0 → IsSome handle.new.shard }
    ensures memory { ¬ (result ≡ 0) → result ≡ out_of_memory }
    ensures kept { ¬ (result ≡ 0) → handle.new.shard ≡ handle.old.shard }
{
    let shard = Shard::new(effects_of(are_outside, put_aside), alloc);
    match Box::new(alloc, HeldShard { shard }) {
        Ok(held) => {
            handle.put(alloc, held);
            0
        }
        Err(_) => Fault::Refused(Refusal::Memory).code(),
    }
}

/// The store has this of the shard. Of its sessions nothing is known.
#[unsafe(no_mangle)]
pub extern "C" fn krbrelay_shard_loaded(
    alloc: Global,
    handle: &mut KrbShard,
    list: u64,
    offset: u64,
) -> u32
    ensures ok { result ≡ 0 ↔ IsSome handle.old.shard }
    ensures argument { ¬ (result ≡ 0) → result ≡ 912 }
    ensures held { IsSome handle.new.shard ↔ IsSome handle.old.shard }
    ensures loaded { result ≡ 0 → IsLoaded (shard_of handle.old.shard) (spot list offset) (shard_of handle.new.shard) }
{
    let Some(mut held) = handle.take(alloc) else {
        return Fault::Argument.code();
    };
    held.shard.loaded(Spot { list, offset }, alloc);
    handle.put(alloc, held);
    0
}

/// The carrier has this list of the shard, with so many items: tells whether it isn't what was read, 1 or 0. Of a different
/// list all is read, and of one that was cut off what comes after its end.
#[unsafe(no_mangle)]
pub extern "C" fn krbrelay_shard_listed(
    alloc: Global,
    handle: &mut KrbShard,
    list: u64,
    last: u64,
    is_elsewhere: &mut u32,
) -> u32
    ensures ok { result ≡ 0 ↔ IsSome handle.old.shard }
    ensures argument { ¬ (result ≡ 0) → result ≡ 912 }
    ensures held { IsSome handle.new.shard ↔ IsSome handle.old.shard }
    ensures lists { result ≡ 0 → ListsTold (shard_of handle.old.shard) list last is_elsewhere.new (shard_of handle.new.shard) }
    ensures untold { ¬ (result ≡ 0) → is_elsewhere.new ≡ is_elsewhere.old }
{
    let Some(mut held) = handle.take(alloc) else {
        return Fault::Argument.code();
    };
    *is_elsewhere = u32::from(held.shard.listed(list, last));
    handle.put(alloc, held);
    0
}

/// The store has this of the shard now: tells what that is, beside what is known. Unless it is the same, what the store has
/// is asked for.
#[unsafe(no_mangle)]
pub extern "C" fn krbrelay_shard_found(
    alloc: Global,
    handle: &mut KrbShard,
    list: u64,
    offset: u64,
    found: &mut u32,
) -> u32
    ensures ok { result ≡ 0 ↔ IsSome handle.old.shard }
    ensures argument { ¬ (result ≡ 0) → result ≡ 912 }
    ensures held { IsSome handle.new.shard ↔ IsSome handle.old.shard }
    ensures found { result ≡ 0
        → found.new ≡ found_number (found_of (shard_of handle.old.shard).reading.stored (spot list offset)) }
    ensures state { result ≡ 0 → shard_of handle.new.shard ≡ record (shard_of handle.old.shard) {
      is_loaded = (shard_of handle.old.shard).is_loaded
          && is_same (found_of (shard_of handle.old.shard).reading.stored (spot list offset));
    } }
    ensures untold { ¬ (result ≡ 0) → found.new ≡ found.old }
{
    let Some(mut held) = handle.take(alloc) else {
        return Fault::Argument.code();
    };
    *found = number_of_found(held.shard.found(Spot { list, offset }));
    handle.put(alloc, held);
    0
}

/// What the store has is asked for again, as where the carrier has a different list, or a file was replaced.
#[unsafe(no_mangle)]
pub extern "C" fn krbrelay_shard_forget(alloc: Global, handle: &mut KrbShard) -> u32
    ensures ok { result ≡ 0 ↔ IsSome handle.old.shard }
    ensures argument { ¬ (result ≡ 0) → result ≡ 912 }
    ensures held { IsSome handle.new.shard ↔ IsSome handle.old.shard }
    ensures state { result ≡ 0 → shard_of handle.new.shard ≡ record (shard_of handle.old.shard) { is_loaded = false } }
{
    let Some(mut held) = handle.take(alloc) else {
        return Fault::Argument.code();
    };
    held.shard.forget();
    handle.put(alloc, held);
    0
}

/// Tells up to where the list was taken, as stored and as read.
#[unsafe(no_mangle)]
pub extern "C" fn krbrelay_shard_reading(
    alloc: Global,
    handle: &mut KrbShard,
    reading: &mut KrbReading,
) -> u32
    ensures ok { result ≡ 0 ↔ IsSome handle.old.shard }
    ensures argument { ¬ (result ≡ 0) → result ≡ 912 }
    ensures value { result ≡ 0 → reading.new ≡ reading_told (shard_of handle.old.shard).reading }
    ensures kept { handle.new.shard ≡ handle.old.shard }
    ensures untold { ¬ (result ≡ 0) → reading.new ≡ reading.old }
{
    let Some(held) = handle.take(alloc) else {
        return Fault::Argument.code();
    };
    *reading = KrbReading::of(*held.shard.reading());
    handle.put(alloc, held);
    0
}

// ---- sessions

/// One session more, of which the store has this row: tells its place. If memory runs out, the shard has no session more.
#[unsafe(no_mangle)]
pub extern "C" fn krbrelay_shard_add(
    alloc: Global,
    handle: &mut KrbShard,
    row: &KrbRow,
    place: &mut u32,
) -> u32
    ensures none { ¬ IsSome handle.old.shard → result ≡ 912 }
    ensures many { ¬ (length (shard_of handle.old.shard).sessions < 2 ^ 32 - 1) → result ≡ 912 }
    ensures memory { IsSome handle.old.shard → length (shard_of handle.old.shard).sessions < 2 ^ 32 - 1
        → ¬ (result ≡ 0) → result ≡ out_of_memory }
    ensures added { result ≡ 0 → AddsRow (shard_of handle.old.shard) row.now place.new (shard_of handle.new.shard) }
    ensures held { IsSome handle.new.shard ↔ IsSome handle.old.shard }
    ensures kept { ¬ (result ≡ 0) → handle.new.shard ≡ handle.old.shard }
    ensures untold { ¬ (result ≡ 0) → place.new ≡ place.old }
{
    let Some(mut held) = handle.take(alloc) else {
        return Fault::Argument.code();
    };
    let count = held.shard.len();
    if count >= u32::MAX as usize {
        handle.put(alloc, held);
        return Fault::Argument.code();
    }
    let added = held.shard.add(row.row());
    handle.put(alloc, held);
    if added.is_err() {
        return Fault::Refused(Refusal::Memory).code();
    }
    *place = count as u32;
    0
}

/// Tells the session's end.
#[unsafe(no_mangle)]
pub extern "C" fn krbrelay_shard_session(
    alloc: Global,
    handle: &mut KrbShard,
    place: u32,
    receiving: &mut KrbReceiving,
) -> u32
    ensures ok { result ≡ 0 ↔ HasSession handle.old.shard place }
    ensures argument { ¬ (result ≡ 0) → result ≡ 912 }
    ensures tells { result ≡ 0 → TellsSession handle.old.shard place receiving.new }
    ensures kept { handle.new.shard ≡ handle.old.shard }
    ensures untold { ¬ (result ≡ 0) → receiving.new ≡ receiving.old }
{
    let Some(held) = handle.take(alloc) else {
        return Fault::Argument.code();
    };
    let is_there = (place as usize) < held.shard.len();
    if is_there {
        *receiving = KrbReceiving::of(*held.shard.session(place));
    }
    handle.put(alloc, held);
    answer(is_there)
}

// ---- what is to be done

/// Tells what is to be done next: to load (0), nothing before `at` (1), or to read (2).
#[unsafe(no_mangle)]
pub extern "C" fn krbrelay_shard_turn(
    alloc: Global,
    handle: &mut KrbShard,
    now: u64,
    turn: &mut u32,
    at: &mut u64,
) -> u32
    ensures ok { result ≡ 0 ↔ IsSome handle.old.shard }
    ensures argument { ¬ (result ≡ 0) → result ≡ 912 }
    ensures held { IsSome handle.new.shard ↔ IsSome handle.old.shard }
    ensures turns { result ≡ 0 → TurnsTo (shard_of handle.old.shard) now turn.new at.new (shard_of handle.new.shard) }
    ensures untold { ¬ (result ≡ 0) → (turn.new ≡ turn.old) × (at.new ≡ at.old) }
{
    let Some(mut held) = handle.take(alloc) else {
        return Fault::Argument.code();
    };
    let next = held.shard.turn(now);
    *turn = number_of_turn(next);
    *at = time_of_turn(next);
    handle.put(alloc, held);
    0
}

/// When there is a receipt or a turn, if nothing happens before and the carrier has nothing.
#[unsafe(no_mangle)]
pub extern "C" fn krbrelay_shard_next_time(alloc: Global, handle: &mut KrbShard) -> u64
    ensures value { IsSome handle.old.shard → IsNext (shard_of handle.old.shard) result }
    ensures none { ¬ IsSome handle.old.shard → result ≡ 2 ^ 64 - 1 }
    ensures kept { handle.new.shard ≡ handle.old.shard }
{
    let Some(held) = handle.take(alloc) else {
        return u64::MAX;
    };
    let at = held.shard.next_time();
    handle.put(alloc, held);
    at
}

// ---- a transaction

/// A transaction begins, whose first frame has this offset: tells whether it has that frame alone, 1 or 0. None may be under
/// way.
#[unsafe(no_mangle)]
pub extern "C" fn krbrelay_shard_begin(
    alloc: Global,
    handle: &mut KrbShard,
    first: u64,
    now: u64,
    is_alone: &mut u32,
) -> u32
    ensures ok { result ≡ 0 ↔ CanBegin handle.old.shard }
    ensures argument { ¬ (result ≡ 0) → result ≡ 912 }
    ensures held { IsSome handle.new.shard ↔ IsSome handle.old.shard }
    ensures begins { result ≡ 0 → Begins (shard_of handle.old.shard) first now (says is_alone.new) (shard_of handle.new.shard) }
    ensures or_not { result ≡ 0 → is_alone.new ≤ 1 }
    ensures kept { ¬ (result ≡ 0) → handle.new.shard ≡ handle.old.shard }
    ensures untold { ¬ (result ≡ 0) → is_alone.new ≡ is_alone.old }
{
    let Some(mut held) = handle.take(alloc) else {
        return Fault::Argument.code();
    };
    let begins = !held.shard.has_begun();
    if begins {
        *is_alone = u32::from(held.shard.begin(first, now));
    }
    handle.put(alloc, held);
    answer(begins)
}

/// The transaction has this frame of a session: tells what it is taken for. If memory runs out, it doesn't have it.
#[unsafe(no_mangle)]
pub extern "C" fn krbrelay_shard_take(
    alloc: Global,
    handle: &mut KrbShard,
    place: u32,
    frame: &[u8],
    seen: &KrbSeen,
    offset: u64,
    outcome: &mut u32,
) -> u32
    ensures argument { ¬ CanTakeAt handle.old.shard place seen.now → result ≡ 912 }
    ensures memory { CanTakeAt handle.old.shard place seen.now → ¬ (result ≡ 0) → result ≡ out_of_memory }
    ensures takes { result ≡ 0
        → TakesTold (shard_of handle.old.shard) place frame.now seen.now offset outcome.new (shard_of handle.new.shard) }
    ensures held { IsSome handle.new.shard ↔ IsSome handle.old.shard }
    ensures kept { ¬ (result ≡ 0) → handle.new.shard ≡ handle.old.shard }
    ensures untold { ¬ (result ≡ 0) → outcome.new ≡ outcome.old }
{
    let Some(mut held) = handle.take(alloc) else {
        return Fault::Argument.code();
    };
    if !can_take(&held.shard, place, seen) {
        handle.put(alloc, held);
        return Fault::Argument.code();
    }
    let taken = held.shard.take(place, frame, seen.seen(), offset);
    handle.put(alloc, held);
    match taken {
        Ok(is) => {
            *outcome = number_of_outcome(is);
            0
        }
        Err(_) => Fault::Refused(Refusal::Memory).code(),
    }
}

/// Whether a transaction is under way for which a session at the place may take a frame.
fn can_take(shard: &Shard, place: u32, seen: &KrbSeen) -> bool
    ensures { result ≡ true ↔ MayTake shard.now place seen.now }
{
    shard.has_begun()
        && seen.reserved == 0
        && (place as usize) < shard.len()
        && has_next(shard, place)
}

/// Whether the number that a session demands has one after it.
fn has_next(shard: &Shard, place: u32) -> bool
    requires { place < length shard.now.sessions }
    ensures { result ≡ true ↔ ((other : Receiving) → (slice_index_or shard.now.sessions place other).drafted.demanded.number + 1 < 2 ^ 64) }
{
    shard.session(place).drafted.demanded.number < u64::MAX
}

/// The transaction has the frame of this offset, which is no session's.
#[unsafe(no_mangle)]
pub extern "C" fn krbrelay_shard_pass(alloc: Global, handle: &mut KrbShard, offset: u64) -> u32
    ensures ok { result ≡ 0 ↔ HasBegun handle.old.shard }
    ensures argument { ¬ (result ≡ 0) → result ≡ 912 }
    ensures held { IsSome handle.new.shard ↔ IsSome handle.old.shard }
    ensures passes { result ≡ 0 → Passes (shard_of handle.old.shard) offset (shard_of handle.new.shard) }
    ensures kept { ¬ (result ≡ 0) → handle.new.shard ≡ handle.old.shard }
{
    let Some(mut held) = handle.take(alloc) else {
        return Fault::Argument.code();
    };
    let has_begun = held.shard.has_begun();
    if has_begun {
        held.shard.pass(offset);
    }
    handle.put(alloc, held);
    answer(has_begun)
}

/// Whether the transaction takes no frame more, 1 or 0: it has one, and is for that alone, or has taken long enough.
#[unsafe(no_mangle)]
pub extern "C" fn krbrelay_shard_is_full(alloc: Global, handle: &mut KrbShard, now: u64) -> u32
    ensures value { result ≡ 1 ↔ (is_full (shard_of handle.old.shard).attempt now ≡ true) }
    ensures or_not { result ≤ 1 }
    ensures kept { handle.new.shard ≡ handle.old.shard }
{
    let Some(held) = handle.take(alloc) else {
        return 0;
    };
    let is_full = held.shard.is_full(now);
    handle.put(alloc, held);
    u32::from(is_full)
}

/// The transaction is stored, up to the last frame that it has.
#[unsafe(no_mangle)]
pub extern "C" fn krbrelay_shard_stored(alloc: Global, handle: &mut KrbShard) -> u32
    ensures ok { result ≡ 0 ↔ IsSome handle.old.shard }
    ensures argument { ¬ (result ≡ 0) → result ≡ 912 }
    ensures held { IsSome handle.new.shard ↔ IsSome handle.old.shard }
    ensures stores { result ≡ 0 → Stores (shard_of handle.old.shard) (shard_of handle.new.shard) }
{
    let Some(mut held) = handle.take(alloc) else {
        return Fault::Argument.code();
    };
    held.shard.stored();
    handle.put(alloc, held);
    0
}

/// The frame of this offset isn't taken, or the transaction that ends with it isn't stored, by a failure from 1 to 4: tells
/// what happens to it. So it is where a store can't be asked before there is one.
#[unsafe(no_mangle)]
pub extern "C" fn krbrelay_shard_failed(
    alloc: Global,
    handle: &mut KrbShard,
    failure: u32,
    offset: u64,
    then: &mut u32,
) -> u32
    ensures ok { result ≡ 0 ↔ CanFail handle.old.shard failure }
    ensures argument { ¬ (result ≡ 0) → result ≡ 912 }
    ensures held { IsSome handle.new.shard ↔ IsSome handle.old.shard }
    ensures fails { result ≡ 0 → FailsTold (shard_of handle.old.shard) failure offset then.new (shard_of handle.new.shard) }
    ensures kept { ¬ (result ≡ 0) → handle.new.shard ≡ handle.old.shard }
    ensures untold { ¬ (result ≡ 0) → then.new ≡ then.old }
{
    let Some(failure) = failure_of(failure) else {
        return Fault::Argument.code();
    };
    let Some(mut held) = handle.take(alloc) else {
        return Fault::Argument.code();
    };
    *then = number_of_then(held.shard.failed(failure, offset));
    handle.put(alloc, held);
    0
}

// ---- receipts

/// Tells the receipt that leaves next and its session's place, or none, which asks for 0. None leaves while a transaction is
/// under way.
#[unsafe(no_mangle)]
pub extern "C" fn krbrelay_shard_receipt(
    alloc: Global,
    handle: &mut KrbShard,
    now: u64,
    place: &mut u32,
    receipt: &mut KrbReceipt,
) -> u32
    ensures ok { result ≡ 0 ↔ IsSome handle.old.shard }
    ensures argument { ¬ (result ≡ 0) → result ≡ 912 }
    ensures held { IsSome handle.new.shard ↔ IsSome handle.old.shard }
    ensures pays { result ≡ 0 → PaysTold (shard_of handle.old.shard) now place.new receipt.new (shard_of handle.new.shard) }
    ensures none { result ≡ 0 → told_receipt receipt.new ≡ None → (place.new ≡ place.old) × (receipt.new.asks ≡ 0) }
    ensures untold { ¬ (result ≡ 0) → (place.new ≡ place.old) × (receipt.new ≡ receipt.old) }
{
    let Some(mut held) = handle.take(alloc) else {
        return Fault::Argument.code();
    };
    let due = held.shard.receipt(now);
    handle.put(alloc, held);
    *receipt = due_told(due);
    if let Some(due) = due {
        *place = due.place;
    }
    0
}

/// A receipt of the session that asks for this didn't leave: it is owed again.
#[unsafe(no_mangle)]
pub extern "C" fn krbrelay_shard_unpaid(
    alloc: Global,
    handle: &mut KrbShard,
    place: u32,
    asks: u32,
) -> u32
    ensures ok { result ≡ 0 ↔ CanOwe handle.old.shard place asks }
    ensures argument { ¬ (result ≡ 0) → result ≡ 912 }
    ensures held { IsSome handle.new.shard ↔ IsSome handle.old.shard }
    ensures owes { result ≡ 0 → OwesTold (shard_of handle.old.shard) place asks (shard_of handle.new.shard) }
    ensures kept { ¬ (result ≡ 0) → handle.new.shard ≡ handle.old.shard }
{
    let Some(asks) = asks_of(asks) else {
        return Fault::Argument.code();
    };
    let Some(mut held) = handle.take(alloc) else {
        return Fault::Argument.code();
    };
    let is_there = (place as usize) < held.shard.len();
    if is_there {
        held.shard.unpaid(place, asks);
    }
    handle.put(alloc, held);
    answer(is_there)
}

/// Frees the shard. The handle holds nothing then.
#[unsafe(no_mangle)]
pub extern "C" fn krbrelay_shard_free(alloc: Global, handle: &mut KrbShard)
    ensures { handle.new.shard ≡ None }
{
    handle.clear(alloc);
}
