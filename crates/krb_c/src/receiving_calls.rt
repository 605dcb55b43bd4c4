//! What C calls of a session's end at a receiver. It is a struct of the caller's, so it has no handle. A
//! function with an answer answers 0, or 912 where the numbers are no end or an argument doesn't fit: then
//! all stays as it was.

ghost use Rattle.std.specs.Prelude.{◌≡◌, ◌↔◌, None};
ghost use Rattle.krb_carrier_structs.specs.Calls.{AnswersTold};
ghost use Rattle.krb_carrier_structs.specs.Numbers.{outcome_number};
ghost use Rattle.krb_carrier_structs.specs.Receipt.{told_receipt};
ghost use Rattle.krb_carrier_structs.specs.Receiving.{CanTakeFrame, IsReceiving, TellsReceiving, told_receiving, told_row, told_seen};
ghost use Rattle.krb_engine.specs.Receiving.{dropped, has_row, outcome as taken_for, stored, took};

use krb_carrier_structs::{
    KrbReceipt, KrbReceiving, KrbRow, KrbSeen, number_of_outcome, receipt_told,
};
use krb_engine::Receiving;
use krb_structs::Fault;

/// Makes the end of a session of which the store has this row.
#[unsafe(no_mangle)]
pub extern "C" fn krbrelay_receiving_load(receiving: &mut KrbReceiving, row: &KrbRow, now: u64)
    ensures { TellsReceiving receiving.new (has_row (told_row row.now) now) }
{
    *receiving = KrbReceiving::of(Receiving::load(row.row(), now));
}

/// A frame under the session's name is taken: tells what for. If it is accepted, its texts take effect with
/// the transaction.
#[unsafe(no_mangle)]
pub extern "C" fn krbrelay_receiving_take(
    receiving: &mut KrbReceiving,
    frame: &[u8],
    seen: &KrbSeen,
    outcome: &mut u32,
) -> u32
    ensures ok { result ≡ 0 ↔ CanTakeFrame receiving.old seen.now }
    ensures argument { ¬ (result ≡ 0) → result ≡ 912 }
    ensures outcome { result ≡ 0
        → outcome.new ≡ outcome_number (taken_for (told_receiving receiving.old).drafted (told_seen seen.now)) }
    ensures took { result ≡ 0
        → TellsReceiving receiving.new (took (told_receiving receiving.old) frame.now (told_seen seen.now)) }
    ensures kept { ¬ (result ≡ 0) → receiving.new ≡ receiving.old }
    ensures untold { ¬ (result ≡ 0) → outcome.new ≡ outcome.old }
{
    let Some(mut end) = receiving.receiving() else {
        return Fault::Argument.code();
    };
    if seen.reserved != 0 || receiving.drafted.number == u64::MAX {
        return Fault::Argument.code();
    }
    *outcome = number_of_outcome(end.take(frame, seen.seen()));
    *receiving = KrbReceiving::of(end);
    0
}

/// The transaction took effect.
#[unsafe(no_mangle)]
pub extern "C" fn krbrelay_receiving_stored(receiving: &mut KrbReceiving) -> u32
    ensures ok { result ≡ 0 ↔ IsReceiving receiving.old }
    ensures argument { ¬ (result ≡ 0) → result ≡ 912 }
    ensures stored { result ≡ 0 → TellsReceiving receiving.new (stored (told_receiving receiving.old)) }
    ensures kept { ¬ (result ≡ 0) → receiving.new ≡ receiving.old }
{
    let Some(mut end) = receiving.receiving() else {
        return Fault::Argument.code();
    };
    end.stored();
    *receiving = KrbReceiving::of(end);
    0
}

/// The transaction had no effect: what it took will be read again.
#[unsafe(no_mangle)]
pub extern "C" fn krbrelay_receiving_dropped(receiving: &mut KrbReceiving) -> u32
    ensures ok { result ≡ 0 ↔ IsReceiving receiving.old }
    ensures argument { ¬ (result ≡ 0) → result ≡ 912 }
    ensures dropped { result ≡ 0
        → TellsReceiving receiving.new (dropped (told_receiving receiving.old)) }
    ensures kept { ¬ (result ≡ 0) → receiving.new ≡ receiving.old }
{
    let Some(mut end) = receiving.receiving() else {
        return Fault::Argument.code();
    };
    end.dropped();
    *receiving = KrbReceiving::of(end);
    0
}

/// Tells the receipt that leaves now, or none, which asks for 0.
#[unsafe(no_mangle)]
pub extern "C" fn krbrelay_receiving_receipt(
    receiving: &mut KrbReceiving,
    now: u64,
    receipt: &mut KrbReceipt,
) -> u32
    ensures ok { result ≡ 0 ↔ IsReceiving receiving.old }
    ensures argument { ¬ (result ≡ 0) → result ≡ 912 }
    ensures answers { result ≡ 0 → AnswersTold receiving.old now receipt.new receiving.new }
    ensures none { result ≡ 0 → told_receipt receipt.new ≡ None → receipt.new.asks ≡ 0 }
    ensures kept { ¬ (result ≡ 0) → receiving.new ≡ receiving.old }
    ensures untold { ¬ (result ≡ 0) → receipt.new ≡ receipt.old }
{
    let Some(mut end) = receiving.receiving() else {
        return Fault::Argument.code();
    };
    *receipt = receipt_told(end.receipt(now));
    *receiving = KrbReceiving::of(end);
    0
}
