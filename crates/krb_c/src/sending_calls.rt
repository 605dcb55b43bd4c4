//! What C calls of a session's end at a sender. It is a struct of the caller's, so it has no handle. Each
//! function answers 0, or 912 where the numbers are no end or an argument doesn't fit: then all stays as
//! it was.

ghost use Rattle.std.specs.Prelude.{◌≡◌, ◌↔◌, ◌-◌, ◌==◌, ◌≢◌, ◌≤◌, IsSome, if◌then◌else◌};
ghost use Rattle.krb_carry.specs.Progress.{Counts};
ghost use Rattle.krb_carrier_structs.specs.Calls.{HearsTold, ServesTold};
ghost use Rattle.krb_carrier_structs.specs.Numbers.{stands_number};
ghost use Rattle.krb_carrier_structs.specs.Receipt.{told_receipt};
ghost use Rattle.krb_carrier_structs.specs.Sending.{CanSeal, IsSending, Tells, told_sending};
ghost use Rattle.krb_engine.specs.Sending.{confirmed, is_settled, listed, loaded, reconnected, sealed, sealing_room, stands as why_it_stands};

use krb_carrier_structs::{KrbCommand, KrbReceipt, KrbSending, number_of_heard, number_of_stands};
use krb_carry::HISTORY_SIZE;
use krb_engine::Sending;
use krb_structs::Fault;

/// Makes the end of a session of which so much was stored: all that wasn't carried counts as not
/// published. It counts for this list of the shard.
#[unsafe(no_mangle)]
pub extern "C" fn krbrelay_sending_load(
    sending: &mut KrbSending,
    next: u64,
    carried: u64,
    at: u64,
    done: u64,
    list: u64,
    now: u64,
) -> u32
    ensures ok { result ≡ 0 ↔ ((done ≤ carried) × (carried ≤ next)) }
    ensures argument { ¬ (result ≡ 0) → result ≡ 912 }
    ensures loaded { result ≡ 0 → Tells sending.new (loaded next carried at done list now) }
    ensures kept { ¬ (result ≡ 0) → sending.new ≡ sending.old }
{
    if done > carried || carried > next {
        return Fault::Argument.code();
    }
    *sending = KrbSending::of(&Sending::load(next, carried, at, done, list, now));
    0
}

/// So many frames more are sealed and stored.
#[unsafe(no_mangle)]
pub extern "C" fn krbrelay_sending_sealed(sending: &mut KrbSending, count: u64) -> u32
    ensures ok { result ≡ 0 ↔ CanSeal sending.old count }
    ensures argument { ¬ (result ≡ 0) → result ≡ 912 }
    ensures sealed { result ≡ 0 → Tells sending.new (sealed (told_sending sending.old) count) }
    ensures kept { ¬ (result ≡ 0) → sending.new ≡ sending.old }
{
    let Some(mut end) = sending.sending() else {
        return Fault::Argument.code();
    };
    if count > u64::MAX - end.progress().next() {
        return Fault::Argument.code();
    }
    end.sealed(count);
    *sending = KrbSending::of(&end);
    0
}

/// A copy of the frame of this number stands at this offset of the list: tells whether it counts, 1 or 0.
#[unsafe(no_mangle)]
pub extern "C" fn krbrelay_sending_confirmed(
    sending: &mut KrbSending,
    number: u64,
    offset: u64,
    now: u64,
    counts: &mut u32,
) -> u32
    ensures ok { result ≡ 0 ↔ IsSending sending.old }
    ensures argument { ¬ (result ≡ 0) → result ≡ 912 }
    ensures counts { result ≡ 0
        → (counts.new ≡ 1 ↔ Counts (told_sending sending.old).progress number offset) }
    ensures or_not { result ≡ 0 → counts.new ≤ 1 }
    ensures confirmed { result ≡ 0
        → Tells sending.new (if counts.new == 1 then confirmed (told_sending sending.old) offset now
        else told_sending sending.old) }
    ensures kept { ¬ (result ≡ 0) → sending.new ≡ sending.old }
    ensures untold { ¬ (result ≡ 0) → counts.new ≡ counts.old }
{
    let Some(mut end) = sending.sending() else {
        return Fault::Argument.code();
    };
    *counts = u32::from(end.confirmed(number, offset, now));
    *sending = KrbSending::of(&end);
    0
}

/// The shard has this list: tells whether it had a different one, 1 or 0. Then all that isn't done leaves
/// again.
#[unsafe(no_mangle)]
pub extern "C" fn krbrelay_sending_listed(
    sending: &mut KrbSending,
    list: u64,
    other: &mut u32,
) -> u32
    ensures ok { result ≡ 0 ↔ IsSending sending.old }
    ensures argument { ¬ (result ≡ 0) → result ≡ 912 }
    ensures other { result ≡ 0 → (other.new ≡ 1 ↔ (list ≢ sending.old.list)) }
    ensures or_not { result ≡ 0 → other.new ≤ 1 }
    ensures listed { result ≡ 0 → Tells sending.new (listed (told_sending sending.old) list) }
    ensures kept { ¬ (result ≡ 0) → sending.new ≡ sending.old }
    ensures untold { ¬ (result ≡ 0) → other.new ≡ other.old }
{
    let Some(mut end) = sending.sending() else {
        return Fault::Argument.code();
    };
    *other = u32::from(end.listed(list));
    *sending = KrbSending::of(&end);
    0
}

/// The connection is a new one: what wasn't confirmed leaves again.
#[unsafe(no_mangle)]
pub extern "C" fn krbrelay_sending_reconnected(sending: &mut KrbSending) -> u32
    ensures ok { result ≡ 0 ↔ IsSending sending.old }
    ensures argument { ¬ (result ≡ 0) → result ≡ 912 }
    ensures again { result ≡ 0 → Tells sending.new (reconnected (told_sending sending.old)) }
    ensures kept { ¬ (result ≡ 0) → sending.new ≡ sending.old }
{
    let Some(mut end) = sending.sending() else {
        return Fault::Argument.code();
    };
    end.reconnected();
    *sending = KrbSending::of(&end);
    0
}

/// A receiver says what took effect, and what it asks for: tells what follows. `own` is the digest of this
/// sender's own frames below the receipt's number. If that is above the next one, or isn't above `done`,
/// `own` isn't read.
#[unsafe(no_mangle)]
pub extern "C" fn krbrelay_sending_receipt(
    sending: &mut KrbSending,
    receipt: &KrbReceipt,
    own: &[u8; HISTORY_SIZE],
    now: u64,
    heard: &mut u32,
) -> u32
    ensures ok { result ≡ 0 ↔ (IsSending sending.old × IsSome (told_receipt receipt.now)) }
    ensures argument { ¬ (result ≡ 0) → result ≡ 912 }
    ensures hears { result ≡ 0
        → HearsTold sending.old own.now receipt.now now heard.new sending.new }
    ensures kept { ¬ (result ≡ 0) → sending.new ≡ sending.old }
    ensures untold { ¬ (result ≡ 0) → heard.new ≡ heard.old }
{
    let Some(mut end) = sending.sending() else {
        return Fault::Argument.code();
    };
    let Some((said, asks)) = receipt.receipt() else {
        return Fault::Argument.code();
    };
    *heard = number_of_heard(end.receipt(&said, own, asks, now));
    *sending = KrbSending::of(&end);
    0
}

/// It is the session's turn, and the shard has room for so many frames more: tells what is to be done.
#[unsafe(no_mangle)]
pub extern "C" fn krbrelay_sending_serve(
    sending: &mut KrbSending,
    room: u64,
    now: u64,
    command: &mut KrbCommand,
) -> u32
    ensures ok { result ≡ 0 ↔ IsSending sending.old }
    ensures argument { ¬ (result ≡ 0) → result ≡ 912 }
    ensures serves { result ≡ 0 → ServesTold sending.old room now command.new sending.new }
    ensures kept { ¬ (result ≡ 0) → sending.new ≡ sending.old }
    ensures untold { ¬ (result ≡ 0) → command.new ≡ command.old }
{
    let Some(mut end) = sending.sending() else {
        return Fault::Argument.code();
    };
    *command = KrbCommand::of(end.serve(room, now));
    *sending = KrbSending::of(&end);
    0
}

/// Tells how many of its frames are under way, how many more may be sealed, whether all is done or it is
/// stopped (1 or 0), and why it stands, or 0.
#[unsafe(no_mangle)]
pub extern "C" fn krbrelay_sending_state(
    sending: &KrbSending,
    under_way: &mut u64,
    room: &mut u64,
    settled: &mut u32,
    stands: &mut u32,
) -> u32
    ensures ok { result ≡ 0 ↔ IsSending sending.now }
    ensures argument { ¬ (result ≡ 0) → result ≡ 912 }
    ensures under_way { result ≡ 0
        → under_way.new ≡ sending.now.progress.sent - sending.now.progress.carried }
    ensures room { result ≡ 0 → room.new ≡ sealing_room (told_sending sending.now) }
    ensures settled { result ≡ 0
        → settled.new ≡ (if is_settled (told_sending sending.now) then 1 else 0) }
    ensures stands { result ≡ 0 → stands.new ≡ stands_number (why_it_stands (told_sending sending.now)) }
    ensures under_way_kept { ¬ (result ≡ 0) → under_way.new ≡ under_way.old }
    ensures room_kept { ¬ (result ≡ 0) → room.new ≡ room.old }
    ensures settled_kept { ¬ (result ≡ 0) → settled.new ≡ settled.old }
    ensures stands_kept { ¬ (result ≡ 0) → stands.new ≡ stands.old }
{
    let Some(end) = sending.sending() else {
        return Fault::Argument.code();
    };
    *under_way = end.under_way();
    *room = end.sealing_room();
    *settled = u32::from(end.is_settled());
    *stands = number_of_stands(end.stands());
    0
}
