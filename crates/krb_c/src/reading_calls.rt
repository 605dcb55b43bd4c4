//! What C calls of a shard at a sender and at a receiver, and of a stream's openings. They are structs of the
//! caller's, so they have no handle. A function with an answer answers 0, or 912 where an argument doesn't
//! fit: then all stays as it was.

ghost use Rattle.std.specs.Prelude.{◌≡◌, ◌↔◌, false};
ghost use Rattle.krb_carrier_structs.specs.Calls.{ReadsTold};
ghost use Rattle.krb_carrier_structs.specs.Numbers.{judged_number};
ghost use Rattle.krb_carrier_structs.specs.Shards.{CanMove, CanRead, flow_told, reading_told, told_flow, told_reading};
ghost use Rattle.krb_carrier_structs.specs.Stream.{told_head, told_opening};
ghost use Rattle.krb_engine.specs.Shards.{moved, read_to, room_of, taken};
ghost use Rattle.krb_engine.specs.Stream.{judged as taken_for};

use krb_carrier_structs::{
    KrbFlow, KrbHead, KrbOpening, KrbReading, number_of_judged, number_of_read,
};
use krb_engine::{Reading, Spot, judge};
use krb_structs::Fault;

/// Tells how many frames more may be under way in a shard: none while it has no list.
#[unsafe(no_mangle)]
pub extern "C" fn krbrelay_flow_room(flow: &KrbFlow, room: &mut u64) -> u32
    ensures ok { result ≡ 0 ↔ flow.now.reserved ≡ 0 }
    ensures argument { ¬ (result ≡ 0) → result ≡ 912 }
    ensures room { result ≡ 0 → room.new ≡ room_of (told_flow flow.now) }
    ensures untold { ¬ (result ≡ 0) → room.new ≡ room.old }
{
    if flow.reserved != 0 {
        return Fault::Argument.code();
    }
    *room = flow.flow().room();
    0
}

/// One of a shard's sessions had so many frames under way, and has so many now.
#[unsafe(no_mangle)]
pub extern "C" fn krbrelay_flow_moved(flow: &mut KrbFlow, before: u64, after: u64) -> u32
    ensures ok { result ≡ 0 ↔ CanMove flow.old before after }
    ensures argument { ¬ (result ≡ 0) → result ≡ 912 }
    ensures moved { result ≡ 0 → flow.new ≡ flow_told (moved (told_flow flow.old) before after) }
    ensures kept { ¬ (result ≡ 0) → flow.new ≡ flow.old }
{
    if flow.reserved != 0 || before > flow.under_way || after > u64::MAX - flow.under_way {
        return Fault::Argument.code();
    }
    let mut shard = flow.flow();
    shard.moved(before, after);
    *flow = KrbFlow::of(shard);
    0
}

/// Makes the shard of which all up to this offset of this list is stored.
#[unsafe(no_mangle)]
pub extern "C" fn krbrelay_reading_load(reading: &mut KrbReading, list: u64, offset: u64)
    ensures { reading.new ≡ reading_told (read_to (record { list = list; offset = offset }) (record { list = list; offset = offset }) false) }
{
    *reading = KrbReading::of(Reading::load(Spot { list, offset }));
}

/// So many frames came after where it is read, from this list, which has so many items: tells what they are
/// for.
#[unsafe(no_mangle)]
pub extern "C" fn krbrelay_reading_frames(
    reading: &mut KrbReading,
    list: u64,
    last: u64,
    count: u64,
    read: &mut u32,
) -> u32
    ensures ok { result ≡ 0 ↔ CanRead reading.old count }
    ensures argument { ¬ (result ≡ 0) → result ≡ 912 }
    ensures reads { result ≡ 0 → ReadsTold reading.old list last count read.new reading.new }
    ensures kept { ¬ (result ≡ 0) → reading.new ≡ reading.old }
    ensures untold { ¬ (result ≡ 0) → read.new ≡ read.old }
{
    if reading.reserved != 0 || count > u64::MAX - reading.read.offset {
        return Fault::Argument.code();
    }
    let mut shard = reading.reading();
    *read = number_of_read(shard.frames(list, last, count));
    *reading = KrbReading::of(shard);
    0
}

/// The transaction took effect.
#[unsafe(no_mangle)]
pub extern "C" fn krbrelay_reading_stored(reading: &mut KrbReading) -> u32
    ensures ok { result ≡ 0 ↔ reading.old.reserved ≡ 0 }
    ensures argument { ¬ (result ≡ 0) → result ≡ 912 }
    ensures stored { result ≡ 0 → reading.new ≡ reading_told (taken (told_reading reading.old)) }
    ensures kept { ¬ (result ≡ 0) → reading.new ≡ reading.old }
{
    if reading.reserved != 0 {
        return Fault::Argument.code();
    }
    let mut shard = reading.reading();
    shard.stored();
    *reading = KrbReading::of(shard);
    0
}

/// Tells what an opening is taken for, by the last session of its stream that the store has.
#[unsafe(no_mangle)]
pub extern "C" fn krbrelay_judge(head: &KrbHead, opening: &KrbOpening, judged: &mut u32) -> u32
    ensures ok { result ≡ 0 ↔ opening.now.reserved ≡ 0 }
    ensures argument { ¬ (result ≡ 0) → result ≡ 912 }
    ensures judged { result ≡ 0
        → judged.new ≡ judged_number (taken_for (told_head head.now) (told_opening opening.now)) }
    ensures untold { ¬ (result ≡ 0) → judged.new ≡ judged.old }
{
    if opening.reserved != 0 {
        return Fault::Argument.code();
    }
    *judged = number_of_judged(judge(head.head(), &opening.opening()));
    0
}
