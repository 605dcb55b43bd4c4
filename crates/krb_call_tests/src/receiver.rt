//! A shard of a receiver: what each call answers, and that a text that fails stands alone, is tried within five seconds
//! each time, and doesn't keep what is before it from being stored.

ghost use Rattle.std.specs.Prelude.{◌≡◌};

use krb_carry::Receipt;
use krb_engine::{Asks, Outcome, Row, Seen, Spot};
use krb_receiver::{Due, Effects, Failure, Found, Shard, Then, Turn};
use std::alloc::Global;
use std::process::Abort;
use std::test::Fail;

/// A frame is its tag, and this is the digest after one of them: SHA-1 of twenty zeros and these bytes.
const TAG: [u8; 12] = *b"twelve bytes";

const HISTORY_OF_ONE: [u8; 20] = [
    230, 152, 215, 168, 197, 14, 49, 9, 122, 85, 119, 90, 231, 132, 94, 87, 36, 68, 43, 250,
];

const INSIDE: Effects = Effects {
    are_outside: false,
    put_aside: false,
};

const OUTSIDE: Effects = Effects {
    are_outside: true,
    put_aside: true,
};

/// A session of which nothing took effect.
const NEW: Row = Row {
    demanded: Receipt {
        number: 1,
        history: [0; 20],
    },
    closed: false,
};

const ACCEPTED: Seen = Seen {
    accepted: true,
    is_close: false,
    opened: None,
};

/// It opens at number 3, before its turn.
const EARLY: Seen = Seen {
    accepted: false,
    is_close: false,
    opened: Some(3),
};

fn spot(list: u64, offset: u64) -> Spot {
    Spot { list, offset }
}

/// A shard that has taken ten items of list 5, with two sessions.
fn loaded(rt: &impl Abort, alloc: Global, effects: Effects) -> Result<Shard, Fail> {
    let mut shard = Shard::new(effects, alloc);
    shard.loaded(spot(5, 10), alloc);
    for _ in 0..2 {
        assert!(rt; shard.len() < 2);
        shard.add(NEW)?;
    }
    Ok(shard)
}

// ---- what each call answers

fn begin(rt: &impl Abort, shard: &mut Shard, first: u64, now: u64, is_alone: bool) {
    assert!(rt; !shard.has_begun());
    assert_eq!(rt; shard.begin(first, now), is_alone);
}

fn take(
    rt: &impl Abort,
    shard: &mut Shard,
    place: u32,
    seen: Seen,
    offset: u64,
    outcome: Outcome,
) -> Result<(), Fail> {
    assert!(rt; shard.has_begun());
    assert!(rt; (place as usize) < shard.len());
    assert!(rt; shard.session(place).drafted.demanded.number < 100);
    assert_eq!(rt; shard.take(place, &TAG, seen, offset)?, outcome);
    Ok(())
}

fn fail(rt: &impl Abort, shard: &mut Shard, failure: Failure, offset: u64, then: Then) {
    assert!(rt; shard.has_begun());
    assert_eq!(rt; shard.failed(failure, offset), then);
}

fn due(place: u32, number: u64, history: [u8; 20], asks: Asks) -> Option<Due> {
    Some(Due {
        place,
        receipt: Receipt { number, history },
        asks,
    })
}

#[test]
fn a_transaction_is_stored(rt: HostRuntime) -> Result<(), Fail> {
    let mut shard = Shard::new(INSIDE, rt.alloc());
    assert_eq!(&rt; shard.turn(1_000), Turn::Load);
    shard.loaded(spot(5, 10), rt.alloc());
    assert!(&rt; !shard.listed(5, 30));
    assert_eq!(&rt; shard.turn(1_000), Turn::Read);
    for _ in 0..2 {
        assert!(&rt; shard.len() < 2);
        shard.add(NEW)?;
    }
    begin(&rt, &mut shard, 11, 1_000, false);
    assert!(&rt; !shard.is_full(3_000));
    take(&rt, &mut shard, 0, ACCEPTED, 11, Outcome::Accepted)?;
    take(&rt, &mut shard, 1, EARLY, 12, Outcome::Early)?;
    assert!(&rt; shard.has_begun());
    shard.pass(13);
    assert!(&rt; !shard.is_full(1_999));
    assert!(&rt; shard.is_full(2_000));
    assert_eq!(&rt; shard.receipt(2_000), None);
    shard.stored();
    assert_eq!(&rt; shard.reading().read, spot(5, 13));
    assert_eq!(&rt; shard.next_time(), 1_000);
    assert_eq!(&rt;
        shard.receipt(2_000),
        due(0, 2, HISTORY_OF_ONE, Asks::Nothing)
    );
    assert_eq!(&rt; shard.receipt(2_000), due(1, 1, [0; 20], Asks::Missing));
    assert_eq!(&rt; shard.receipt(2_000), None);
    assert!(&rt; 1 < shard.len());
    shard.unpaid(1, Asks::Missing);
    assert_eq!(&rt; shard.next_time(), 2_200);
    assert_eq!(&rt; shard.receipt(2_199), None);
    assert_eq!(&rt; shard.receipt(2_200), due(1, 1, [0; 20], Asks::Missing));
    Ok(())
}

#[test]
fn a_list_changes(rt: HostRuntime) -> Result<(), Fail> {
    let mut shard = loaded(&rt, rt.alloc(), INSIDE)?;
    assert!(&rt; shard.listed(5, 7));
    assert_eq!(&rt; shard.reading().read, spot(5, 7));
    assert!(&rt; shard.listed(6, 3));
    assert_eq!(&rt; shard.reading().read, spot(6, 0));
    begin(&rt, &mut shard, 1, 1_000, false);
    take(&rt, &mut shard, 0, ACCEPTED, 1, Outcome::Accepted)?;
    shard.stored();
    assert_eq!(&rt; shard.reading().stored, spot(6, 1));
    for (stored, found, turn) in [
        (spot(6, 1), Found::Same, Turn::Read),
        (spot(6, 2), Found::Ahead, Turn::Load),
        (spot(6, 0), Found::Behind, Turn::Load),
        (spot(5, 9), Found::Behind, Turn::Load),
    ] {
        assert_eq!(&rt; shard.found(stored), found);
        assert_eq!(&rt; shard.turn(1_000), turn);
    }
    Ok(())
}

// ---- what fails

/// The frames 11 and 12 are taken, as a transaction that isn't of one frame alone.
fn take_two(rt: &impl Abort, shard: &mut Shard) -> Result<(), Fail> {
    begin(rt, shard, 11, 1_000, false);
    for offset in 11..13 {
        take(rt, shard, 0, ACCEPTED, offset, Outcome::Accepted)?;
    }
    Ok(())
}

/// One of a group is refused: all up to it are taken alone, and what is before it is stored.
#[test]
fn what_is_refused_is_taken_alone(rt: HostRuntime) -> Result<(), Fail> {
    let mut shard = loaded(&rt, rt.alloc(), INSIDE)?;
    take_two(&rt, &mut shard)?;
    fail(&rt, &mut shard, Failure::Refused, 13, Then::Again);
    assert_eq!(&rt; shard.turn(1_000), Turn::Read);
    for offset in 11..13 {
        begin(&rt, &mut shard, offset, 1_000, true);
        take(&rt, &mut shard, 0, ACCEPTED, offset, Outcome::Accepted)?;
        assert!(&rt; shard.is_full(1_000));
        shard.stored();
    }
    assert_eq!(&rt; shard.reading().stored, spot(5, 12));
    for (now, at) in [
        (1_000, 1_200),
        (1_200, 1_600),
        (1_600, 2_400),
        (2_400, 4_000),
        (4_000, 7_200),
        (7_200, 12_200),
        (12_200, 17_200),
    ] {
        begin(&rt, &mut shard, 13, now, true);
        fail(&rt, &mut shard, Failure::Refused, 13, Then::Wait);
        assert_eq!(&rt; shard.turn(now), Turn::Wait { at });
        assert_eq!(&rt; shard.turn(at), Turn::Read);
    }
    begin(&rt, &mut shard, 13, 17_200, true);
    take(&rt, &mut shard, 0, ACCEPTED, 13, Outcome::Accepted)?;
    shard.stored();
    assert_eq!(&rt; shard.turn(17_200), Turn::Read);
    begin(&rt, &mut shard, 14, 17_200, false);
    Ok(())
}

/// What a command did isn't undone: it is stored, and then the text that failed is the first. One that is to be put aside
/// is tried sixteen times at once.
#[test]
fn what_a_command_did_is_stored(rt: HostRuntime) -> Result<(), Fail> {
    let mut shard = loaded(&rt, rt.alloc(), OUTSIDE)?;
    take_two(&rt, &mut shard)?;
    fail(&rt, &mut shard, Failure::Refused, 13, Then::Store);
    shard.stored();
    assert_eq!(&rt; shard.reading().stored, spot(5, 12));
    for _ in 0..16 {
        begin(&rt, &mut shard, 13, 1_000, true);
        fail(&rt, &mut shard, Failure::Refused, 13, Then::Again);
    }
    begin(&rt, &mut shard, 13, 1_000, true);
    fail(&rt, &mut shard, Failure::Refused, 13, Then::Wait);
    begin(&rt, &mut shard, 13, 1_000, true);
    fail(&rt, &mut shard, Failure::Later, 13, Then::Wait);
    Ok(())
}

/// After a fault, and where another receiver was faster, what the store has is asked for. Nothing of the transaction is
/// demanded, and nothing is owed for it.
#[test]
fn what_is_not_stored_is_loaded(rt: HostRuntime) -> Result<(), Fail> {
    for (failure, then, at) in [
        (Failure::Fault, Then::Wait, 1_200),
        (Failure::Fenced, Then::Again, 1_000),
    ] {
        let mut shard = loaded(&rt, rt.alloc(), INSIDE)?;
        take_two(&rt, &mut shard)?;
        fail(&rt, &mut shard, failure, 12, then);
        assert!(&rt; 0 < shard.len());
        assert_eq!(&rt; shard.session(0).drafted, NEW);
        assert_eq!(&rt; shard.receipt(1_000), None);
        assert_eq!(&rt; shard.turn(at), Turn::Load);
        shard.loaded(spot(5, 10), rt.alloc());
        assert_eq!(&rt; shard.len(), 0);
        begin(&rt, &mut shard, 11, at, false);
    }
    Ok(())
}

// ---- a run

/// How often each of the frames took effect, and how many transactions there were.
#[derive(Drop)]
struct Store {
    effects: [u32; 64],
    transactions: u32,
}

/// The first frame after what is stored, and those after it, until the transaction is full or a text fails: that of frame
/// 40, until this time.
fn transact(rt: &impl Abort, shard: &mut Shard, store: &mut Store, now: u64) -> Result<(), Fail> {
    const FAIR: u64 = 9_000;
    assert!(rt; shard.reading().read.offset < 64);
    let first = shard.reading().read.offset + 1;
    assert!(rt; !shard.has_begun());
    let _ = shard.begin(first, now);
    store.transactions = store.transactions.saturating_add(1);
    for offset in first..64 {
        if offset == 40 && now < FAIR {
            assert!(rt; shard.has_begun());
            let _ = shard.failed(Failure::Refused, offset);
            return Ok(());
        }
        take(
            rt,
            shard,
            (offset % 2) as u32,
            ACCEPTED,
            offset,
            Outcome::Accepted,
        )?;
        if shard.is_full(now) {
            break;
        }
    }
    shard.stored();
    for offset in first..64 {
        if offset <= shard.reading().read.offset {
            store.effects[offset as usize] = store.effects[offset as usize].saturating_add(1);
        }
    }
    Ok(())
}

/// One text fails for eight seconds. What is before it is stored at once, the text is tried at least each five seconds, all
/// that follows is stored once it is taken, each frame once, and both sessions hear of it.
#[test]
fn all_take_effect_once(rt: HostRuntime) -> Result<(), Fail> {
    let mut shard = loaded(&rt, rt.alloc(), INSIDE)?;
    let mut store = Store {
        effects: [0; 64],
        transactions: 0,
    };
    let mut receipts = [0; 2];
    for step in 0..2_000 {
        let now = 1_000 + 10 * step;
        for _ in 0..2 {
            if let Some(due) = shard.receipt(now) {
                receipts[(due.place % 2) as usize] = due.receipt.number;
            }
        }
        if shard.turn(now) == Turn::Read && shard.reading().read.offset < 63 {
            transact(&rt, &mut shard, &mut store, now)?;
        }
        if now == 2_000 {
            assert_eq!(&rt; shard.reading().stored, spot(5, 39));
        }
    }
    for offset in 0..64 {
        assert_eq!(&rt; store.effects[offset], if offset <= 10 { 0 } else { 1 });
    }
    assert!(&rt; store.transactions < 40);
    assert_eq!(&rt; receipts, [27, 28]);
    Ok(())
}
