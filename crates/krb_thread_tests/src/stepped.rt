//! The stepped relay: two lanes in rounds, turn by turn and at its limits, and where frames
//! are when an allocation fails.

mod frames;
mod steps;
mod sweep;

use crate::lanes::Lanes;
use crate::relay_asserts::{assert_log, assert_same, assert_sender};
use crate::watch::{Odd, Watch};
use frames::{SAFE_BATCH, SAFE_CLOSE};
use krb_core::{StartError, Status, Stepped};
use std::alloc::Global;
use std::process::Abort;
use std::test::Fail;

const PLAIN: Odd = Odd {
    fails_at: 0,
    wiped: false,
};

/// A relay of two senders which ends: the texts of the first, how many go together and its plan;
/// the capacity, the log, the statuses, and whether it is done then. The second has no text.
type Row = (
    &'static [u8],
    usize,
    &'static [usize],
    usize,
    &'static [(u32, &'static str)],
    [Status; 2],
    bool,
);

const CLOSED: [Status; 2] = [Status::Closed, Status::Closed];

const CUT: [Status; 2] = [Status::Truncated, Status::Closed];

const LIVE: [Status; 2] = [Status::Live, Status::Live];

const TWO: [(u32, &str); 4] = [(0, "a"), (1, "closed"), (0, "b"), (0, "closed")];

const THREE: [(u32, &str); 5] = [(0, "a"), (0, "b"), (1, "closed"), (0, "c"), (0, "closed")];

const OVERTAKEN: [(u32, &str); 4] = [(0, "BADORDER"), (1, "closed"), (0, "a"), (0, "BADORDER")];

static ROWS: [Row; 5] = [
    (b"ab", 1, &[0, 1, 2], 1, &TWO, CLOSED, true),
    (b"ab", 1, &[0, 1, 2], 64, &TWO, CLOSED, true),
    (b"abc", 2, &[0, 1, 2], 1, &THREE, CLOSED, true),
    (b"ab", 1, &[1, 0, 0], 1, &OVERTAKEN, CUT, true),
    (b"ab", 1, &[0, 1, 2], 0, &[], LIVE, false),
];

/// Asserts that the relay of a row ends so, and stays so where it runs on.
fn assert_finishes(rt: &impl Abort, alloc: Global, row: &Row) -> Result<(), Fail> {
    let (texts, batch, plan, capacity, entries, statuses, done) = *row;
    let gate = Watch::new(alloc, 0)?;
    let mut lanes = Lanes::new(alloc);
    lanes.add(alloc, &gate, false, PLAIN, texts, batch)?;
    lanes.plan(alloc, plan)?;
    lanes.add(alloc, &gate, true, PLAIN, &[], 1)?;
    let mut relay = lanes.begin(rt, alloc, capacity)?;
    for _ in [0, 1] {
        relay.finish()?;
        let log = relay.log();
        assert_log(rt, log, entries);
        assert!(rt; log.lanes() == 2);
        assert_same(rt, [log.status(0), log.status(1)], statuses);
        assert_same(rt, (relay.lanes(), relay.done()), (2, done));
    }
    Ok(())
}

#[test]
fn each_relay_ends_as_its_row_says(rt: HostRuntime) -> Result<(), Fail> {
    for row in ROWS.iter() {
        assert_finishes(&rt, rt.alloc(), row)?;
    }
    Ok(())
}

/// A relay at the upper limits: eight lanes of 64 places, and a plan of 2,000 emissions for each:
/// the text's frame 1,999 times, and then the close.
fn eight_lanes(rt: &impl Abort, alloc: Global) -> Result<Stepped, Fail> {
    let mut plan = [0; 2_000];
    plan[1_999] = 1;
    let gate = Watch::new(alloc, 0)?;
    let mut lanes = Lanes::new(alloc);
    for _ in 0..8 {
        lanes.add(alloc, &gate, false, PLAIN, b"h", 1)?;
        lanes.plan(alloc, &plan)?;
    }
    Ok(lanes.begin(rt, alloc, 64)?)
}

#[test]
fn eight_lanes_of_2_000_emissions(rt: HostRuntime) -> Result<(), Fail> {
    let mut relay = eight_lanes(&rt, rt.alloc())?;
    relay.finish()?;
    assert!(rt; relay.done());
    let log = relay.log();
    assert_same(&rt, log.entries().len(), 16_000);
    assert!(rt; log.lanes() == 8);
    for lane in 0..8 {
        assert_same(
            &rt,
            (log.status(lane), log.texts(lane)),
            (Status::Closed, 1),
        );
    }
    Ok(())
}

/// What is wrong with two senders: the call that the first sealer refuses (0: none), and whether
/// the second was wiped and its plan is bad; and how the relay then begins.
static WRONGS: [(u64, bool, bool, Option<StartError>); 7] = [
    (0, false, false, None),
    (1, false, false, Some(StartError::Memory)),
    (3, false, false, Some(StartError::Memory)),
    (0, true, false, Some(StartError::Wiped { lane: 1 })),
    (1, true, false, Some(StartError::Memory)),
    (0, false, true, Some(StartError::BadPlan { lane: 1 })),
    (0, true, true, Some(StartError::Wiped { lane: 1 })),
];

/// Each sealer is dropped once, after it was wiped.
#[test]
fn first_refusal_is_answered(rt: HostRuntime) -> Result<(), Fail> {
    let alloc = rt.alloc();
    for (fails_at, wiped, bad_plan, expected) in WRONGS.iter() {
        let first = Odd {
            fails_at: *fails_at,
            wiped: false,
        };
        let second = Odd {
            fails_at: 0,
            wiped: *wiped,
        };
        let gate = Watch::new(alloc, 0)?;
        let mut lanes = Lanes::new(alloc);
        lanes.add(alloc, &gate, false, first, b"ab", 1)?;
        lanes.add(alloc, &gate, false, second, &[], 1)?;
        if *bad_plan {
            lanes.plan(alloc, &[5])?;
        }
        let answer = lanes.begin(&rt, alloc, 1).err();
        assert!(rt; answer == *expected);
        let ([_, _, _, first], [_, _, _, second]) = (gate.counts(0), gate.counts(1));
        assert_same(&rt, (first, second), (1, 1));
    }
    Ok(())
}

/// The frames of a batch and of the close are those of another sealer.
#[test]
fn all_records_are_sealed_as_by_another_sealer(rt: HostRuntime) -> Result<(), Fail> {
    let gate = Watch::new(rt.alloc(), 0)?;
    let mut lanes = Lanes::new(rt.alloc());
    lanes.add(rt.alloc(), &gate, false, PLAIN, b"", 1)?;
    lanes.add(rt.alloc(), &gate, false, PLAIN, b"ab", 2)?;
    let mut sender = lanes.sendings.pop().ok_or("no sender")?;
    assert_sender(&rt, &sender);
    let frames = sender.seal_all(rt.alloc())?;
    assert!(rt; frames.len() == 2);
    assert_same(&rt, frames[0].as_slice(), SAFE_BATCH.as_slice());
    assert_same(&rt, frames[1].as_slice(), SAFE_CLOSE.as_slice());
    Ok(())
}
