//! Relays of real senders and receivers in threads: what is reported, what a fault names and its
//! log has, that each sealer is dropped once after it was wiped, that each seal call stands within
//! its own lane, how far a sender seals ahead, and faults of two threads at once.

mod long;
mod sweep;
mod together;

use crate::lanes::Lanes;
use crate::relay_asserts::{assert_log, assert_same, assert_sender};
use crate::watch::{Odd, Watch};
use krb_peers::{Wire, emit_sealed_within};
use krb_relay::Cause;
use std::alloc::{AllocError, Global};
use std::process::Abort;
use std::sync::Wait;
use std::sync::atomic::Ordering;
use std::test::Fail;
use std::thread::Threads;

const PLAIN: Odd = Odd {
    fails_at: 0,
    wiped: false,
};

/// A relay of two senders: the texts of the first, the call that its sealer refuses (0: none),
/// whether the sealer of the second, which has no text, was wiped, and whether its plan is bad. Its
/// fault and which lane that names, how many records each sender sealed, and the log.
type Row = (
    &'static [u8],
    u64,
    (bool, bool),
    Option<(Cause, u32)>,
    [usize; 2],
    &'static [(u32, &'static str)],
);

const WHOLE: [(u32, &str); 4] = [(0, "a"), (1, "closed"), (0, "b"), (0, "closed")];

const FIRST_LANE: [(u32, &str); 3] = [(0, "a"), (0, "b"), (0, "closed")];

/// Of the last one the worker of lane 0 stops and is drained, and the other lane closes.
static ROWS: [Row; 8] = [
    (b"ab", 0, (false, false), None, [3, 1], &WHOLE),
    (
        b"ab",
        1,
        (false, false),
        Some((Cause::Memory, 0)),
        [0, 1],
        &[(1, "closed")],
    ),
    (
        b"ab",
        3,
        (false, false),
        Some((Cause::Memory, 0)),
        [2, 1],
        &[(0, "a"), (1, "closed"), (0, "b")],
    ),
    (
        b"ab",
        0,
        (true, false),
        Some((Cause::Wiped, 1)),
        [3, 0],
        &FIRST_LANE,
    ),
    (
        b"ab",
        0,
        (false, true),
        Some((Cause::BadPlan, 1)),
        [3, 1],
        &FIRST_LANE,
    ),
    (
        b"ab",
        0,
        (true, true),
        Some((Cause::Wiped, 1)),
        [3, 0],
        &FIRST_LANE,
    ),
    (
        b"ab",
        1,
        (true, false),
        Some((Cause::Memory, 0)),
        [0, 0],
        &[],
    ),
    (
        &[b'x'; 1000],
        3,
        (false, false),
        Some((Cause::Memory, 0)),
        [2, 1],
        &[(0, "x"), (1, "closed"), (0, "x")],
    ),
];

/// Its lanes.
fn lanes_of(alloc: Global, row: &Row, gate: &Watch) -> Result<Lanes, Fail> {
    let (texts, fails_at, (wiped, bad_plan), _, _, _) = *row;
    let first = Odd {
        fails_at,
        wiped: false,
    };
    let second = Odd { fails_at: 0, wiped };
    let mut lanes = Lanes::new(alloc);
    lanes.add(alloc, gate, false, first, texts, 1)?;
    lanes.add(alloc, gate, true, second, &[], 1)?;
    if bad_plan {
        lanes.plan(alloc, &[5])?;
    }
    Ok(lanes)
}

/// Asserts how the relay of a row ends at a capacity.
fn assert_ends<R: Threads + Wait + Abort + Sync>(
    rt: &R,
    alloc: Global,
    row: &Row,
    capacity: usize,
) -> Result<(), Fail> {
    let (_, _, _, expected, sealed, entries) = *row;
    let gate = Watch::new(alloc, 0)?;
    let lanes = lanes_of(alloc, row, &gate)?;
    match lanes.run(rt, alloc, capacity, &gate) {
        Ok(report) => {
            assert_same(rt, expected, None);
            assert_log(rt, &report.log, entries);
        }
        Err(fault) => {
            assert_same(rt, Some((fault.cause, fault.lane)), expected);
            assert_same(rt, [fault.sealed[0], fault.sealed[1]], sealed);
            assert_log(rt, &fault.log, entries);
        }
    }
    for lane in [0, 1] {
        let [entered, left, inside, drops] = gate.counts(lane);
        assert_same(rt, (left, inside, drops), (entered, entered, 1));
    }
    Ok(())
}

#[test]
fn each_relay_ends_as_its_row_says(rt: HostRuntime) -> Result<(), Fail> {
    for row in ROWS.iter() {
        for capacity in [1, 64] {
            assert_ends(&rt, rt.alloc(), row, capacity)?;
        }
    }
    Ok(())
}

/// The entries of seven lanes: each one's text, and then each one's close.
const TWO_ROUNDS: [(u32, &str); 14] = [
    (0, "a"),
    (1, "a"),
    (2, "a"),
    (3, "a"),
    (4, "a"),
    (5, "a"),
    (6, "a"),
    (0, "closed"),
    (1, "closed"),
    (2, "closed"),
    (3, "closed"),
    (4, "closed"),
    (5, "closed"),
    (6, "closed"),
];

/// Out of memory isn't reported while memory is available, and the lanes below are served whole.
#[test]
fn wiped_sealer_of_the_last_lane_is_named(rt: HostRuntime) -> Result<(), Fail> {
    let gate = Watch::new(rt.alloc(), 0)?;
    let mut lanes = Lanes::new(rt.alloc());
    for lane in 0..8 {
        let odd = Odd {
            fails_at: 0,
            wiped: lane == 7,
        };
        lanes.add(rt.alloc(), &gate, false, odd, b"a", 1)?;
    }
    let Err(fault) = lanes.run(&rt, rt.alloc(), 64, &gate) else {
        return Err(Fail::from("no fault"));
    };
    assert_same(&rt, (fault.cause, fault.lane), (Cause::Wiped, 7));
    assert_same(&rt, fault.sealed, [2, 2, 2, 2, 2, 2, 2, 0]);
    assert_log(&rt, &fault.log, &TWO_ROUNDS);
    for lane in 0..8 {
        let [_, _, _, drops] = gate.counts(lane);
        assert_same(&rt, drops, 1);
    }
    Ok(())
}

/// A sender seals as many frames as its lane has room for and two more, one that is taken and one
/// that waits, and no further one while the first call of the other lane is held.
#[test]
fn sender_seals_until_its_lane_is_full(rt: HostRuntime) -> Result<(), Fail> {
    let alloc = rt.alloc();
    for (capacity, held) in [(1, 3), (8, 10), (64, 66)] {
        let gate = Watch::new(alloc, held)?;
        let mut lanes = Lanes::new(alloc);
        lanes.add(alloc, &gate, false, PLAIN, &[b'x'; 70], 1)?;
        lanes.add(alloc, &gate, true, PLAIN, &[], 1)?;
        assert!(rt; lanes.run(&rt, alloc, capacity, &gate).is_ok());
        assert_same(&rt, gate.seen.load(Ordering::SeqCst), held);
        assert_same(&rt, gate.counts(0), [71, 71, 71, 1]);
        assert_same(&rt, gate.counts(1), [1, 1, 1, 1]);
    }
    Ok(())
}

/// Makes each emission of a wire, none of which is empty, and counts them.
fn count_emissions(
    rt: &(impl Abort + Alloc<A = Global>),
    wire: &Wire,
) -> Result<usize, AllocError> {
    for k in 0..wire.len() {
        assert!(rt; !wire.emission(rt.alloc(), k)?.is_empty());
    }
    Ok(wire.len())
}

/// The records of two texts and the close, from 7 on, all or until the second call is refused.
#[test]
fn sealing_all_stands_within_its_lane(rt: HostRuntime) -> Result<(), Fail> {
    for (fails_at, frames, calls) in [(0, Some(3), 3), (2, None, 2)] {
        let gate = Watch::new(rt.alloc(), 0)?;
        let odd = Odd {
            fails_at,
            wiped: false,
        };
        let mut lanes = Lanes::new(rt.alloc());
        lanes.add(rt.alloc(), &gate, false, PLAIN, b"", 1)?;
        lanes.add(rt.alloc(), &gate, false, odd, b"ab", 1)?;
        let mut sender = lanes.sendings.pop().ok_or("no sender")?;
        assert_sender(&rt, &sender);
        let count = match emit_sealed_within(rt.alloc(), &gate, 1, &mut sender) {
            Ok(wire) => Some(count_emissions(&rt, &wire)?),
            Err(_) => None,
        };
        assert_same(&rt, count, frames);
        assert_same(&rt, gate.counts(0), [0, 0, 0, 0]);
        assert_same(&rt, gate.counts(1), [calls, calls, calls, 0]);
    }
    Ok(())
}
