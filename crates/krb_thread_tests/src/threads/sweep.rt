//! Relays where each allocation in turn may fail. `tests/failing_calls` makes the allocations fail, and counts
//! the lines that report it.

use super::long::{SIZE, assert_begins, assert_rounds, lanes_of};
use super::{PLAIN, together};
use crate::lanes::Lanes;
use crate::relay_asserts::assert_same;
use crate::watch::{Odd, Watch};
use krb_relay::Cause;
use std::test::Fail;

const REFUSES: Odd = Odd {
    fails_at: 2,
    wiped: false,
};

/// The first lane's sealer refuses a call: a fault of the calling thread comes before the worker's, and
/// each lane's count is that of the records that its worker sealed. The second lane has no fault of its
/// own, so what names it is the calling thread's.
#[test]
fn own_fault_is_told_and_each_lane_counts_what_it_sealed(rt: HostRuntime) -> Result<(), Fail> {
    let gate = Watch::new(rt.alloc(), 0)?;
    let mut lanes = Lanes::new(rt.alloc());
    lanes.add(rt.alloc(), &gate, false, REFUSES, b"ab", 1)?;
    lanes.add(rt.alloc(), &gate, true, PLAIN, b"a", 1)?;
    let Err(fault) = lanes.run(&rt, rt.alloc(), 1, &gate) else {
        return Err(Fail::from("no fault"));
    };
    for lane in [0, 1] {
        assert_same(&rt, fault.sealed[lane] as u64, gate.sealed(lane));
    }
    if matches!(fault.cause, Cause::Spawn) || fault.lane == 1 {
        println!(rt;
            "refused: relay in threads, {} at lane {}",
            fault.cause, fault.lane
        )?;
    }
    Ok(())
}

/// The rounds of two long texts, which are opened side by side.
const ROUNDS: [(u32, u8); 4] = [(0, b'a'), (1, b'b'), (0, b'.'), (1, b'.')];

/// Without memory for a thread that opens, the same is done without it. Without memory for a frame, what
/// the log has of each lane begins as in the whole relay.
#[test]
fn long_texts_are_logged_until_memory_is_out(rt: HostRuntime) -> Result<(), Fail> {
    let gate = Watch::new(rt.alloc(), 0)?;
    let lanes = lanes_of(rt.alloc(), &gate, &[b"a", b"b"], 0)?;
    match lanes.run(&rt, rt.alloc(), 1, &gate) {
        Ok(report) => assert_rounds(&rt, &report.log, SIZE, &ROUNDS),
        Err(fault) => {
            assert_begins(&rt, &fault.log, SIZE, &ROUNDS);
            println!(rt;
                "refused: relay of long texts, {} at lane {}",
                fault.cause, fault.lane
            )?;
        }
    }
    Ok(())
}

/// Without memory for a frame of many lanes, what the log has of each lane begins as in the whole relay.
#[test]
fn frames_of_many_lanes_are_logged_until_memory_is_out(rt: HostRuntime) -> Result<(), Fail> {
    let gate = Watch::new(rt.alloc(), 0)?;
    let lanes = together::lanes_of(rt.alloc(), &gate)?;
    match lanes.run(&rt, rt.alloc(), 1, &gate) {
        Ok(report) => assert_rounds(&rt, &report.log, together::SIZE, &together::ROUNDS),
        Err(fault) => {
            assert_begins(&rt, &fault.log, together::SIZE, &together::ROUNDS);
            println!(rt;
                "refused: relay of many lanes, {} at lane {}",
                fault.cause, fault.lane
            )?;
        }
    }
    Ok(())
}
