//! Making a lane, where each allocation in turn may fail: there is a lane that works, or out of
//! memory, and then a lane with memory. Its other calls allocate nothing. `tests/failing_calls` makes the
//! allocations fail, and counts the lines that report it.

ghost use Rattle.std.specs.Prelude.{◌≡◌, []};

use super::{next_is, next_is_end};
use crate::asserts::assert_same;
use krb_lane::{LaneError, LaneRx, LaneTx, lane, meet};
use std::process::Abort;
use std::sync::Wait;
use std::test::Fail;

/// Asserts that two frames and the end pass through a new lane.
fn assert_passes(
    rt: &(impl Wait + Abort),
    tx: LaneTx,
    rx: LaneRx,
    first: Vec<u8>,
    second: Vec<u8>,
) -> Result<(), Fail>
    requires { (tx ≡ rx) × (tx.frames ≡ []) }
{
    let (mut tx, mut rx) = (tx, rx);
    let Ok(()) = tx.send(rt, first) else {
        return Err(Fail::from("handed back"));
    };
    let Ok(()) = tx.send(rt, second) else {
        return Err(Fail::from("handed back"));
    };
    assert!(rt; next_is(rt, &mut rx, 0, 0x61));
    assert!(rt; next_is(rt, &mut rx, 1, 0x62));
    let Ok(sent) = tx.end(rt) else {
        return Err(Fail::from("handed back"));
    };
    assert!(rt; next_is_end(rt, &mut rx));
    let met = meet(sent, rx);
    assert_same(rt, (met.sent, met.got), (2, 2));
    Ok(())
}

#[test]
fn lane_works_or_memory_wanted(rt: HostRuntime) -> Result<(), Fail> {
    let alloc = rt.alloc();
    let (first, second) = ([0x61].to_vec(alloc)?, [0x62].to_vec(alloc)?);
    match lane(&rt, alloc, 2) {
        Ok((tx, rx)) => assert_passes(&rt, tx, rx, first, second),
        Err(LaneError::Memory) => {
            println!(rt; "refused: lane")?;
            let Ok((tx, rx)) = lane(&rt, alloc, 2) else {
                return Err(Fail::from("no lane with memory"));
            };
            assert_passes(&rt, tx, rx, first, second)
        }
    }
}
