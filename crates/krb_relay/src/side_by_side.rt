//! A round whose frames are opened side by side: by codes that are computed together, and long ones in
//! threads.

ghost use Rattle.std.specs.Prelude.{◌≡◌, ◌≤◌, length, map, All, OnOk, OnErr};
ghost use Rattle.krb_base.specs.Limits.{lane_limit};
ghost use Rattle.krb_relay.specs.Gathering.{lane_of};
ghost use Rattle.krb_relay.specs.Opening.{AreReady, OpensEach};
ghost use Rattle.krb_relay.specs.Serving.{Stands, Stops};
ghost use Rattle.krb_relay.specs.Waiting.{HaveTaken, IsUnjudged};

use crate::fault::OwnFault;
use crate::logging::log_all;
use crate::opening::{open_in_turn, open_lanes};
use crate::taking::take_round;
use crate::together::{are_alike, open_together};
use crate::waiting::{Waiting, none_waiting};
use krb_lane::LaneRx;
use krb_peers::{Log, Receiving};
use std::alloc::Global;
use std::snapshot::Snapshot;
use std::sync::Wait;
use std::thread::Threads;

/// If a round has so many bytes, its frames are opened in threads. With fewer, threads would cost more
/// than they save.
pub(crate) const ENOUGH: usize = 1 << 17;

/// One round: an item of each lane is taken, the frames are opened side by side, and then they are logged
/// in the order of the lanes. The result is how many bytes they had.
pub(crate) fn round_side_by_side<R: Threads + Wait + Sync>(
    rt: &R,
    alloc: Global,
    starts: &Snapshot<Vec<Receiving>>,
    ends: &mut [LaneRx],
    receivings: &mut [Receiving],
    log: &mut Log,
) -> Result<usize, OwnFault>
    requires { Stands 0 starts.now.value.items ends.old receivings.old log.old }
    ensures ok { OnOk result (Stands 0 starts.now.value.items ends.new receivings.new log.new) }
    ensures err { OnErr result (Stops starts.now.value.items ends.old ends.new log.new) }
    ensures same { map lane_of ends.new ≡ map lane_of ends.old }
{
    let mut waiting = none_waiting(alloc, ends)?;
    let waiting = waiting.as_mut_slice();
    take_open_and_log(rt, alloc, starts, ends, receivings, waiting, log)
}

/// The same where nothing waits.
fn take_open_and_log<R: Threads + Wait + Sync>(
    rt: &R,
    alloc: Global,
    starts: &Snapshot<Vec<Receiving>>,
    ends: &mut [LaneRx],
    receivings: &mut [Receiving],
    waiting: &mut [Waiting],
    log: &mut Log,
) -> Result<usize, OwnFault>
    requires stands { Stands 0 starts.now.value.items ends.old receivings.old log.old }
    requires none { HaveTaken ends.old ends.old waiting.old }
    requires unjudged { All IsUnjudged waiting.old }
    ensures ok { OnOk result (Stands 0 starts.now.value.items ends.new receivings.new log.new) }
    ensures err { OnErr result (Stops starts.now.value.items ends.old ends.new log.new) }
    ensures same { map lane_of ends.new ≡ map lane_of ends.old }
{
    let bytes = take_round(rt, ends, waiting);
    open_round(rt, alloc, bytes, receivings, waiting);
    log_all(rt, waiting, log)?;
    Ok(bytes)
}

/// Opens what waits of each lane, so many bytes in all.
fn open_round<R: Threads + Sync>(
    rt: &R,
    alloc: Global,
    bytes: usize,
    receivings: &mut [Receiving],
    waiting: &mut [Waiting],
)
    requires ready { AreReady receivings.old waiting.old }
    requires few { length receivings.old ≤ lane_limit }
    ensures { OpensEach receivings.old waiting.old receivings.new waiting.new }
{
    if bytes >= ENOUGH {
        open_lanes(rt, alloc, receivings, waiting);
    } else if are_alike(waiting) {
        open_together(alloc, receivings, waiting);
    } else {
        open_in_turn(alloc, receivings, waiting);
    }
}
