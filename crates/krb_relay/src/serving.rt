//! What the calling thread does after the workers were started, or if one of them couldn't be.

ghost use Rattle.std.specs.Prelude.{◌≡◌, ◌<◌, ◌≤◌, length, All, Some};
ghost use Rattle.krb_base.specs.Limits.{lane_limit};
ghost use Rattle.krb_peers.specs.Log.{new_log};
ghost use Rattle.krb_peers.specs.Receiver.{IsWiped};
ghost use Rattle.krb_relay.specs.Gathering.{Finished, IsFresh};

use crate::fault::OwnFault;
use crate::rounds::{drain, serve_all};
use krb_lane::LaneRx;
use krb_peers::{Log, Receiving, wipe_receivers};
use std::alloc::Global;
use std::snapshot::Snapshot;
use std::sync::Wait;
use std::thread::Threads;

/// Serves all lanes to their Ends, and wipes the receivers in place. After a fault of its own it
/// takes what comes, and drops it.
pub(crate) fn finish<R: Threads + Wait + Sync>(
    rt: &R,
    alloc: Global,
    ends: &mut [LaneRx],
    receivings: &mut Vec<Receiving>,
    log: &mut Log,
) -> Option<OwnFault>
    requires each { length ends.old ≡ length receivings.old.items }
    requires few { length receivings.old.items ≤ lane_limit }
    requires moments { All (λ receiving. 0 < length receiving.nows.items) receivings.old.items }
    requires fresh { All IsFresh ends.old }
    requires log { log.old ≡ new_log (length receivings.old.items) }
    ensures finished { Finished receivings.old.items ends.old ends.new log.new result }
    ensures wiped { All IsWiped receivings.new.items }
{
    let starts = Snapshot::of(&*receivings);
    let served = serve_all(rt, alloc, &starts, ends, receivings.as_mut_slice(), log);
    wipe_receivers(receivings.as_mut_slice());
    match served {
        Ok(()) => None,
        Err(fault) => {
            drain(rt, ends);
            Some(fault)
        }
    }
}

/// Takes what comes from the workers that were started, and drops it. The receivers are wiped in
/// place.
pub(crate) fn give_up<R: Wait>(
    rt: &R,
    ends: &mut [LaneRx],
    receivings: &mut Vec<Receiving>,
    log: &Log,
    fault: OwnFault,
) -> Option<OwnFault>
    requires each { length ends.old ≤ length receivings.old.items }
    requires fresh { All IsFresh ends.old }
    requires log { log.now ≡ new_log (length receivings.old.items) }
    ensures finished { Finished receivings.old.items ends.old ends.new log.now result }
    ensures fault { result ≡ Some fault }
    ensures wiped { All IsWiped receivings.new.items }
{
    wipe_receivers(receivings);
    drain(rt, ends);
    Some(fault)
}
