//! Fork and join over the lanes: each level starts one worker, and the innermost one receives.

ghost use Rattle.std.specs.Prelude.{◌≡◌, ◌<◌, ◌≤◌, ◌+◌, ℕ, [], All, OnErr, IfOk, vec_len, length};
ghost use Rattle.krb_base.specs.Limits.{lane_limit, capacity_limit};
ghost use Rattle.krb_lane.specs.Side.{Side};
ghost use Rattle.krb_peers.specs.Log.{new_log};
ghost use Rattle.krb_relay.specs.Gathering.{Begun, EndsWith, Gathers, IsFresh, Leaves};
ghost use Rattle.krb_relay.specs.declared.worker.Handed.{Handed};

use crate::cause::OwnCause;
use crate::fault::{OwnFault, WorkerFault};
use crate::serving::{finish, give_up};
use crate::work::{Work, Worker, start};
use crate::worker::{Ended, Handed};
use krb_base::LANE_LIMIT;
use krb_lane::{LaneRx, lane, meet};
use krb_peers::{Log, Receiving};
use std::alloc::Global;
use std::sync::Wait;
use std::thread::{Scope, Threads};

/// The result of the lanes inside a level: the ends outside it, the log, how many records each
/// worker sealed, and the faults.
#[derive(Drop)]
pub(crate) struct Gathered {
    pub(crate) ends: Vec<LaneRx>,
    pub(crate) log: Log,
    pub(crate) sealed: [usize; LANE_LIMIT],
    pub(crate) own: Option<OwnFault>,
    pub(crate) fault: Option<WorkerFault>,
}

/// Starts a worker for the last part, goes on with the others inside, then joins the worker and meets
/// its lane.
///
/// The innermost level, which has no part, serves all lanes.
pub(crate) fn level<'s, 'e, R: Threads + Wait + Sync, S: Send + Drop + 's, W: Work<S> + Sync>(
    scope: &Scope<'s, &'e ()>,
    rt: &'e R,
    alloc: Global,
    capacity: usize,
    work: &'e W,
    mut parts: Vec<S>,
    mut receivings: Vec<Receiving>,
    mut ends: Vec<LaneRx>,
    mut log: Log,
) -> Gathered
    requires capacity { (0 < capacity) × (capacity ≤ capacity_limit) }
    requires pairs { vec_len ends + vec_len parts ≡ vec_len receivings }
    requires few { length receivings.items ≤ lane_limit }
    requires moments { All (λ receiving. 0 < length receiving.nows.items) receivings.items }
    requires callable { All (λ part. (tx : Side) → tx.frames ≡ []
        → W.can_run work.now part tx) parts.items }
    requires lane { (part : S) (tx : Side) (handed : Handed)
        → W.gives work.now part tx handed → handed.all.lane ≡ tx.lane }
    requires fresh { All IsFresh ends.items }
    requires log { log ≡ new_log (length receivings.items) }
    ensures { Gathers (W.gives work.now) parts.items receivings.items ends.items
        result.ends.items result.log result.sealed result.own result.fault }
{
    let number = ends.len() as u32;
    let Some(part) = parts.pop() else {
        let own = finish(rt, alloc, ends.as_mut_slice(), &mut receivings, &mut log);
        return Gathered {
            ends,
            log,
            sealed: [0; LANE_LIMIT],
            own,
            fault: None,
        };
    };
    match begin(scope, rt, alloc, capacity, work, part, &mut ends) {
        Err(cause) => {
            let fault = OwnFault {
                cause,
                lane: number,
            };
            let own = give_up(rt, ends.as_mut_slice(), &mut receivings, &log, fault);
            Gathered {
                ends,
                log,
                sealed: [0; LANE_LIMIT],
                own,
                fault: None,
            }
        }
        Ok(worker) => {
            let mut inner = level(
                scope, rt, alloc, capacity, work, parts, receivings, ends, log,
            );
            let ended = leave(rt, worker, &mut inner.ends);
            inner.sealed[number as usize] = ended.sealed;
            if let Some(cause) = ended.cause {
                inner.fault = Some(WorkerFault {
                    cause,
                    lane: number,
                });
            }
            inner
        }
    }
}

/// Makes a lane, and starts its worker.
fn begin<'s, 'e, R: Threads + Wait, S: Send + Drop + 's, W: Work<S> + Sync>(
    scope: &Scope<'s, &'e ()>,
    rt: &'e R,
    alloc: Global,
    capacity: usize,
    work: &'e W,
    part: S,
    ends: &mut Vec<LaneRx>,
) -> Result<Worker<S, W>, OwnCause>
    requires capacity { (0 < capacity) × (capacity ≤ capacity_limit) }
    requires few { vec_len ends.old < lane_limit }
    requires callable { (tx : Side) → tx.frames ≡ [] → W.can_run work.now part tx }
    ensures err { OnErr result (ends.new.items ≡ ends.old.items) }
    ensures worker { IfOk result (λ worker.
        (worker.promise.work.value ≡ work.now) × (worker.promise.part.value ≡ part)) }
    ensures lane { IfOk result (λ worker.
        Begun ends.old.items ends.new.items worker.promise.tx.value) }
{
    let number = ends.len() as u32;
    ends.reserve(1)?;
    let (tx, rx) = lane(rt, alloc, capacity)?;
    let worker = start(scope, work, number, part, tx)?;
    ends.push_reserved(rx);
    Ok(worker)
}

/// Joins a worker, and meets its lane, which is the last.
fn leave<R: Threads + Wait, S: Send + Drop, W: Work<S>>(
    rt: &R,
    worker: Worker<S, W>,
    ends: &mut Vec<LaneRx>,
) -> Ended
    requires lane { (tx : Side) (handed : Handed)
        → W.gives worker.promise.work.value worker.promise.part.value tx handed
        → handed.all.lane ≡ tx.lane }
    requires last { EndsWith ends.old.items worker.promise.tx.value }
    ensures { Leaves (W.gives worker.promise.work.value) ends.old.items ends.new.items
        worker.promise.part.value worker.promise.tx.value result.sealed result.cause }
{
    let Handed { all, sealed, cause } = worker.join(rt);
    let Some(mine) = ends.pop() else {
        unreachable!()
    };
    let _ = meet(all, mine);
    Ended { sealed, cause }
}
