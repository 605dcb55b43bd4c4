//! The relay of one to eight senders to their receivers.

ghost use Rattle.std.specs.Prelude.{◌≡◌, ◌<◌, ◌≤◌, ℕ, [], All, IfOk, IfErr, map, length, replicate, vec_len};
ghost use Rattle.krb_base.specs.Limits.{lane_limit, capacity_limit};
ghost use Rattle.krb_lane.specs.Side.{Side};
ghost use Rattle.krb_peers.specs.Ends.{lanes_of};
ghost use Rattle.krb_peers.specs.Log.{new_log};
ghost use Rattle.krb_peers.specs.Receiver.{IsWiped};
ghost use Rattle.krb_peers.specs.Sending.{source_of, sent_of, IsSender};
ghost use Rattle.krb_peers.specs.Whole.{IsWhole};
ghost use Rattle.krb_relay.specs.Gathering.{Gathers};
ghost use Rattle.krb_relay.specs.Relayed.{StopsRelay};
ghost use Rattle.krb_relay.specs.Sealed.{StopsSealing};
ghost use Rattle.krb_relay.specs.declared.worker.Handed.{Handed};

use crate::cause::Cause;
use crate::fault::Fault;
use crate::levels::{Gathered, level};
use crate::work::Work;
use crate::worker::{Handed, serve};
use krb_base::LANE_LIMIT;
use krb_lane::LaneTx;
use krb_peers::{Boxed, Gate, Log, Receiving, Sending, Sent, wipe_receivers};
use krb_seal::Sealer;
use std::alloc::{AllocError, Global};
use std::sync::Wait;
use std::thread;
use std::thread::Threads;

/// The result of a relay that took every lane to its End.
#[derive(Drop)]
pub struct Report {
    /// The outcome of each frame.
    pub log: Log,
    /// How much each sender sealed.
    pub sent: Vec<Sent>,
}

/// Seals the texts of each sender in a thread of its own, and relays them to its receiver.
///
/// There are one to eight senders, within their limits, and as many receivers, each with a
/// timestamp. A lane queues `capacity` items, 1 to 64, End included. The log of an Ok is that of the
/// verdicts on all that the wires carry, in rounds: the same for every schedule and capacity, and
/// the headline holds of each lane. A [`Fault`] has the log of a prefix of each lane's wire, and the
/// headline holds of it too: what is delivered is a prefix even of the texts that were sealed until
/// then. `BadPlan` and `Wiped` name the least lane whose plan is bad or whose
/// sealer was wiped: the lanes below it have their whole logs, and the lane itself no entry. The
/// call waits for the workers.
pub fn relay<R: Threads + Wait + Sync, G: Gate + Sync, S: Sealer + Boxed + Send>(
    rt: &R,
    alloc: Global,
    mut sendings: Vec<Sending<S>>,
    mut receivings: Vec<Receiving>,
    capacity: usize,
    gate: &G,
) -> Result<Report, Fault>
    requires same { length sendings.items ≡ length receivings.items }
    requires some { 1 ≤ length sendings.items }
    requires few { length sendings.items ≤ lane_limit }
    requires senders { All (λ sending. IsSender (source_of S.state sending)) sendings.items }
    requires moments { All (λ receiving. 0 < length receiving.nows.items) receivings.items }
    requires capacity { (0 < capacity) × (capacity ≤ capacity_limit) }
    ensures whole { IfOk result (λ report. IsWhole
        (lanes_of S.state sendings.items receivings.items) report.log report.sent.items) }
    ensures lanes { IfOk result (λ report. report.log.lanes ≡ length sendings.items) }
    ensures stopped { IfErr result (λ fault. StopsRelay
        (lanes_of S.state sendings.items receivings.items) fault.log fault.lane fault.cause) }
    ensures stopped_lanes { IfErr result (λ fault. fault.log.lanes ≡ length sendings.items) }
    ensures sealed { IfErr result (λ fault. StopsSealing
        (lanes_of S.state sendings.items receivings.items) fault.log fault.sealed) }
{
    let log = Log::new(alloc, sendings.len() as u32);
    let Ok(sent) = sents(alloc, sendings.as_slice()) else {
        return Err(unstarted(receivings.as_mut_slice(), log));
    };
    // Each level takes the last one.
    sendings.reverse();
    let work = Serve { rt, alloc, gate };
    let Gathered {
        ends: _,
        log,
        sealed,
        own,
        fault,
    } = run_all(rt, alloc, capacity, &work, sendings, receivings, log);
    if let Some(own) = own {
        return Err(own.into_fault(log, sealed));
    }
    match fault {
        Some(fault) => Err(fault.into_fault(log, sealed)),
        None => Ok(Report { log, sent }),
    }
}

/// The fault of a relay that ran out of memory before it made a lane. The receivers are wiped in
/// place.
fn unstarted(receivings: &mut [Receiving], log: Log) -> Fault
    ensures cause { result.cause ≡ Cause.Memory }
    ensures lane { result.lane ≡ 0 }
    ensures log { result.log ≡ log }
    ensures sealed { result.sealed ≡ replicate 8 0 }
    ensures wiped { All IsWiped receivings.new }
{
    wipe_receivers(receivings);
    Fault {
        cause: Cause::Memory,
        lane: 0,
        log,
        sealed: [0; LANE_LIMIT],
    }
}

/// How much each sender seals.
fn sents<S: Sealer>(alloc: Global, sendings: &[Sending<S>]) -> Result<Vec<Sent>, AllocError>
    ensures { IfOk result (λ sents.
        sents.items ≡ map (λ sending. sent_of (source_of S.state sending)) sendings.now) }
{
    let mut sents = Vec::with_capacity(alloc, sendings.len())?;
    for sending in sendings {
        sents.push(sending.sent())?;
    }
    Ok(sents)
}

/// What the workers share.
#[derive(Drop)]
struct Serve<'e, R, G> {
    rt: &'e R,
    alloc: Global,
    gate: &'e G,
}

impl<'e, R: Wait, G: Gate, S: Sealer> Work<Sending<S>> for Serve<'e, R, G> {
    ghost use Rattle.std.specs.Prelude.{◌≡◌, []};
    ghost use Rattle.krb_peers.specs.Sending.{source_of, IsSender};
    ghost use Rattle.krb_relay.specs.Sent.{Served};

    ghost can_run = { λ work part tx. (tx.frames ≡ []) × IsSender (source_of S.state part) };

    ghost gives = { λ work part tx handed. Served (source_of S.state part) tx handed };

    fn run(&self, lane: u32, part: Sending<S>, tx: LaneTx) -> Handed {
        serve(self.rt, self.alloc, self.gate, lane, part, tx)
    }
}

/// Runs a worker for each part, last part first, and gathers the results of the lanes.
fn run_all<R: Threads + Wait + Sync, S: Send + Drop, W: Work<S> + Sync>(
    rt: &R,
    alloc: Global,
    capacity: usize,
    work: &W,
    parts: Vec<S>,
    receivings: Vec<Receiving>,
    log: Log,
) -> Gathered
    requires capacity { (0 < capacity) × (capacity ≤ capacity_limit) }
    requires pairs { vec_len parts ≡ vec_len receivings }
    requires few { length receivings.items ≤ lane_limit }
    requires moments { All (λ receiving. 0 < length receiving.nows.items) receivings.items }
    requires callable { All (λ part. (tx : Side) → tx.frames ≡ []
        → W.can_run work.now part tx) parts.items }
    requires lane { (part : S) (tx : Side) (handed : Handed)
        → W.gives work.now part tx handed → handed.all.lane ≡ tx.lane }
    requires log { log ≡ new_log (length receivings.items) }
    ensures { Gathers (W.gives work.now) parts.items receivings.items []
        result.ends.items result.log result.sealed result.own result.fault }
{
    thread::scope(
        thread::scope_env(),
        rt,
        |scope| -> Gathered
            requires { (0 < capacity) × (capacity ≤ capacity_limit) × (vec_len parts ≡ vec_len receivings)
                × (length receivings.items ≤ lane_limit)
                × All (λ receiving. 0 < length receiving.nows.items) receivings.items
                × All (λ part. (tx : Side) → tx.frames ≡ []
                → W.can_run work.now part tx) parts.items
                × ((part : S) (tx : Side) (handed : Handed)
                → W.gives work.now part tx handed → handed.all.lane ≡ tx.lane)
                × (log ≡ new_log (length receivings.items)) }
            ensures { Gathers (W.gives work.entry.now) parts.items receivings.items []
                result.ends.items result.log result.sealed result.own result.fault }
        {
            level(
                scope,
                rt,
                alloc,
                capacity,
                work,
                parts,
                receivings,
                Vec::new(alloc),
                log,
            )
        },
    )
}
