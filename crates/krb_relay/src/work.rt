//! A worker in a thread of its own; joining it gives the result of its work.

ghost use Rattle.std.specs.Prelude.{◌≡◌, IfOk};
ghost use Rattle.krb_lane.specs.Side.{Side};
ghost use Rattle.krb_relay.specs.declared.worker.Handed.{Handed};

use crate::cause::NoThread;
use crate::worker::Handed;
use krb_lane::LaneTx;
use std::snapshot::Snapshot;
use std::thread::{Promise, PromisedHandle, Scope};

/// What each worker does with its part and its end of a lane.
pub(crate) trait Work<S> {
    ghost can_run: { Self → S → Side → Type 0 };

    ghost gives: { Self → S → Side → Handed → Type 0 };

    fn run(&self, lane: u32, part: S, tx: LaneTx) -> Handed
        requires { can_run self.now part tx }
        ensures { gives self.now part tx result };
}

/// The promise that a worker returns the result of its work.
#[derive(Drop)]
pub(crate) struct Kept<S, W> {
    pub(crate) work: Snapshot<W>,
    pub(crate) part: Snapshot<S>,
    pub(crate) tx: Snapshot<LaneTx>,
}

impl<S, W: Work<S>> Promise<Handed> for Kept<S, W> {
    ghost kept_by = { λ kept handed. W.gives kept.work.value kept.part.value kept.tx.value handed };
}

pub(crate) type Worker<S, W> = PromisedHandle<Handed, Kept<S, W>>;

/// Starts a worker. If no thread can be made, its part and its end of the lane are dropped.
pub(crate) fn start<'s, 'e, S: Send + Drop + 's, W: Work<S> + Sync>(
    scope: &Scope<'s, &'e ()>,
    work: &'e W,
    lane: u32,
    part: S,
    tx: LaneTx,
) -> Result<Worker<S, W>, NoThread>
    requires { W.can_run work.now part tx }
    ensures work { IfOk result (λ worker. worker.promise.work.value ≡ work.now) }
    ensures part { IfOk result (λ worker. worker.promise.part.value ≡ part) }
    ensures tx { IfOk result (λ worker. worker.promise.tx.value ≡ tx) }
{
    let kept = Kept {
        work: Snapshot::of(work),
        part: Snapshot::of(&part),
        tx: Snapshot::of(&tx),
    };
    let started = scope.spawn_with(
        kept,
        move || -> Handed
            requires { W.can_run work.now part tx }
            ensures { W.gives work.entry.now part tx result }
        { work.run(lane, part, tx) },
    );
    match started {
        Ok(worker) => Ok(worker),
        Err(_) => Err(NoThread),
    }
}
