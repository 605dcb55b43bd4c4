//! What came through the lanes in a round, and waits for the log.

ghost use Rattle.std.specs.Prelude.{[], All, IfOk};
ghost use Rattle.krb_relay.specs.Waiting.{Follows, HasTaken, HaveTaken, IsUnjudged};

use crate::cause::OwnCause;
use krb_base::Bytes;
use krb_lane::LaneRx;
use krb_peers::Delivery;
use krb_seal::Refusal;
use std::alloc::{AllocError, Global};
use std::collections::VecDeque;

/// What follows the frames of a lane that wait for the log.
#[derive(Clone, Copy)]
pub(crate) enum Last {
    /// Nothing: the log has noted its End.
    Nothing,
    /// Its End.
    End,
    /// Frames that weren't taken yet. This is why, if it has no frame in its turn.
    More(OwnCause),
}

/// What came through a lane in a round, and waits for the log.
#[derive(Drop)]
pub(crate) struct Waiting {
    /// How many frames have come through the lane so far.
    pub(crate) came: usize,
    /// The last of these, in order: they aren't in the log.
    pub(crate) frames: VecDeque<Bytes>,
    /// The verdicts on the first of them, and on all unless memory ran out.
    pub(crate) verdicts: VecDeque<Result<Delivery, Refusal>>,
    /// What follows them.
    pub(crate) last: Last,
}

/// That of each lane before the round: nothing waits.
pub(crate) fn none_waiting(alloc: Global, ends: &[LaneRx]) -> Result<Vec<Waiting>, AllocError>
    ensures taken { IfOk result (λ all. HaveTaken ends.now ends.now all.items) }
    ensures unjudged { IfOk result (λ all. All IsUnjudged all.items) }
{
    let mut all = Vec::with_capacity(alloc, ends.len())?;
    for rx in ends {
        let nothing = nothing_of(alloc, rx)?;
        all.push(nothing)?;
    }
    Ok(all)
}

/// Nothing waits of this lane. There is room for a verdict.
fn nothing_of(alloc: Global, rx: &LaneRx) -> Result<Waiting, AllocError>
    ensures taken { IfOk result (HasTaken rx.now rx.now) }
    ensures unjudged { IfOk result IsUnjudged }
{
    Ok(Waiting {
        came: rx.count() as usize,
        frames: VecDeque::new(alloc),
        verdicts: VecDeque::with_capacity(alloc, 1)?,
        last: last_of(rx),
    })
}

/// What follows the frames of a lane that were taken so far.
fn last_of(rx: &LaneRx) -> Last
    ensures { Follows result rx.now rx.now [] }
{
    if rx.ended() {
        Last::Nothing
    } else {
        Last::More(OwnCause::Memory)
    }
}
