//! A stepped relay: one event of one lane at a time, in any order that the caller chooses.

ghost use Rattle.std.specs.Prelude.{◌≡◌, ◌↔◌, ◌<◌, ◌≤◌, ℕ, length, take, [], ◌∷◌, Some, false, slice_get, All, IfOk, IfErr, OnOk, OnErr};
ghost use Rattle.krb_base.specs.Limits.{lane_limit};
ghost use Rattle.krb_peers.specs.Log.{new_log};
ghost use Rattle.krb_peers.specs.Sending.{source_of, IsSender};
ghost use Rattle.krb_peers.specs.Ends.{lanes_of};
ghost use Rattle.krb_core.specs.Start.{AreBegun, FailsToBegin};
ghost use Rattle.krb_core.specs.Relayed.{HasTurned, GoesOn, KeepsHeadline};
ghost use Rattle.krb_core.specs.Stepped.{lane_of, turned, after, may_move, is_done, TakesFrame, StopsAt};

mod finish;

use crate::begin::begin_lane;
use crate::settled::settle_all;
use crate::track::Track;
use crate::turn::{Did, Turn};
use krb_peers::{Boxed, Log, Receiving, Sending, Sent, StartError};
use krb_seal::Sealer;
use std::alloc::{AllocError, Global};
use std::marker::Model;

/// Senders, each with a lane to its receiver, and one log.
///
/// All frames are sealed when it is made. Each [`Turn`] is one event of one lane.
#[derive(Drop)]
pub struct Stepped {
    alloc: Global,
    tracks: Vec<Track>,
    log: Log,
    sents: Vec<Sent>,
}

impl Model for Stepped {
    ghost use Rattle.krb_core.specs.Stepped.{Relay, IsRelay};

    ghost Value = { Relay };

    ghost view = { λ stepped. record {
      tracks = stepped.tracks.items;
      log = stepped.log;
      sents = stepped.sents.items;
    } };

    ghost invariant = { λ stepped.
        IsRelay stepped.tracks.items stepped.log stepped.sents.items };
}

impl Stepped {
    /// Seals and emits all, lane by lane, and sends nothing yet.
    ///
    /// There are one to eight lanes, with as many receivers as senders, each within its limits. The
    /// first error ends it: out of memory, or the least lane whose plan is bad or whose sealer was
    /// wiped.
    pub fn new<S: Sealer + Boxed>(
        alloc: Global,
        sendings: Vec<Sending<S>>,
        receivings: Vec<Receiving>,
        capacity: usize,
    ) -> Result<Stepped, StartError>
        requires same { length sendings.items ≡ length receivings.items }
        requires some { 1 ≤ length sendings.items }
        requires few { length sendings.items ≤ lane_limit }
        requires senders { All (λ sending. IsSender (source_of S.state sending)) sendings.items }
        requires moments { All (λ receiving. 0 < length receiving.nows.items) receivings.items }
        ensures lanes { IfOk result (λ stepped. AreBegun capacity
            (lanes_of S.state sendings.items receivings.items) stepped.tracks stepped.sents) }
        ensures count { IfOk result (λ stepped.
            length stepped.tracks ≡ length sendings.items) }
        ensures log { IfOk result (λ stepped. stepped.log ≡ new_log (length sendings.items)) }
        ensures turned { IfOk result (HasTurned
            (lanes_of S.state sendings.items receivings.items) capacity []) }
        ensures err { IfErr result (FailsToBegin capacity
            (lanes_of S.state sendings.items receivings.items)) }
    {
        let count = sendings.len();
        let log = Log::new(alloc, count as u32);
        let receivings = settle_all(alloc, receivings)?;
        let mut tracks = Vec::with_capacity(alloc, count)?;
        let mut sents = Vec::with_capacity(alloc, count)?;
        for (sending, receiving) in sendings.into_iter().zip(receivings) {
            let lane = tracks.len() as u32;
            let (track, sent) = begin_lane(alloc, lane, sending, receiving, capacity)?;
            tracks.push(track).map_err(AllocError::from)?;
            sents.push(sent).map_err(AllocError::from)?;
        }
        Ok(Stepped {
            alloc,
            tracks,
            log,
            sents,
        })
    }

    /// One turn: the next event of its lane, which exists.
    ///
    /// A send puts the lane's next frame into the queue, and after the last one the end. A take
    /// gives the first frame of the queue to the lane's receiver and enters the outcome in the log,
    /// or notes the end there. An impossible event changes nothing, and neither does out of memory,
    /// which is the only error: only a take of a frame ends so.
    pub fn step(&mut self, turn: Turn) -> Result<Did, AllocError>
        requires { lane_of turn < length self.old.tracks }
        ensures ok { OnOk result (self.new ≡ turned self.old turn) }
        ensures waits { IfOk result (λ did. (did ≡ Did.Waits) ↔ (may_move self.old turn ≡ false)) }
        ensures err { OnErr result (self.new ≡ self.old) }
        ensures memory { OnErr result (TakesFrame self.old turn) }
        ensures lanes { length self.new.tracks ≡ length self.old.tracks }

        // After any turns, the turn comes next, and the headline holds of each lane.
        ensures turned { OnOk result (GoesOn self.old (turn ∷ []) self.new) }
        ensures headline { KeepsHeadline self.old self.new }
    {
        match turn {
            Turn::Send(lane) => Ok(self.tracks[lane as usize].send()),
            Turn::Take(lane) => {
                let track = &mut self.tracks[lane as usize];
                track.take(self.alloc, lane, &mut self.log)
            }
        }
    }

    /// All turns, one after another.
    ///
    /// It ends when it first runs out of memory, at a take of a frame, with the earlier turns done.
    pub fn run(&mut self, turns: &[Turn]) -> Result<(), AllocError>
        requires { All (λ turn. lane_of turn < length self.old.tracks) turns.now }
        ensures after { (n : ℕ) × (self.new ≡ after self.old (take n turns.now))
            × OnOk result (n ≡ length turns.now)
            × OnErr result (StopsAt self.new turns.now n) }

        // After any turns, these turns come next, and the headline holds of each lane, also if
        // memory ran out.
        ensures turned { (n : ℕ) × GoesOn self.old (take n turns.now) self.new
            × OnOk result (n ≡ length turns.now) }
        ensures headline { KeepsHeadline self.old self.new }
    {
        for turn in turns {
            self.step(*turn)?;
        }
        Ok(())
    }

    /// How many lanes there are.
    pub fn lanes(&self) -> u32
        ensures tracks { result ≡ length self.now.tracks }
        ensures sents { result ≡ length self.now.sents }
        ensures log { result ≡ self.now.log.lanes }
    {
        self.log.lanes()
    }

    /// The outcomes of the frames so far.
    pub fn log(&self) -> &Log
        ensures { result.now ≡ self.now.log }
    {
        &self.log
    }

    /// Whether every lane's end was taken.
    pub fn done(&self) -> bool
        ensures { result ≡ is_done self.now }
    {
        self.tracks.iter().all(|track| track.is_done())
    }

    /// How much the sender of `lane` sealed. The lane exists.
    pub fn sent(&self, lane: u32) -> Sent
        requires { lane < length self.now.tracks }
        ensures { slice_get self.now.sents lane ≡ Some result }
    {
        self.sents[lane as usize]
    }
}
