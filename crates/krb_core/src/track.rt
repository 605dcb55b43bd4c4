//! One lane of a stepped relay: what its sender emits, how far that has come, and its receiver.

ghost use Rattle.std.specs.Prelude.{◌≡◌, ◌↔◌, ◌<◌, length, false, OnOk, OnErr, IfOk};
ghost use Rattle.krb_base.specs.Lane.{Take, has_end, is_possible};
ghost use Rattle.krb_core.specs.Start.{fresh};
ghost use Rattle.krb_core.specs.Track.{next_send, after_send, after_take, log_after, LogsFront, HasFrameFirst};
ghost use Rattle.krb_peers.specs.Logged.{IsShut};

use crate::settled::Settled;
use crate::turn::Did;
use krb_peers::{Log, Wire};
use std::alloc::{AllocError, Global};
use std::marker::Model;

/// A lane whose wire stays where it is: two places say what was sent, and what of it was taken. A frame
/// is made when it is taken.
///
/// After the last frame comes the end, as one more item.
#[derive(Drop)]
pub(crate) struct Track {
    wire: Wire,
    receiving: Settled,
    capacity: usize,
    sent: usize,
    taken: usize,
}

impl Model for Track {
    ghost use Rattle.std.specs.Prelude.{◌<◌, length};
    ghost use Rattle.krb_core.specs.Track.{TrackState};
    ghost use Rattle.krb_core.specs.TrackPlaces.{lane_at, ArePlaces};

    ghost Value = { TrackState };

    ghost view = { λ track. record {
      wire = track.wire;
      lane = lane_at track.capacity track.wire track.sent track.taken;
      receiver = track.receiving.receiver;
      nows = track.receiving.nows.items;
    } };

    ghost invariant = { λ track. ArePlaces track.wire track.sent track.taken
        × (0 < length track.receiving.nows.items) };
}

impl Track {
    /// A lane through which nothing went.
    pub(crate) fn new(wire: Wire, receiving: Settled, capacity: usize) -> Track
        requires { 0 < length receiving.nows.items }
        ensures { result ≡ fresh wire receiving.receiver receiving.nows.items capacity }
    {
        Track {
            wire,
            receiving,
            capacity,
            sent: 0,
            taken: 0,
        }
    }

    /// Puts the next item into the queue, if there is room and the end wasn't sent.
    pub(crate) fn send(&mut self) -> Did
        ensures after { self.new ≡ after_send self.old }
        ensures waits { (result ≡ Did.Waits)
            ↔ (is_possible self.old.lane (next_send self.old) ≡ false) }
    {
        if self.sent <= self.wire.len() && self.sent - self.taken < self.capacity {
            self.sent += 1;
            Did::Moved
        } else {
            Did::Waits
        }
    }

    /// Takes the first item of the queue, if there is one.
    ///
    /// The receiver judges a frame at the timestamp of its place, and the outcome goes to the log.
    /// The end is noted there. Only a frame takes memory. Out of memory changes nothing.
    pub(crate) fn take(
        &mut self,
        alloc: Global,
        lane: u32,
        log: &mut Log,
    ) -> Result<Did, AllocError>
        requires lane { lane < log.old.lanes }
        requires shut { IsShut log.old lane self.old.receiver }
        ensures after { OnOk result (self.new ≡ after_take self.old) }
        ensures log { OnOk result (log.new ≡ log_after log.old lane self.old) }
        ensures logged { OnOk result (LogsFront lane self.old log.old self.new log.new) }
        ensures waits { IfOk result (λ did.
            (did ≡ Did.Waits) ↔ (is_possible self.old.lane Take ≡ false)) }
        ensures memory { OnErr result (HasFrameFirst self.old) }
        ensures unchanged { OnErr result (self.new ≡ self.old) }
        ensures unwritten { OnErr result (log.new ≡ log.old) }
    {
        if self.taken == self.sent {
            return Ok(Did::Waits);
        }
        if self.taken < self.wire.len() {
            let frame = self.wire.emission(alloc, self.taken)?;
            self.receiving
                .take_into(log, alloc, lane, frame.as_slice(), self.taken)?;
        } else {
            log.end(lane);
        }
        self.taken += 1;
        Ok(Did::Moved)
    }

    /// How many frames its sender emits.
    pub(crate) fn frames(&self) -> usize
        ensures { result ≡ length self.now.wire }
    {
        self.wire.len()
    }

    /// Whether the end was taken.
    pub(crate) fn is_done(&self) -> bool
        ensures { result ≡ has_end self.now.lane.got }
    {
        self.taken > self.wire.len()
    }
}
