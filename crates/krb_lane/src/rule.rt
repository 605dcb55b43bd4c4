//! The rule of a lane, and that each of its steps keeps it.

ghost use Rattle.krb_lane.specs.Steps.{KeepsLane};

use crate::item::Item;
use crossbeam_channel::protocol::Protocol;
use std::collections::LinkedList;

// What a pass may do, and what it has sent and got. No value of it is made.
pub(crate) struct Hand {
    sends: bool,
    takes: bool,
    capacity: u64,
    sent: LinkedList<Item>,
    got: LinkedList<Item>,
}

// The channel's queue and the views of its passes are at each step a state of the lane.
pub(crate) struct LaneRule;

impl Protocol<Item, Hand> for LaneRule {
    ghost use Rattle.krb_lane.specs.Rule.{IsLane, uncut};

    ghost holds = { IsLane };

    ghost first = { uncut };
}

/// The law of the atomic steps: in any state and any schedule, each kind of step of a lane leaves a
/// lane, and is one event of the lane of `krb_base` or none.
///
/// The steps are `make`, `cut`, `send_frame`, `send_end`, `take_frame`, `take_end`, `refused` and
/// `meet`.
pub fn every_step()
    ensures { KeepsLane }
{}
