//! How a lane is made: its two ends over one bounded channel.

ghost use Rattle.std.specs.Prelude.{◌≡◌, ◌<◌, ◌≤◌, [], ◌∷◌, true, false, Some, IfOk};
ghost use Rattle.krb_base.specs.Limits.{capacity_limit};
ghost use Rattle.crossbeam_channel.specs.Claims.{view, IsSeatAt};
ghost use Rattle.crossbeam_channel.specs.Ends.{sends_on, ruled_capacity};
ghost use Rattle.krb_lane.specs.Errors.{words_of_lane_error};
ghost use Rattle.krb_lane.specs.Rule.{hand, uncut};

use crate::item::Item;
use crate::passes::{Halves, Room};
use crate::patience::Patience;
use crate::receiving::LaneRx;
use crate::rule::{Hand, LaneRule};
use crate::sending::{Front, LaneTx};
use crossbeam_channel::{Pass, bounded_with};
use std::alloc::{AllocError, Global};
use std::error::Error;
use std::fmt;
use std::marker::Brand;

/// Why [`lane`] makes no lane.
#[derive(Clone, Copy, Debug, PartialEq, Eq)]
pub enum LaneError {
    /// Out of memory.
    Memory,
}

impl LaneError {
    /// The number of this error: 1.
    pub fn code(&self) -> u32
        ensures { result ≡ 1 }
    {
        match self {
            LaneError::Memory => 1,
        }
    }
}

impl fmt::Display for LaneError {
    ghost output = { λ error. Some (words_of_lane_error error) };

    fn fmt<W: fmt::Write>(&self, f: &mut fmt::Formatter<W>) -> fmt::Result {
        match self {
            LaneError::Memory => write!(f, "out of memory"),
        }
    }
}

impl Error for LaneError {}

impl From<AllocError> for LaneError {
    ghost use Rattle.krb_lane.specs.declared.opening.LaneError.TheVariants.{Memory};

    ghost from_gives = { λ _ e. e ≡ Memory };

    fn from(_: AllocError) -> LaneError {
        LaneError::Memory
    }
}

// Cuts the first pass into the sender's and the receiver's.
fn cut<B: Room>(sender: &Front, pass: &mut Pass<Item, Hand>) -> Pass<Item, Hand>
    requires channel { IsSeatAt (sends_on sender.now) pass.old }
    requires fresh { view pass.old ≡ uncut }
    requires room { B.capacity ≡ ruled_capacity (sends_on sender.now) }
    ensures channel { IsSeatAt (sends_on sender.now) pass.new
        × IsSeatAt (sends_on sender.now) result }
    ensures sends { view pass.new ≡ hand true false (ruled_capacity (sends_on sender.now)) [] [] }
    ensures takes { view result ≡ hand false true (ruled_capacity (sends_on sender.now)) [] [] }
{
    sender.another::<Halves<B>>(pass)
}

/// Makes both ends of an empty lane, which queues at most `capacity` items, End included.
///
/// The capacity is 1 to 64. The call never waits, and fails only if it runs out of memory.
pub fn lane<R>(rt: &R, alloc: Global, capacity: usize) -> Result<(LaneTx, LaneRx), LaneError>
    requires { (0 < capacity) × (capacity ≤ capacity_limit) }
    ensures one { IfOk result (λ ends. ends.0 ≡ ends.1) }
    ensures capacity { IfOk result (λ ends. ends.0.capacity ≡ capacity) }
    ensures frames { IfOk result (λ ends. ends.0.frames ≡ []) }
    ensures ended { IfOk result (λ ends. ends.0.ended ≡ false) }
{
    // Every call of a lane is passed the handle, and this one has no use for it.
    let _ = rt;
    let (sender, receiver, mut pass) = bounded_with::<Item, Hand, LaneRule, Global>(
        alloc, capacity,
    )?;
    let other = cut::<Brand>(&sender, &mut pass);
    let tx = LaneTx {
        sender,
        pass,
        count: 0,
        patience: Patience::new(capacity),
    };
    let rx = LaneRx {
        receiver,
        pass: other,
        count: 0,
        ended: false,
    };
    Ok((tx, rx))
}
