//! The receiving end of a lane.

ghost use Rattle.std.specs.Prelude.{◌≡◌, true, length, Some, Ok, IfOk, OnErr};
ghost use Rattle.krb_lane.specs.Errors.{words_of_lost};
ghost use Rattle.krb_lane.specs.Side.{Takes as Taken};

use crate::item::Item;
use crate::passes::Takes;
use crate::rule::{Hand, LaneRule};
use crossbeam_channel::{Pass, RuledReceiver};
use std::alloc::Global;
use std::error::Error;
use std::fmt;
use std::marker::Model;
use std::sync::Wait;

pub(crate) type Back = RuledReceiver<Item, Hand, LaneRule, Global>;

/// Why [`LaneRx::take`] gives no item: the sending end is gone and has sent no End.
#[derive(Clone, Copy, Debug, PartialEq, Eq)]
pub struct Lost;

impl Lost {
    /// The number of this error: 1.
    pub fn code(&self) -> u32
        ensures { result ≡ 1 }
    {
        1
    }
}

impl fmt::Display for Lost {
    ghost output = { λ error. Some (words_of_lost error) };

    fn fmt<W: fmt::Write>(&self, f: &mut fmt::Formatter<W>) -> fmt::Result {
        write!(f, "the sending end is gone, and sent no End")
    }
}

impl Error for Lost {}

/// The receiving end of a lane.
///
/// Contracts see it as its lane, the lane's capacity, the frames that were got so far, and whether
/// End was got.
#[derive(Drop)]
pub struct LaneRx {
    pub(crate) receiver: Back,
    pub(crate) pass: Pass<Item, Hand>,
    pub(crate) count: u64,
    pub(crate) ended: bool,
}

impl Model for LaneRx {
    ghost use Rattle.crossbeam_channel.specs.Ends.{receives_on};
    ghost use Rattle.krb_lane.specs.Side.{Side, got_side, IsReceiver};

    ghost Value = { Side };

    ghost view = { λ r. got_side r.pass };

    ghost invariant = { λ r. IsReceiver (receives_on r.receiver) r.pass r.count r.ended };
}

impl LaneRx {
    /// Takes the first item of the queue. After End it returns End again.
    ///
    /// It waits if and only if nothing is queued, End wasn't taken and the sending end is there. A
    /// frame's index is the number of frames got before.
    pub fn take(&mut self, rt: &impl Wait) -> Result<Item, Lost>
        ensures ok { IfOk result (λ item. Taken self.old self.new item) }
        ensures err { OnErr result (self.new ≡ self.old) }
        ensures again { self.old.ended ≡ true → result ≡ Ok Item.End }
    {
        if self.ended {
            return Ok(Item::End);
        }
        match self.receiver.recv_as::<Takes, _>(rt, &mut self.pass) {
            Ok(Item::Frame { index, bytes }) => {
                self.count += 1;
                Ok(Item::Frame { index, bytes })
            }
            Ok(Item::End) => {
                self.ended = true;
                Ok(Item::End)
            }
            Err(_) => Err(Lost),
        }
    }

    /// How many frames were got. It never waits.
    pub fn count(&self) -> u64
        ensures { result ≡ length self.now.frames }
    {
        self.count
    }

    /// Whether End was got. It never waits.
    pub fn ended(&self) -> bool
        ensures { result ≡ self.now.ended }
    {
        self.ended
    }
}
