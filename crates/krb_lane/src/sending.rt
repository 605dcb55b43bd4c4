//! The sending end of a lane.

ghost use Rattle.std.specs.Prelude.{◌≡◌, ◌<◌, ◌^◌, ◌++◌, [], ◌∷◌, true, false, length};
ghost use Rattle.std.specs.Prelude.{IfOk, IfErr, OnOk, OnErr};

use crate::item::Item;
use crate::patience::{Patience, put};
use crate::rule::{Hand, LaneRule};
use crate::sent::SentAll;
use crossbeam_channel::{Pass, RuledSender};
use krb_base::Bytes;
use std::alloc::Global;
use std::marker::Model;
use std::sync::Wait;

pub(crate) type Front = RuledSender<Item, Hand, LaneRule, Global>;

/// The sending end of a lane, which has not sent End.
///
/// Contracts see an end as its lane, the lane's capacity, the frames that went through the end so
/// far, and whether End did.
#[derive(Drop)]
pub struct LaneTx {
    pub(crate) sender: Front,
    pub(crate) pass: Pass<Item, Hand>,
    pub(crate) count: u64,
    pub(crate) patience: Patience,
}

impl Model for LaneTx {
    ghost use Rattle.crossbeam_channel.specs.Ends.{sends_on};
    ghost use Rattle.krb_lane.specs.Side.{Side, sent_side, IsSender, IsOpen};

    ghost Value = { Side };

    ghost view = { λ t. sent_side t.pass };

    ghost invariant = { λ t. IsSender (sends_on t.sender) t.pass t.count
        × IsOpen (sends_on t.sender) t.pass };
}

impl LaneTx {
    /// Sends a frame. If the receiving end is gone, nothing is sent and the very bytes come back.
    ///
    /// It waits if and only if the lane is full, until a take makes room or the receiving end is
    /// gone. Fewer than 2^63 frames were sent before.
    pub fn send(&mut self, rt: &impl Wait, bytes: Vec<u8>) -> Result<(), Vec<u8>>
        requires { length self.old.frames < 2 ^ 63 }
        ensures ok { OnOk result
            (self.new ≡ record self.old { frames = self.old.frames ++ bytes.items ∷ [] }) }
        ensures err { OnErr result (self.new ≡ self.old) }
        ensures back { IfErr result (λ back. back.items ≡ bytes.items) }
    {
        let item = Item::Frame {
            index: self.count,
            bytes: Bytes::new(bytes),
        };
        match put(rt, &self.sender, &mut self.pass, item, &mut self.patience) {
            Ok(()) => {
                self.count += 1;
                Ok(())
            }
            Err(Item::Frame { index: _, bytes }) => Err(bytes.into_vec()),
            Err(Item::End) => unreachable!(),
        }
    }

    /// Sends End. If the receiving end is gone, nothing is sent and this end comes back.
    ///
    /// It waits if and only if the lane is full, as [`send`](LaneTx::send) does.
    pub fn end(self, rt: &impl Wait) -> Result<SentAll, LaneTx>
        ensures ok { IfOk result (λ sent. sent ≡ record self { ended = true }) }
        ensures err { IfErr result (λ tx. tx ≡ self) }
    {
        let LaneTx {
            sender,
            mut pass,
            count,
            mut patience,
        } = self;
        match put(rt, &sender, &mut pass, Item::End, &mut patience) {
            Ok(()) => Ok(SentAll {
                sender,
                pass,
                count,
            }),
            Err(_) => Err(LaneTx {
                sender,
                pass,
                count,
                patience,
            }),
        }
    }

    /// Sends nothing more, not even End, for an end that [`end`](LaneTx::end) gave back.
    pub fn stop(self) -> SentAll
        ensures same { result ≡ self }
        ensures unended { result.ended ≡ false }
    {
        let LaneTx {
            sender,
            pass,
            count,
            patience: _,
        } = self;
        SentAll {
            sender,
            pass,
            count,
        }
    }

    /// How many frames were sent. It never waits.
    pub fn count(&self) -> u64
        ensures { result ≡ length self.now.frames }
    {
        self.count
    }
}
