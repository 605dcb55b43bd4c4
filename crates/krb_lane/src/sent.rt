//! The sending end of a lane after its last item.

ghost use Rattle.std.specs.Prelude.{◌≡◌, length};

use crate::item::Item;
use crate::rule::Hand;
use crate::sending::Front;
use crossbeam_channel::Pass;
use std::marker::Model;

/// The sending end of a lane after its last item.
#[derive(Drop)]
pub struct SentAll {
    pub(crate) sender: Front,
    pub(crate) pass: Pass<Item, Hand>,
    pub(crate) count: u64,
}

impl Model for SentAll {
    ghost use Rattle.crossbeam_channel.specs.Ends.{sends_on};
    ghost use Rattle.krb_lane.specs.Side.{Side, sent_side, IsSender};

    ghost Value = { Side };

    ghost view = { λ t. sent_side t.pass };

    ghost invariant = { λ t. IsSender (sends_on t.sender) t.pass t.count };
}

impl SentAll {
    /// How many frames were sent. It never waits.
    pub fn count(&self) -> u64
        ensures { result ≡ length self.now.frames }
    {
        self.count
    }
}
