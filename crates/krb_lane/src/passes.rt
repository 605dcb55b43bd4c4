//! What each step of the channel does to the view of its pass.

ghost use Rattle.std.specs.Prelude.{ℕ};

use crate::item::Item;
use crate::rule::Hand;
use crossbeam_channel::protocol::{Join, Lesson, Outcome, Split};
use std::marker::{Brand, PhantomData};

// The capacity of a lane, for the proof alone.
pub(crate) trait Room {
    ghost capacity: { ℕ };
}

impl Room for Brand {
    ghost capacity = { 0 };
}

// Cuts the first pass into the sender's and the receiver's.
pub(crate) struct Halves<B> {
    room: PhantomData<B>,
}

impl<B: Room> Split<Hand> for Halves<B> {
    ghost use Rattle.std.specs.Prelude.{true, false, []};
    ghost use Rattle.krb_lane.specs.Rule.{hand};

    ghost left = { λ v. hand true false B.capacity v.sent [] };

    ghost right = { λ v. hand false true B.capacity [] v.got };
}

// Joins the receiver's pass to the sender's.
pub(crate) struct Whole;

impl Join<Hand> for Whole {
    ghost use Rattle.std.specs.Prelude.{true};
    ghost use Rattle.krb_lane.specs.Rule.{hand, spent};

    ghost both = { λ v w. hand true true v.capacity v.sent w.got };

    ghost spent = { spent };
}

// A send appends the item to what its pass has sent.
pub(crate) struct Sends;

impl Outcome<Item, Hand> for Sends {
    ghost use Rattle.std.specs.Prelude.{◌≡◌};
    ghost use Rattle.krb_lane.specs.Rule.{puts};

    ghost then = { λ v x w. w ≡ puts v x };
}

impl Lesson<Item, Hand> for Sends {
    ghost use Rattle.std.specs.Prelude.{⊤};

    ghost fact = { λ v items. ⊤ };
}

// A receive appends the item to what its pass has got.
pub(crate) struct Takes;

impl Outcome<Item, Hand> for Takes {
    ghost use Rattle.std.specs.Prelude.{◌≡◌, length};
    ghost use Rattle.krb_lane.specs.Items.{frames_of, IsNext};
    ghost use Rattle.krb_lane.specs.Rule.{pulls};

    ghost then = { λ v x w. (w ≡ pulls v x) × IsNext (length (frames_of v.got)) x };
}

impl Lesson<Item, Hand> for Takes {
    ghost use Rattle.std.specs.Prelude.{⊤};

    ghost fact = { λ v items. ⊤ };
}

// A joined pass knows the state of its lane.
pub(crate) struct Total;

impl Lesson<Item, Hand> for Total {
    ghost use Rattle.krb_base.specs.Lane.{IsReached};
    ghost use Rattle.krb_lane.specs.Rule.{running};

    ghost fact = { λ v queue. IsReached (running v.capacity v.sent v.got queue) };
}
