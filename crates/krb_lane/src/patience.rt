//! How a sender of a full lane waits: it looks again for a while before it sleeps.

ghost use Rattle.std.specs.Prelude.{◌≡◌, ◌≤◌, true, false, length, MatchResult};
ghost use Rattle.crossbeam_channel.specs.Claims.{view, IsSeatAt};
ghost use Rattle.crossbeam_channel.specs.Ends.{sends_on, ruled_capacity};
ghost use Rattle.krb_lane.specs.Items.{frames_of, has_end, IsNext};
ghost use Rattle.krb_lane.specs.Rule.{puts};
ghost use Rattle.krb_lane.specs.Waiting.{longest_nap, nap_micros};

use crate::item::Item;
use crate::passes::Sends;
use crate::rule::Hand;
use crate::sending::Front;
use crossbeam_channel::{Pass, TrySendError};
use std::sync::Wait;
use std::thread;
use std::thread::Parker;
use std::time::Duration;

/// The most looks of one wait that other threads run between.
const MOST: u32 = 32;

/// The fewest of these looks.
const LEAST: u32 = 8;

/// The microseconds of the shortest nap, nap 0, to which the system adds some 50. Each further one
/// is twice as long.
const FIRST_NAP: u64 = 10;

/// Before this nap, or a longer one, no time is spent on looks.
const LONG: u32 = 3;

/// The longest nap.
const LONGEST: u32 = 9;

/// How a sender that finds its lane full waits before it sleeps until a take wakes it.
///
/// A take that wakes the sender costs the receiver some microseconds. Looking again spares it that,
/// but takes processor time from it if there are more threads than processors. So a sender first
/// looks again and again, and lets other threads run in between; then it naps between its looks, each
/// time for twice as long. A wait that ended without a nap doubles the looks of the next wait, and
/// any other halves them.
///
/// A nap is best if half of the lane is free after it: then few naps serve many frames, and the
/// receiver never finds the lane empty. So the next wait's first nap is twice the last one, unless
/// half of the lane could be filled without a wait, and half of it if more than three quarters
/// could. Nothing of this is shared with the receiver.
#[derive(Clone, Copy)]
pub(crate) struct Patience {
    // How often the next wait looks before its first nap, if that isn't a long one, and which nap
    // that is.
    looks: u32,
    nap: u32,
    // How many items were sent since the last wait, and at how many the next nap gets shorter.
    sent: usize,
    half: usize,
    most: usize,
}

impl Patience {
    /// That of a sender whose lane has room for so many items.
    pub(crate) fn new(capacity: usize) -> Patience {
        Patience {
            looks: MOST,
            nap: 0,
            sent: 0,
            half: (capacity / 2).max(1),
            most: (capacity - capacity / 4).max(1),
        }
    }

    /// How often the next wait looks before its first nap.
    fn looks(&self) -> u32 {
        if self.nap < LONG { self.looks } else { 0 }
    }

    /// How often the lane is looked at in one wait.
    fn turns(&self) -> u32 {
        self.looks()
            .saturating_add(LONGEST.saturating_sub(self.nap))
            .saturating_add(1)
    }

    /// Which nap follows a look that isn't one of the first.
    fn nap_after(&self, look: u32) -> u32 {
        self.nap.saturating_add(look.saturating_sub(self.looks()))
    }

    /// Rests after a look in vain, the first of which is look 0.
    fn rest(&self, rt: &impl Wait, look: u32) {
        if look < self.looks() {
            thread::yield_now();
        } else {
            let micros = micros_of(self.nap_after(look));
            Parker::new().park_timeout(rt, Duration::from_micros(micros));
        }
    }

    /// Learns from a wait that this look ended. There was none if look 0 found room.
    fn learn(&mut self, look: u32) {
        if look > self.looks() {
            self.nap = self.nap_after(look).min(LONGEST + 1);
            self.looks = (self.looks / 2).max(LEAST);
            self.sent = 0;
        } else if look > 0 {
            self.nap = self.nap.saturating_sub(1);
            self.looks = self.looks.saturating_mul(2).min(MOST);
            self.sent = 0;
        }
        self.count();
    }

    /// Counts an item that was sent.
    fn count(&mut self) {
        self.sent = self.sent.saturating_add(1);
        if self.sent == self.half {
            self.nap = self.nap.saturating_sub(1);
        }
        if self.sent == self.most {
            self.nap = self.nap.saturating_sub(1);
        }
    }
}

/// The microseconds of a nap, so that a sender looks again soon.
#[tactic(auto, using(crate::proofs::Naps::capped, crate::proofs::Naps::bounded))]
fn micros_of(nap: u32) -> u64
    ensures value { result ≡ nap_micros nap }
    ensures bounded { result ≤ longest_nap }
{
    FIRST_NAP << nap.min(LONGEST)
}

/// Sends an item, and waits while the lane is full. If the receiving end is gone, nothing is sent
/// and the item comes back.
pub(crate) fn put(
    rt: &impl Wait,
    sender: &Front,
    pass: &mut Pass<Item, Hand>,
    item: Item,
    patience: &mut Patience,
) -> Result<(), Item>
    requires channel { IsSeatAt (sends_on sender.now) pass.old }
    requires sends { (view pass.old).sends ≡ true }
    requires room { ruled_capacity (sends_on sender.now) ≡ (view pass.old).capacity }
    requires unended { has_end (view pass.old).sent ≡ false }
    requires next { IsNext (length (frames_of (view pass.old).sent)) item }
    ensures channel { IsSeatAt (sends_on sender.now) pass.new }
    ensures rule { MatchResult result (λ _. view pass.new ≡ puts (view pass.old) item)
        (λ back. (back ≡ item) × (view pass.new ≡ view pass.old)) }
{
    let mut item = item;
    for look in 0..patience.turns() {
        match sender.try_send_as::<Sends, _>(rt, pass, item) {
            Ok(()) => {
                patience.learn(look);
                return Ok(());
            }
            Err(TrySendError::Full(back)) => item = back,
            Err(error) => return Err(error.into_inner()),
        }
        patience.rest(rt, look);
    }
    patience.learn(patience.turns());
    match sender.send_as::<Sends, _>(rt, pass, item) {
        Ok(()) => Ok(()),
        Err(error) => Err(error.into_inner()),
    }
}
