//! One session's end at a receiver.

ghost use Rattle.std.specs.Prelude.{◌≡◌, ◌+◌, ◌^◌, ◌<◌};
ghost use Rattle.krb_engine.specs.Receiving.{after_frame, dropped, has_row, outcome, owes, stored, took};
ghost use Rattle.krb_engine.specs.Calls.{AnswersReceipt};

use crate::{Asks, Pause};
use krb_carry::{Receipt, with_frame};

/// For how many milliseconds after a receipt no other one leaves.
const RECEIPT: u64 = 200;

/// What a frame under a session's name is taken for.
#[derive(Clone, Copy, Debug, PartialEq, Eq)]
pub enum Outcome {
    /// It was accepted.
    Accepted,
    /// It took its effect before, or comes after the close.
    Repeat,
    /// It comes before its turn, and has to come again after the frame that is demanded.
    Early,
    /// It is no frame of the session: it doesn't open under its key.
    Unknown,
    /// It is the demanded one, and the reason may be this receiver's own: its clock, the skew, addresses, the mode.
    Unsettled,
}

/// What a store has of a session.
#[derive(Clone, Copy, Debug, PartialEq, Eq)]
pub struct Row {
    /// The number that is demanded, and the digest of all that took effect below it.
    pub demanded: Receipt,
    /// Whether the close took effect.
    pub closed: bool,
}

/// What is known of a frame under the session's name.
#[derive(Clone, Copy, Debug, PartialEq, Eq)]
pub struct Seen {
    /// It opens at the demanded number, and passes each check.
    pub accepted: bool,
    /// It is the close.
    pub is_close: bool,
    /// If it wasn't accepted: the number at which it opens if nothing is demanded of its number, time
    /// and addresses.
    pub opened: Option<u64>,
}

/// One session's end at a receiver: what is stored of it, what the transaction under way would store, and
/// which receipt is owed.
#[derive(Clone, Copy, Debug)]
pub struct Receiving {
    /// What is stored.
    pub stored: Row,
    /// What will be, once the transaction under way took effect.
    pub drafted: Row,
    /// Whether frames were taken for a transaction that is under way.
    pub is_open: bool,
    /// What the receipt asks for that is owed, if one is.
    pub owed: Option<Asks>,
    /// Since the last receipt.
    pub paid: Pause,
}

impl Receiving {
    /// The end of a session of which the store has this row.
    pub fn load(row: Row, now: u64) -> Receiving
        ensures { result ≡ has_row row now }
    {
        Receiving {
            stored: row,
            drafted: row,
            is_open: false,
            owed: None,
            paid: Pause::begin(0, now),
        }
    }

    /// A frame under the session's name is taken: what for. If it is accepted, its texts take effect with
    /// the transaction.
    pub fn take(&mut self, frame: &[u8], seen: Seen) -> Outcome
        requires { self.old.drafted.demanded.number + 1 < 2 ^ 64 }
        ensures outcome { result ≡ outcome self.old.drafted seen }
        ensures state { self.new ≡ took self.old frame.now seen }
    {
        let outcome = taken_for(&self.drafted, seen);
        self.is_open = true;
        self.owed = owes(self.owed, outcome);
        if outcome == Outcome::Accepted {
            self.drafted = after_frame(&self.drafted, frame, seen.is_close);
        }
        outcome
    }

    /// The transaction took effect.
    pub fn stored(&mut self)
        ensures { self.new ≡ stored self.old }
    {
        self.stored = self.drafted;
        self.is_open = false;
    }

    /// The transaction had no effect: what it took will be read again.
    pub fn dropped(&mut self)
        ensures { self.new ≡ dropped self.old }
    {
        self.drafted = self.stored;
        self.is_open = false;
        self.owed = None;
    }

    /// The receipt that leaves now, of what is stored, and what it asks for. None leaves while a
    /// transaction is under way, or soon after another one.
    pub fn receipt(&mut self, now: u64) -> Option<(Receipt, Asks)>
        ensures { AnswersReceipt self.old now result self.new }
    {
        if self.is_open || !self.paid.is_over(now) {
            return None;
        }
        let asks = self.owed?;
        self.owed = None;
        self.paid = Pause::begin(RECEIPT, now);
        Some((self.stored.demanded, asks))
    }
}

/// What a frame is taken for: what doesn't open is nobody's.
fn taken_for(row: &Row, seen: Seen) -> Outcome
    ensures { result ≡ outcome row.now seen }
{
    if row.closed {
        return Outcome::Repeat;
    }
    if seen.accepted {
        return Outcome::Accepted;
    }
    match seen.opened {
        None => Outcome::Unknown,
        Some(number) if number < row.demanded.number => Outcome::Repeat,
        Some(number) if number > row.demanded.number => Outcome::Early,
        Some(_) => Outcome::Unsettled,
    }
}

/// What is stored after one frame more took effect.
fn after_frame(row: &Row, frame: &[u8], is_close: bool) -> Row
    requires { row.now.demanded.number + 1 < 2 ^ 64 }
    ensures { result ≡ after_frame row.now frame.now is_close }
{
    Row {
        demanded: Receipt {
            number: row.demanded.number + 1,
            history: with_frame(&row.demanded.history, frame),
        },
        closed: is_close,
    }
}

/// What the owed receipt asks for after one frame more. A refusal stays until something is accepted.
fn owes(owed: Option<Asks>, outcome: Outcome) -> Option<Asks>
    ensures { result ≡ owes owed outcome }
{
    match outcome {
        Outcome::Accepted => Some(Asks::Nothing),
        Outcome::Repeat => Some(owed.unwrap_or(Asks::Nothing)),
        Outcome::Early if owed == Some(Asks::Refused) => owed,
        Outcome::Early => Some(Asks::Missing),
        Outcome::Unsettled => Some(Asks::Refused),
        Outcome::Unknown => owed,
    }
}
