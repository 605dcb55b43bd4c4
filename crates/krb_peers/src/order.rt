//! The order of records: one number after another, and nothing after the close.

ghost use Rattle.std.specs.Prelude.{◌≡◌, ◌≢◌, ◌↔◌, ◌⊎◌, ℕ, ◌+◌, ◌≤◌, ◌<◌, List, [], ◌∷◌, ◌++◌, IsTrue, IsFalse, OnOk, OnErr, Some};
ghost use Rattle.krb_base.specs.Limits.{last_number};
ghost use Rattle.krb_peers.specs.Order.{Offer, Answer, offer, answer_to, first_demand, next_demand, code_of, words_of};
ghost use Rattle.krb_peers.specs.Accepted.{HasAnswered};
ghost use Rattle.krb_record.specs.Record.{is_close};

use krb_base::LAST_NUMBER;
use krb_record::Record;
use std::error::Error;
use std::fmt;
use std::marker::Model;

/// The numbers that a receiver demands, one after another, until it has accepted a close.
///
/// Contracts see it as the number demanded next, and whether a close was accepted.
#[derive(Debug, Drop)]
pub struct Order {
    expected: u64,
    closed: bool,
}

impl Model for Order {
    ghost use Rattle.std.specs.Prelude.{◌+◌, ◌≤◌};
    ghost use Rattle.krb_peers.specs.Demand.{Demand};
    ghost use Rattle.krb_base.specs.Limits.{last_number};

    ghost Value = { Demand };

    ghost view = { λ order. record { expected = order.expected; closed = order.closed } };

    ghost invariant = { λ order. order.expected ≤ last_number + 1 };
}

/// Why an [`Order`] refuses a record. The first that applies is returned.
#[derive(Clone, Copy, Debug, PartialEq, Eq)]
pub enum OrderRefusal {
    /// A close was accepted before.
    AfterClose,
    /// The number isn't the demanded one, or is over [`LAST_NUMBER`].
    BadOrder,
}

impl OrderRefusal {
    /// The number of this refusal: 903 or 42.
    pub fn code(&self) -> u32
        ensures { result ≡ code_of self.now }
    {
        match self {
            OrderRefusal::AfterClose => 903,
            OrderRefusal::BadOrder => 42,
        }
    }
}

impl fmt::Display for OrderRefusal {
    ghost output = { λ error. Some (words_of error) };

    fn fmt<W: fmt::Write>(&self, f: &mut fmt::Formatter<W>) -> fmt::Result {
        match self {
            OrderRefusal::AfterClose => write!(f, "a close was accepted before"),
            OrderRefusal::BadOrder => write!(f, "the number isn't the demanded one"),
        }
    }
}

impl Error for OrderRefusal {}

impl Order {
    /// An order that demands `first`, and has accepted nothing.
    pub fn new(first: u32) -> Order
        ensures expected { result.expected ≡ first }
        ensures closed { IsFalse result.closed }
        ensures answered { HasAnswered first [] [] result }
    {
        Order {
            expected: u64::from(first),
            closed: false,
        }
    }

    /// An order that goes on: it demands `expected`, at most one over [`LAST_NUMBER`], or nothing
    /// after a close.
    pub(crate) fn resume(expected: u64, closed: bool) -> Order
        requires { expected ≤ last_number + 1 }
        ensures { result ≡ record { expected = expected; closed = closed } }
    {
        Order { expected, closed }
    }

    /// The number that is demanded next: at most one over [`LAST_NUMBER`], which no message has.
    pub fn expected(&self) -> u64
        ensures number { result ≡ self.now.expected }
        ensures in_range { result ≤ last_number + 1 }
    {
        self.expected
    }

    /// Whether a close was accepted.
    pub fn closed(&self) -> bool
        ensures { result ≡ self.now.closed }
    {
        self.closed
    }

    /// Accepts the record `offered` if `number` is demanded and no close was accepted before.
    ///
    /// The next number is then demanded, and a close is noted. A refusal changes nothing.
    pub fn accept(&mut self, number: u64, offered: &Record) -> Result<(), OrderRefusal>
        ensures answer { result ≡ answer_to self.old (offer number offered.now) }
        ensures after_close { (result ≡ Err OrderRefusal.AfterClose) ↔ IsTrue self.old.closed }
        ensures bad_order { (result ≡ Err OrderRefusal.BadOrder)
            ↔ (IsFalse self.old.closed × ((number ≢ self.old.expected) ⊎ (last_number < number))) }

        ensures next { OnOk result (self.new.expected ≡ self.old.expected + 1) }
        ensures close { OnOk result (self.new.closed ≡ is_close offered.now) }
        ensures err { OnErr result (self.new ≡ self.old) }

        // Whatever an order has answered before, it continues as `Accepted` says.
        ensures answered { (first : ℕ) (offers : List Offer) (answers : List Answer)
            → HasAnswered first offers answers self.old
            → HasAnswered first (offers ++ offer number offered.now ∷ []) (answers ++ result ∷ [])
            self.new }
    {
        if self.closed {
            return Err(OrderRefusal::AfterClose);
        }
        if number != self.expected || number > LAST_NUMBER {
            return Err(OrderRefusal::BadOrder);
        }
        self.advance(matches!(offered, Record::Close));
        Ok(())
    }

    /// Moves on after an accepted record: the next number is demanded, and a close is noted.
    pub(crate) fn advance(&mut self, close: bool)
        requires { self.old.expected ≤ last_number }
        ensures { self.new ≡ next_demand self.old close }
    {
        self.expected += 1;
        self.closed = close;
    }

    /// Refuses each record from now on, as after a close.
    pub(crate) fn shut(&mut self)
        ensures closed { IsTrue self.new.closed }
        ensures expected { self.new.expected ≡ self.old.expected }
    {
        self.closed = true;
    }
}
