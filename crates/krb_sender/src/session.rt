//! A session of a sender.

ghost use Rattle.std.specs.Prelude.{◌≡◌, ◌↔◌, ◌+◌, ◌<◌, ◌≤◌, ◌^◌, true, false, IsTrue, if◌then◌else◌};
ghost use Rattle.krb_carry.specs.Progress.{Counts};
ghost use Rattle.krb_engine.specs.Sending as engine;
ghost use Rattle.krb_sender.specs.Session.{IsPaced, Receives, Serves, compared, heard_list, heard_of, is_held, is_idle, is_moved, is_over, loaded, released, stopped, weight, with_end};

use krb_carry::{HISTORY_SIZE, Receipt};
use krb_engine::{Asks, Command, Sending};
use std::marker::Model;

/// What the outbox has of a session.
#[derive(Clone, Copy, Debug)]
pub struct Row {
    /// The frames below this number are stored.
    pub next: u64,
    /// The frames below this number count as carried.
    pub carried: u64,
    /// The offset of the last frame that counts as carried.
    pub at: u64,
    /// The frames below this number took effect.
    pub done: u64,
    /// The list of the shard for which frames count as carried.
    pub list: u64,
}

/// The digest of this outbox's own frames below a receipt's number.
#[derive(Clone, Copy, Debug, PartialEq, Eq)]
pub enum Own {
    /// It is this.
    Known([u8; HISTORY_SIZE]),
    /// They were sealed by a version that kept none.
    Unknown,
    /// It can't be read now.
    Fault,
}

/// What a session finds by a receipt.
#[derive(Clone, Copy, Debug, PartialEq, Eq)]
pub enum Heard {
    /// Nothing new.
    Nothing,
    /// All frames below its number took effect: they may be deleted.
    Delivered,
    /// The session is stopped.
    Ended,
    /// Nothing yet: it is to be heard again.
    Again,
}

/// What is to be done of a session.
#[derive(Clone, Copy, Debug, PartialEq, Eq)]
pub enum Turn {
    /// What its end says.
    Does(Command),
    /// Nothing: its opening leaves once it is released.
    Held,
}

/// A session of a sender: its end, whether it begins by an opening, and whether it is stopped.
#[derive(Debug, Drop)]
pub struct Session {
    end: Sending,
    opens: bool,
    may_open: bool,
    is_stopped: bool,
}

impl Model for Session {
    ghost use Rattle.krb_sender.specs.Session.{IsPaced};
    ghost use Rattle.krb_sender.specs.SessionState.{SessionState};

    ghost Value = { SessionState };

    ghost view = { λ it. record { end = it.end; opens = it.opens; may_open = it.may_open; is_stopped = it.is_stopped } };

    ghost invariant = { λ it. IsPaced it.end };
}

impl Session {
    /// A session of which the outbox has this. The first frame of one that `opens` is its opening, which leaves only
    /// after a release.
    pub fn load(row: &Row, opens: bool, now: u64) -> Session
        requires done { row.now.done ≤ row.now.carried }
        requires carried { row.now.carried ≤ row.now.next }
        ensures state { result ≡ loaded row.now opens now }
        ensures room { weight result ≡ 0 }
    {
        Session {
            end: Sending::load(row.next, row.carried, row.at, row.done, row.list, now),
            opens,
            may_open: false,
            is_stopped: false,
        }
    }

    // ---- what happens

    /// So many frames more are stored, if there are numbers for them.
    pub fn sealed(&mut self, count: u64) -> bool
        ensures fits { IsTrue result ↔ (self.old.end.progress.next + count < 2 ^ 64) }
        ensures state { self.new ≡ with_end self.old (if result then engine.sealed self.old.end count else self.old.end) }
        ensures room { weight self.new ≤ weight self.old }
    {
        if count > u64::MAX - self.end.progress().next() {
            return false;
        }
        self.end.sealed(count);
        true
    }

    /// A copy of the frame of this number stands at this offset of the shard's list: whether it counts.
    pub fn confirmed(&mut self, number: u64, offset: u64, now: u64) -> bool
        ensures counts { IsTrue result ↔ Counts self.old.end.progress number offset }
        ensures state { self.new ≡ with_end self.old (if result then engine.confirmed self.old.end offset now else self.old.end) }
        ensures room { weight self.new ≤ weight self.old }
    {
        self.end.confirmed(number, offset, now)
    }

    /// The shard has this list: whether the session counted for a different one. One that is over doesn't hear of it.
    pub fn listed(&mut self, list: u64) -> bool
        ensures moved { result ≡ is_moved self.old list }
        ensures state { self.new ≡ heard_list self.old list }
        ensures room { weight self.new ≤ weight self.old }
    {
        if self.is_over() {
            return false;
        }
        self.end.listed(list)
    }

    /// A receiver says what took effect, and what it asks for.
    pub fn receipt(&mut self, receipt: &Receipt, own: Own, asks: Asks, now: u64) -> Heard
        ensures does { Receives self.old receipt.now own asks now result self.new }
        ensures room { weight self.new ≤ weight self.old }
    {
        if self.is_over() {
            return Heard::Nothing;
        }
        let is_compared = self.end.done() < receipt.number
            && receipt.number <= self.end.progress().next();
        if is_compared && own == Own::Fault {
            return Heard::Again;
        }
        let own = compared(own, receipt);
        heard_of(self.end.receipt(receipt, &own, asks, now))
    }

    /// Nothing of it leaves any more.
    pub fn stop(&mut self)
        ensures state { self.new ≡ stopped self.old }
        ensures room { weight self.new ≤ weight self.old }
    {
        self.end.reconnected();
        self.is_stopped = true;
    }

    /// Its opening may leave in its next turn.
    pub fn release(&mut self)
        ensures state { self.new ≡ released self.old }
        ensures room { weight self.new ≤ weight self.old }
    {
        self.may_open = true;
    }

    // ---- what is to be done

    /// What is to be done next, where the shard has room for so many frames more.
    pub fn serve(&mut self, room: u64, now: u64) -> Turn
        ensures does { Serves self.old room now result self.new }
        ensures room { weight self.new ≤ weight self.old + room }
        ensures order { self.old.end.progress.carried ≤ self.old.end.progress.sent }
        ensures paced { IsPaced self.new.end }
    {
        let _ = self.end.is_settled();
        if self.is_over() {
            return Turn::Does(Command::Idle);
        }
        if self.is_held() {
            return Turn::Held;
        }
        self.may_open = false;
        Turn::Does(self.end.serve(room, now))
    }

    // ---- what it is

    /// Whether nothing of it leaves any more: it is stopped, or a receipt ended it.
    pub fn is_over(&self) -> bool
        ensures { result ≡ is_over self.now }
    {
        self.is_stopped || self.end.ended().is_some()
    }

    /// Whether its opening is the next that would leave, and wasn't released.
    pub fn is_held(&self) -> bool
        ensures { result ≡ is_held self.now }
    {
        self.opens && !self.may_open && self.end.progress().sent() == 0
    }

    /// Whether there is nothing to do: it is over, or all is done.
    pub fn is_idle(&self) -> bool
        ensures idle { result ≡ is_idle self.now }
        ensures room { is_idle self.now ≡ true → weight self.now ≡ 0 }
    {
        self.end.is_settled() || self.is_stopped
    }

    /// How many of its frames are under way: none, once it is over.
    pub fn weight(&self) -> u64
        ensures { result ≡ weight self.now }
    {
        if self.is_over() {
            return 0;
        }
        self.end.under_way()
    }

    /// Its end.
    pub fn end(&self) -> &Sending
        ensures { result.now ≡ self.now.end }
    {
        &self.end
    }
}

/// The digest with which a receipt is compared: where there is none of its own frames, the receipt's.
fn compared(own: Own, receipt: &Receipt) -> [u8; HISTORY_SIZE]
    ensures { result ≡ compared own receipt.now.history }
{
    match own {
        Own::Known(history) => history,
        Own::Unknown | Own::Fault => receipt.history,
    }
}

/// What a session hears of its end.
fn heard_of(heard: krb_engine::Heard) -> Heard
    ensures { result ≡ heard_of heard }
{
    match heard {
        krb_engine::Heard::Nothing => Heard::Nothing,
        krb_engine::Heard::Delivered => Heard::Delivered,
        krb_engine::Heard::Ended => Heard::Ended,
    }
}
