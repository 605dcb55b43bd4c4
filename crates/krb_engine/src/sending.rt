//! One session's end at a sender.

ghost use Rattle.std.specs.Prelude.{◌≡◌, ◌↔◌, ◌+◌, ◌-◌, ◌<◌, ◌≤◌, ◌^◌, IfSome, IsSome, IsTrue, if◌then◌else◌, ◌≢◌};
ghost use Rattle.krb_carry.specs.Progress.{Counts};
ghost use Rattle.krb_carry.specs.Receipt.{Finds};
ghost use Rattle.krb_engine.specs.Sending.{ask_end, batch, begins, confirmed, found, heard_of, heeded, is_asked, is_free, is_refused, is_settled, is_unanswered, listed, loaded, looked, may_ask, next_ask, probed, published, reconnected, recovery_room, sealed, sealing_room, settled, stands, stopped, wake_time, wider};
ghost use Rattle.krb_engine.specs.Parts.{end_of_parts};
ghost use Rattle.krb_engine.specs.SendingState.{IsEnd};
ghost use Rattle.krb_engine.specs.Calls.{Hears, IsProbe, Serves};

use crate::{Pause, SendingParts};
use krb_carry::{Finding, HISTORY_SIZE, Progress, Receipt, compare_receipt};
use std::marker::Model;

/// How many frames of a session are under way, at first and at most.
const WINDOW: u64 = 16;

const WINDOW_MOST: u64 = 256;

/// How many frames leave in one service at most.
const SERVICE: u64 = 16;

/// After how many milliseconds a frame is published again that wasn't confirmed, at first and at most.
const AGAIN: u64 = 2_000;

const AGAIN_MOST: u64 = 64_000;

/// After how many milliseconds a carried frame without a receipt is probed, at first and at most.
const PROBE: u64 = 5_000;

const PROBE_MOST: u64 = 960_000;

/// After how many milliseconds a session asks again for room in its shard.
const ROOM: u64 = 2_000;

/// For how many milliseconds a receiver that asks again isn't heeded, at first and at most.
const ASK: u64 = 4_000;

const ASK_MOST: u64 = 64_000;

/// What a receiver asks for with a receipt.
#[derive(Clone, Copy, Debug, PartialEq, Eq)]
pub enum Asks {
    /// Nothing.
    Nothing,
    /// A later frame came: the one that is demanded is missing.
    Missing,
    /// The frame that is demanded came, and was refused for a reason that may pass.
    Refused,
}

/// Why a session is stopped.
#[derive(Clone, Copy, Debug, PartialEq, Eq)]
pub enum Ended {
    /// More took effect than this outbox has sealed: it is an older copy.
    Older,
    /// Other frames took effect than those of this outbox.
    Forked,
}

/// What a sender finds by a receipt.
#[derive(Clone, Copy, Debug, PartialEq, Eq)]
pub enum Heard {
    /// Nothing new.
    Nothing,
    /// All frames below its number took effect: they may be deleted.
    Delivered,
    /// The session is stopped.
    Ended,
}

/// Why a session stands, for whoever looks after it.
#[derive(Clone, Copy, Debug, PartialEq, Eq)]
pub enum Stands {
    /// It is stopped.
    Stopped(Ended),
    /// Receivers refuse the first frame that isn't done.
    Refused,
    /// Two probes weren't answered.
    Unanswered,
    /// What was published wasn't confirmed in time.
    Unconfirmed,
}

/// What is to be done.
#[derive(Clone, Copy, Debug, PartialEq, Eq)]
pub enum Command {
    /// So many frames leave, in order, from this number on.
    Publish { from: u64, count: u64 },
    /// The frame of this number leaves again, alone; with the session's opening before it, if it says so.
    Probe { number: u64, opening: bool },
    /// Nothing before this time.
    Wake { at: u64 },
    /// Nothing until something happens.
    Idle,
}

/// One session's end at a sender: how far its frames are carried, and below which number they took effect.
///
/// The caller has the frames, in an outbox. Times are milliseconds of a clock that is never set.
#[derive(Debug, Drop)]
pub struct Sending {
    progress: Progress,
    // the frames below this number took effect
    done: u64,
    // the list of the shard for which `progress` counts
    list: u64,
    // so many frames may be under way; until `done` reaches `recovers`, so many from `done` on may leave
    recovers: u64,
    window: u64,
    // since a receiver was heeded that asked again
    ask: Option<Pause>,
    // nothing leaves until that pause is over
    is_held: bool,
    // since something was published or confirmed
    again: Pause,
    // since a receipt was due
    probe: Pause,
    // whether a receipt came
    is_answered: bool,
    ended: Option<Ended>,
}

impl Model for Sending {
    ghost use Rattle.std.specs.Prelude.{◌<◌, ◌≤◌};
    ghost use Rattle.krb_engine.specs.SendingState.{SendingState};

    ghost Value = { SendingState };

    ghost view = { λ sending. record { progress = sending.progress; done = sending.done; list = sending.list; recovers = sending.recovers; window = sending.window; ask = sending.ask; is_held = sending.is_held; again = sending.again; probe = sending.probe; is_answered = sending.is_answered; ended = sending.ended } };

    ghost invariant = { λ sending. (sending.done ≤ sending.progress.carried) × (sending.progress.carried ≤ sending.progress.sent) × (sending.progress.sent ≤ sending.progress.next) × (0 < sending.window) };
}

impl Sending {
    /// The end of a session of which so much was stored: all that wasn't carried counts as not
    /// published. It counts for this list of the shard.
    pub fn load(next: u64, carried: u64, at: u64, done: u64, list: u64, now: u64) -> Sending
        requires done { done ≤ carried }
        requires carried { carried ≤ next }
        ensures { result ≡ loaded next carried at done list now }
    {
        Sending {
            progress: Progress::new(next, carried, at),
            done,
            list,
            recovers: done,
            window: WINDOW,
            ask: None,
            is_held: false,
            again: Pause::begin(AGAIN, now),
            probe: Pause::begin(PROBE, now),
            is_answered: false,
            ended: None,
        }
    }

    /// The end that has these parts, if there is one: what took effect counts as carried, what is carried as
    /// published, and only stored frames are published.
    pub fn restore(parts: &SendingParts) -> Option<Sending>
        ensures variant { IsSome result ↔ IsEnd (end_of_parts parts.now) }
        ensures value { IfSome result (λ sending. sending ≡ end_of_parts parts.now) }
    {
        if parts.done > parts.carried || parts.window == 0 {
            return None;
        }
        Some(Sending {
            progress: Progress::restore(parts.next, parts.carried, parts.at, parts.sent)?,
            done: parts.done,
            list: parts.list,
            recovers: parts.recovers,
            window: parts.window,
            ask: parts.ask,
            is_held: parts.is_held,
            again: parts.again,
            probe: parts.probe,
            is_answered: parts.is_answered,
            ended: parts.ended,
        })
    }

    /// All that it is.
    pub fn parts(&self) -> SendingParts
        ensures value { end_of_parts result ≡ self.now }
        ensures end { IsEnd self.now }
    {
        SendingParts {
            next: self.progress.next(),
            carried: self.progress.carried(),
            at: self.progress.at(),
            sent: self.progress.sent(),
            done: self.done,
            list: self.list,
            recovers: self.recovers,
            window: self.window,
            ask: self.ask,
            is_held: self.is_held,
            again: self.again,
            probe: self.probe,
            is_answered: self.is_answered,
            ended: self.ended,
        }
    }

    /// So many frames more are sealed and stored.
    pub fn sealed(&mut self, count: u64)
        requires { self.old.progress.next + count < 2 ^ 64 }
        ensures { self.new ≡ sealed self.old count }
    {
        self.progress.store(count);
    }

    /// A copy of the frame of this number stands at this offset of the list: whether it counts.
    pub fn confirmed(&mut self, number: u64, offset: u64, now: u64) -> bool
        ensures counts { IsTrue result ↔ Counts self.old.progress number offset }
        ensures state { self.new ≡ (if result then confirmed self.old offset now else self.old) }
    {
        let is_first = self.progress.carried() == self.done;
        if !self.progress.confirm(number, offset) {
            return false;
        }
        self.again = Pause::begin(AGAIN, now);
        self.window = self.wider();
        if is_first {
            self.probe = Pause::begin(PROBE, now);
        }
        true
    }

    /// How many frames may be under way after a confirmation: one more, as long as it doesn't recover.
    fn wider(&self) -> u64
        ensures { result ≡ wider self.now }
    {
        if self.done < self.recovers {
            return self.window;
        }
        self.window.saturating_add(1).min(WINDOW_MOST)
    }

    /// The shard has this list: whether it had a different one. Then what that one confirmed may be
    /// lost, and all that isn't done leaves again.
    pub fn listed(&mut self, list: u64) -> bool
        ensures other { IsTrue result ↔ (list ≢ self.old.list) }
        ensures state { self.new ≡ listed self.old list }
    {
        if list == self.list {
            return false;
        }
        self.begin_again();
        self.list = list;
        true
    }

    /// The connection is a new one: what wasn't confirmed may be lost.
    pub fn reconnected(&mut self)
        ensures { self.new ≡ reconnected self.old }
    {
        self.progress.rewind();
    }

    /// All that isn't done leaves again.
    fn begin_again(&mut self)
        ensures { self.new ≡ begins self.old }
    {
        self.progress = Progress::new(self.progress.next(), self.done, 0);
    }

    // ---- receipts

    /// A receiver says what took effect, and what it asks for. `own` is the digest of this sender's own
    /// frames below the receipt's number, which the caller has beside them. If the receipt's number is
    /// above the next one, or isn't above `done`, `own` isn't read.
    pub fn receipt(
        &mut self,
        receipt: &Receipt,
        own: &[u8; HISTORY_SIZE],
        asks: Asks,
        now: u64,
    ) -> Heard
        ensures { Hears self.old own.now receipt.now asks now result self.new }
    {
        if self.ended.is_some() {
            return Heard::Nothing;
        }
        let finding = self.find(receipt, own, now);
        self.heed(receipt.number, asks, now);
        heard_of(finding)
    }

    /// Compares a receipt with this sender's own frames, and does what follows.
    fn find(&mut self, receipt: &Receipt, own: &[u8; HISTORY_SIZE], now: u64) -> Finding
        ensures finding { Finds self.old.done self.old.progress.next own.now receipt.now result }
        ensures state { self.new ≡ found self.old receipt.now.number now result }
    {
        let finding = compare_receipt(self.done, self.progress.next(), own, receipt);
        match finding {
            Finding::Repeat => {}
            Finding::Delivered => self.settle(receipt.number, now),
            Finding::Older => self.stop(Ended::Older),
            Finding::Forked => self.stop(Ended::Forked),
        }
        finding
    }

    /// It is stopped, and gives up what is under way.
    fn stop(&mut self, why: Ended)
        ensures { self.new ≡ stopped self.old why }
    {
        self.progress.rewind();
        self.ended = Some(why);
    }

    /// All frames below this number took effect.
    fn settle(&mut self, number: u64, now: u64)
        requires new { self.old.done < number }
        requires own { number ≤ self.old.progress.next }
        ensures { self.new ≡ settled self.old number now }
    {
        if number > self.progress.carried() {
            self.progress = Progress::new(self.progress.next(), number, 0);
        }
        self.done = number;
        self.window = self.window.saturating_mul(2).min(WINDOW_MOST);
        self.ask = None;
        self.is_held = false;
        self.probe = Pause::begin(PROBE, now);
        self.is_answered = true;
    }

    /// A receiver that demands this number asks for it again, or not. A refusal is noted, also where it isn't heeded now.
    fn heed(&mut self, number: u64, asks: Asks, now: u64)
        ensures { self.new ≡ heeded self.old number asks now }
    {
        if !self.is_asked(number, asks, now) {
            if self.is_refused(number, asks) {
                self.is_held = true;
            }
            return;
        }
        self.recovers = self.recovers.max(self.progress.carried());
        self.window = 1;
        self.ask = Some(next_ask(self.ask, now));
        self.is_held = asks == Asks::Refused;
        self.begin_again();
    }

    /// Whether it asks for the first frame that isn't done, and is heeded.
    fn is_asked(&self, number: u64, asks: Asks, now: u64) -> bool
        ensures { result ≡ is_asked self.now number asks now }
    {
        asks != Asks::Nothing
            && number == self.done
            && self.done < self.progress.carried()
            && self.ended.is_none()
            && may_ask(self.ask, now)
    }

    /// Whether it refuses the first frame that isn't done.
    fn is_refused(&self, number: u64, asks: Asks) -> bool
        ensures { result ≡ is_refused self.now number asks }
    {
        asks == Asks::Refused
            && number == self.done
            && self.done < self.progress.next()
            && self.ended.is_none()
    }

    // ---- what is to be done

    /// What is to be done next, where the shard has room for so many frames more. What wasn't confirmed
    /// in time counts as not published.
    pub fn serve(&mut self, room: u64, now: u64) -> Command
        ensures { Serves (looked self.old now) room now result self.new }
    {
        self.look(now);
        self.command(room, now)
    }

    /// What wasn't confirmed in time counts as not published, and few frames may be under way again.
    fn look(&mut self, now: u64)
        ensures { self.new ≡ looked self.old now }
    {
        if self.progress.carried() < self.progress.sent() && self.again.is_over(now) {
            self.progress.rewind();
            self.window = self.window.min(WINDOW);
            self.again.grow(AGAIN_MOST, now);
        }
    }

    fn command(&mut self, room: u64, now: u64) -> Command
        ensures { Serves self.old room now result self.new }
    {
        if self.is_settled() {
            return Command::Idle;
        }
        let count = self.batch(room);
        if count > 0 && self.is_free(now) {
            let from = self.progress.sent();
            self.publish(count, now);
            return Command::Publish { from, count };
        }
        if self.is_unanswered(now) {
            return self.probe(now);
        }
        Command::Wake {
            at: self.wake_time(count, room, now),
        }
    }

    /// Whether all is done, or it is stopped.
    pub fn is_settled(&self) -> bool
        ensures settled { result ≡ is_settled self.now }
        ensures end { IsEnd self.now }
    {
        self.ended.is_some() || self.done == self.progress.next()
    }

    /// How many frames may leave now.
    fn batch(&self, room: u64) -> u64
        ensures { result ≡ batch self.now room }
    {
        let stored = self.progress.next() - self.progress.sent();
        let under_way = self.progress.sent() - self.progress.carried();
        let free = self.window.min(WINDOW_MOST).saturating_sub(under_way);
        SERVICE
            .min(room)
            .min(stored.min(free.min(self.recovery_room())))
    }

    /// How many frames from `done` on may leave: all, unless it recovers.
    fn recovery_room(&self) -> u64
        ensures { result ≡ recovery_room self.now }
    {
        if self.done >= self.recovers {
            return SERVICE;
        }
        self.window.saturating_sub(self.progress.sent() - self.done)
    }

    /// Whether no refusal holds it back.
    fn is_free(&self, now: u64) -> bool
        ensures { result ≡ is_free self.now now }
    {
        !self.is_held || may_ask(self.ask, now)
    }

    /// So many frames leave; if none was under way, their time begins.
    fn publish(&mut self, count: u64, now: u64)
        requires { self.old.progress.sent + count ≤ self.old.progress.next }
        ensures { self.new ≡ published self.old count now }
    {
        if self.progress.sent() == self.progress.carried() {
            self.again.since = now;
        }
        self.progress.publish(count);
    }

    /// Whether a receipt is due, and didn't come in time.
    fn is_unanswered(&self, now: u64) -> bool
        ensures { result ≡ is_unanswered self.now now }
    {
        self.done < self.progress.carried() && self.probe.is_over(now)
    }

    /// The last carried frame leaves again, alone.
    fn probe(&mut self, now: u64) -> Command
        requires { self.old.done < self.old.progress.carried }
        ensures command { IsProbe self.old result }
        ensures state { self.new ≡ probed self.old now }
    {
        let opening = !self.is_answered || self.probe.length >= 4 * PROBE;
        self.probe.grow(PROBE_MOST, now);
        Command::Probe {
            number: self.progress.carried() - 1,
            opening,
        }
    }

    /// When the next thing is due, where so many frames wait to leave, and the shard has so much room.
    fn wake_time(&self, count: u64, room: u64, now: u64) -> u64
        ensures { result ≡ wake_time self.now count room now }
    {
        let mut at = u64::MAX;
        if room == 0 {
            at = Pause::begin(ROOM, now).end();
        }
        if count > 0 {
            at = at.min(ask_end(self.ask));
        }
        if self.progress.carried() < self.progress.sent() {
            at = at.min(self.again.end());
        }
        if self.done < self.progress.carried() {
            at = at.min(self.probe.end());
        }
        at
    }

    // ---- what it is

    /// The frames below this number took effect, and may be deleted.
    pub fn done(&self) -> u64
        ensures { result ≡ self.now.done }
    {
        self.done
    }

    /// How far its frames are carried, for the list of the shard that it has.
    pub fn progress(&self) -> &Progress
        ensures { result.now ≡ self.now.progress }
    {
        &self.progress
    }

    /// How many of its frames are under way.
    pub fn under_way(&self) -> u64
        ensures { result ≡ self.now.progress.sent - self.now.progress.carried }
    {
        self.progress.sent() - self.progress.carried()
    }

    /// How many frames more may be sealed: as many as could leave once those that wait are carried.
    pub fn sealing_room(&self) -> u64
        ensures { result ≡ sealing_room self.now }
    {
        if self.ended.is_some() {
            return 0;
        }
        WINDOW_MOST.saturating_sub(self.progress.next() - self.progress.carried())
    }

    /// Why it stands, if it does.
    pub fn stands(&self) -> Option<Stands>
        ensures { result ≡ stands self.now }
    {
        if let Some(why) = self.ended {
            return Some(Stands::Stopped(why));
        }
        if self.is_held {
            return Some(Stands::Refused);
        }
        if self.done < self.progress.carried() && self.probe.length >= 4 * PROBE {
            return Some(Stands::Unanswered);
        }
        if self.progress.carried() < self.progress.sent() && self.again.length > AGAIN {
            return Some(Stands::Unconfirmed);
        }
        None
    }

    /// Why it is stopped, if it is.
    pub fn ended(&self) -> Option<Ended>
        ensures { result ≡ self.now.ended }
    {
        self.ended
    }
}

/// What a caller hears of a finding.
fn heard_of(finding: Finding) -> Heard
    ensures { result ≡ heard_of finding }
{
    match finding {
        Finding::Repeat => Heard::Nothing,
        Finding::Delivered => Heard::Delivered,
        Finding::Older | Finding::Forked => Heard::Ended,
    }
}

/// Whether a receiver that asks again is heeded now.
fn may_ask(ask: Option<Pause>, now: u64) -> bool
    ensures { result ≡ may_ask ask now }
{
    match ask {
        Some(pause) => pause.is_over(now),
        None => true,
    }
}

/// The pause after one that is heeded.
fn next_ask(ask: Option<Pause>, now: u64) -> Pause
    ensures { result ≡ next_ask ask now }
{
    match ask {
        Some(mut pause) => {
            pause.grow(ASK_MOST, now);
            pause
        }
        None => Pause::begin(ASK, now),
    }
}

/// When such a receiver is heeded again.
fn ask_end(ask: Option<Pause>) -> u64
    ensures { result ≡ ask_end ask }
{
    match ask {
        Some(pause) => pause.end(),
        None => u64::MAX,
    }
}
