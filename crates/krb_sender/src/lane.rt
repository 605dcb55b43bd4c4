//! A shard of a sender.

ghost use Rattle.std.specs.Prelude.{◌≡◌, ◌≢◌, ◌↔◌, ◌⊎◌, ◌+◌, ◌-◌, ◌∷◌, ◌++◌, ◌<◌, ◌≤◌, ◌^◌, ℕ, [], if◌then◌else◌, true, false, length, IfNone, IfSome, IsTrue, max, OnErr, OnOk, slice_index_or, slice_set};
ghost use Rattle.krb_carry.specs.Progress.{Counts};
ghost use Rattle.krb_engine.specs.Queue.{has};
ghost use Rattle.krb_engine.specs.Sending as engine;
ghost use Rattle.krb_sender.specs.Times.{NoneIsDue, time_of};
ghost use Rattle.krb_sender.specs.Session.{is_idle, loaded, released, stopped, weight, with_end};
ghost use Rattle.krb_sender.specs.SessionState.{SessionState};
ghost use Rattle.krb_sender.specs.Lane.{AllAreAwake, Becomes, HasNoTurn, HasRoom, Hears, IsAwake, IsNext, IsPicked, NoneIsForgotten, NoneWaitsInVain, RoomComes, RoomIsTheSum, Turns, TurnsEnd, Was, look_time, memory_pause, more_of, no_sessions, room_with, turns_left, IsSameButList};

use crate::{Heard, Own, Row, Session, Times, Turn};
use krb_carry::Receipt;
use krb_engine::{Asks, Command, Queue};
use std::alloc::{AllocError, Global};
use std::marker::Model;

/// How many frames of a shard are under way at most.
const UNDER_WAY: u64 = 2_048;

/// A session that isn't done is looked at within so many milliseconds,
const PAUSE_MOST: u64 = 64_000;

/// one of which frames left within so many,
const LEFT_PAUSE: u64 = 2_000;

/// and one that is held, or for which memory ran out, within so many.
const SHORT_PAUSE: u64 = 100;

/// A session that was served.
#[derive(Clone, Copy, Debug, PartialEq, Eq)]
pub struct Served {
    /// Its place.
    pub place: u32,
    /// Whether it counted for a different list than its shard's: all that isn't done leaves again.
    pub is_moved: bool,
    /// What is to be done of it.
    pub turn: Turn,
}

/// A shard of a sender, with all its sessions.
#[derive(Drop)]
pub struct Lane {
    sessions: Vec<Session>,
    queue: Queue,
    times: Times,
    list: Option<u64>,
    under_way: u64,
    clock: u64,
}

impl Model for Lane {
    ghost use Rattle.krb_sender.specs.Lane.{IsLane, LaneState};

    ghost Value = { LaneState };

    ghost view = { λ lane. record { sessions = lane.sessions.items; queue = lane.queue; times = lane.times; list = lane.list; under_way = lane.under_way; clock = lane.clock } };

    ghost invariant = { λ lane. IsLane lane.sessions.items lane.queue lane.times lane.under_way lane.clock };
}

impl Lane {
    /// A shard with no session, and no list.
    pub fn new(alloc: Global) -> Lane
        ensures { result ≡ no_sessions }
    {
        Lane {
            sessions: Vec::new(alloc),
            queue: Queue::new(alloc),
            times: Times::new(alloc),
            list: None,
            under_way: 0,
            clock: 0,
        }
    }

    /// How many sessions it has: the place of the next one.
    pub fn len(&self) -> usize
        ensures { result ≡ length self.now.sessions }
    {
        self.sessions.len()
    }

    /// The session of a place.
    pub fn session(&self, place: u32) -> &Session
        requires { place < length self.now.sessions }
        ensures { (other : SessionState) → result.now ≡ slice_index_or self.now.sessions place other }
    {
        &self.sessions[place as usize]
    }

    /// One session more, of which the outbox has this. If memory runs out, the shard has no session more.
    pub fn add(&mut self, row: &Row, opens: bool) -> Result<(), AllocError>
        requires few { length self.old.sessions < 2 ^ 32 - 1 }
        requires done { row.now.done ≤ row.now.carried }
        requires carried { row.now.carried ≤ row.now.next }
        ensures ok { OnOk result (self.new.sessions ≡ self.old.sessions ++ loaded row.now opens self.old.clock ∷ []) }
        ensures err { OnErr result (self.new.sessions ≡ self.old.sessions) }
        ensures list { self.new.list ≡ self.old.list }
        ensures clock { self.new.clock ≡ self.old.clock }
    {
        let place = self.sessions.len() as u32;
        let session = Session::load(row, opens, self.clock);
        let is_idle = session.is_idle();
        self.sessions.push(session)?;
        if let Err(error) = self.times.add() {
            let _ = self.sessions.pop();
            return Err(error);
        }
        remember(
            &mut self.queue,
            &mut self.times,
            place,
            u64::MAX,
            !is_idle,
            self.clock,
        );
        Ok(())
    }

    // ---- what is to be done

    /// Which session is served next, and what is to be done of it. None, if the shard has no list; or no time has come,
    /// and no session waits or there is no room.
    pub fn turn(&mut self, now: u64) -> Option<Served>
        ensures some { IfSome result (λ served. Turns self.old served self.new) }
        ensures none { IfNone result (HasNoTurn self.old self.new) }
        ensures later { IfSome result (λ served. self.new.clock < 2 ^ 64 - 1 → self.new.clock < time_of self.new.times served.place) }
        ensures ends { IfSome result (λ served. self.new.clock < 2 ^ 64 - 1 → turns_left self.new self.new.clock < turns_left self.old self.new.clock) }
        ensures clock { self.new.clock ≡ max self.old.clock now }
    {
        self.clock = self.clock.max(now);
        let list = self.list?;
        let room = UNDER_WAY.saturating_sub(self.under_way);
        let place = pick(&self.times, &mut self.queue, room, self.clock)?;
        let session = &mut self.sessions[place as usize];
        let before = session.weight();
        let is_moved = session.listed(list);
        let turn = session.serve(room, self.clock);
        let _ = session.is_idle();
        self.under_way = self.under_way - before + session.weight();
        let at = look_time(turn, self.clock);
        let has_more = has_more(turn, room);
        remember(
            &mut self.queue,
            &mut self.times,
            place,
            at,
            has_more,
            self.clock,
        );
        Some(Served {
            place,
            is_moved,
            turn,
        })
    }

    /// When a session has a turn again, if nothing happens before.
    pub fn next_time(&self) -> u64
        ensures { IsNext self.now result }
    {
        if self.list.is_none() {
            return u64::MAX;
        }
        if self.under_way < UNDER_WAY && !self.queue.is_empty() {
            return self.clock;
        }
        match self.times.first() {
            Some(place) => self.times.get(place),
            None => u64::MAX,
        }
    }

    // ---- what happens to a session

    /// The outbox has this of the session now.
    pub fn reload(&mut self, place: u32, row: &Row, opens: bool)
        requires there { place < length self.old.sessions }
        requires done { row.now.done ≤ row.now.carried }
        requires carried { row.now.carried ≤ row.now.next }
        ensures session { Becomes self.old place (λ it. loaded row.now opens self.old.clock) self.new }
    {
        let session = &mut self.sessions[place as usize];
        let before = session.weight();
        *session = Session::load(row, opens, self.clock);
        self.under_way = self.under_way - before + session.weight();
        note(session, &mut self.queue, &mut self.times, place, self.clock);
    }

    /// So many frames more are stored, if there are numbers for them.
    pub fn sealed(&mut self, place: u32, count: u64) -> bool
        requires { place < length self.old.sessions }
        ensures fits { Was self.old place (λ it. IsTrue result ↔ (it.end.progress.next + count < 2 ^ 64)) }
        ensures session { Becomes self.old place (λ it. with_end it (if result then engine.sealed it.end count else it.end)) self.new }
    {
        let session = &mut self.sessions[place as usize];
        let before = session.weight();
        let fits = session.sealed(count);
        self.under_way = self.under_way - before + session.weight();
        note(session, &mut self.queue, &mut self.times, place, self.clock);
        fits
    }

    /// A copy of the frame of this number stands at this offset of the shard's list: whether it counts.
    pub fn confirmed(&mut self, place: u32, number: u64, offset: u64, now: u64) -> bool
        requires { place < length self.old.sessions }
        ensures counts { Was self.old place (λ it. IsTrue result ↔ Counts it.end.progress number offset) }
        ensures session { Becomes self.old place (λ it. with_end it (if result then engine.confirmed it.end offset now else it.end)) self.new }
    {
        let session = &mut self.sessions[place as usize];
        let before = session.weight();
        let counts = session.confirmed(number, offset, now);
        self.under_way = self.under_way - before + session.weight();
        note(session, &mut self.queue, &mut self.times, place, self.clock);
        counts
    }

    /// A receiver says what took effect of the session, and what it asks for.
    pub fn receipt(
        &mut self,
        place: u32,
        receipt: &Receipt,
        own: Own,
        asks: Asks,
        now: u64,
    ) -> Heard
        requires { place < length self.old.sessions }
        ensures session { Hears self.old place receipt.now own asks now result self.new }
    {
        let session = &mut self.sessions[place as usize];
        let before = session.weight();
        let heard = session.receipt(receipt, own, asks, now);
        self.under_way = self.under_way - before + session.weight();
        note(session, &mut self.queue, &mut self.times, place, self.clock);
        heard
    }

    /// Nothing of the session leaves any more, and it has nothing under way.
    pub fn stop(&mut self, place: u32)
        requires { place < length self.old.sessions }
        ensures session { Becomes self.old place (λ it. stopped it) self.new }
    {
        let session = &mut self.sessions[place as usize];
        let before = session.weight();
        session.stop();
        self.under_way = self.under_way - before + session.weight();
        note(session, &mut self.queue, &mut self.times, place, self.clock);
    }

    /// The session's opening may leave in its next turn.
    pub fn release(&mut self, place: u32)
        requires { place < length self.old.sessions }
        ensures session { Becomes self.old place (λ it. released it) self.new }
    {
        let session = &mut self.sessions[place as usize];
        let before = session.weight();
        session.release();
        self.under_way = self.under_way - before + session.weight();
        note(session, &mut self.queue, &mut self.times, place, self.clock);
    }

    // ---- what happens to the shard

    /// The shard has this list now, or none can be had. If it is a different one, all sessions have their turn.
    pub fn listed(&mut self, list: Option<u64>)
        ensures same { IsSameButList self.old list self.new }
        ensures awake { list ≢ self.old.list → AllAreAwake self.new }
    {
        if list == self.list {
            return;
        }
        self.list = list;
        let count = self.sessions.len() as u32;
        for place in 0..count {
            self.wake(place);
        }
    }

    /// The session has its turn.
    fn wake(&mut self, place: u32)
        requires { place < length self.old.sessions }
        ensures same { IsSameButList self.old self.old.list self.new }
        ensures awake { IsAwake self.new place }
        ensures others { (k : ℕ) → k ≢ place → IsAwake self.old k → IsAwake self.new k }
    {
        let session = &self.sessions[place as usize];
        note(session, &mut self.queue, &mut self.times, place, self.clock);
    }

    // ---- what holds in every state

    /// What holds of each state that there is.
    ///
    /// A session that isn't done and isn't over waits for its turn, or is looked at within 64 seconds
    /// (`none_is_forgotten`); one that could publish if there were room waits for its turn, or is looked at within a tenth
    /// of a second (`none_waits_in_vain`). What is under way is the sum of what its sessions have under way, and one that
    /// is over has none (`room_is_the_sum`); a shard that has a list has room for the rest of its bound (`has_room`); and
    /// while something is under way, some session that has it is looked at within 64 seconds (`room_comes`). At one time
    /// there are finitely many turns: each leaves fewer (`turn`, `ends`), and there are at most three for each session, one
    /// for each that waits, and one for each frame that may be under way (`turns_end`).
    pub fn laws(&self)
        ensures none_is_forgotten { NoneIsForgotten self.now }
        ensures none_waits_in_vain { NoneWaitsInVain self.now }
        ensures room_is_the_sum { RoomIsTheSum self.now }
        ensures has_room { HasRoom self.now }
        ensures room_comes { RoomComes self.now }
        ensures turns_end { TurnsEnd self.now }
    {
        let _ = &self.sessions;
    }
}

/// A session whose time has come.
fn due(times: &Times, now: u64) -> Option<u32>
    ensures some { IfSome result (λ place. (place < length times.now) × (time_of times.now place ≤ now)) }
    ensures none { IfNone result (NoneIsDue times.now now) }
{
    let place = times.first()?;
    if times.get(place) > now {
        return None;
    }
    Some(place)
}

/// A session whose time has come, or else the one whose turn it is, if there is room.
fn pick(times: &Times, queue: &mut Queue, room: u64, now: u64) -> Option<u32>
    ensures none { IfNone result ((queue.new ≡ queue.old) × NoneIsDue times.now now × ((room ≡ 0) ⊎ (queue.old ≡ []))) }
    ensures others { IfSome result (λ place. (k : ℕ) → k ≢ place → has queue.new k ≡ has queue.old k) }
    ensures there { IfSome result (λ place. (place < length times.now) ⊎ (has queue.old place ≡ true)) }
    ensures picked { IfSome result (λ place. IsPicked times.now queue.old room now place queue.new) }
{
    if let Some(place) = due(times, now) {
        return Some(place);
    }
    if room == 0 {
        return None;
    }
    queue.serve()
}

/// Something has happened to a session: it has its turn, unless there is nothing to do.
fn note(session: &Session, queue: &mut Queue, times: &mut Times, place: u32, clock: u64)
    requires { place < length times.old }
    ensures length { length times.new ≡ length times.old }
    ensures queue { (k : ℕ) → k ≢ place → has queue.new k ≡ has queue.old k }
    ensures times { (k : ℕ) → k ≢ place → time_of times.new k ≡ time_of times.old k }
    ensures time { time_of times.new place ≤ time_of times.old place }
    ensures more { is_idle session.now ≡ false → (has queue.new place ≡ true) ⊎ (time_of times.new place ≤ clock + memory_pause) }
    ensures room { is_idle session.now ≡ true → weight session.now ≡ 0 }
{
    let at = times.get(place);
    let is_idle = session.is_idle();
    remember(queue, times, place, at, !is_idle, clock);
}

/// A session has this time; if it has more to do, it waits for its turn.
fn remember(queue: &mut Queue, times: &mut Times, place: u32, at: u64, has_more: bool, clock: u64)
    requires { place < length times.old }
    ensures length { length times.new ≡ length times.old }
    ensures queue { (k : ℕ) → k ≢ place → has queue.new k ≡ has queue.old k }
    ensures times { (k : ℕ) → k ≢ place → time_of times.new k ≡ time_of times.old k }
    ensures time { time_of times.new place ≤ at }
    ensures later { clock < 2 ^ 64 - 1 → clock < at → clock < time_of times.new place }
    ensures more { has_more ≡ true → (has queue.new place ≡ true) ⊎ (time_of times.new place ≤ clock + memory_pause) }
    ensures set { times.new ≡ slice_set times.old place (time_of times.new place) }
    ensures short { length queue.new ≤ length queue.old + (if has_more then 1 else 0) }
{
    times.set(place, at);
    if has_more && queue.ready(place).is_err() {
        times.set(place, at.min(clock.saturating_add(SHORT_PAUSE)));
    }
}

/// When a session is looked at after this turn: never, if it has nothing to do.
fn look_time(turn: Turn, clock: u64) -> u64
    ensures { result ≡ look_time turn clock }
{
    match turn {
        Turn::Held => clock.saturating_add(SHORT_PAUSE),
        Turn::Does(Command::Idle) => u64::MAX,
        Turn::Does(Command::Publish { .. } | Command::Probe { .. }) => {
            clock.saturating_add(LEFT_PAUSE)
        }
        Turn::Does(Command::Wake { at }) => at
            .max(clock.saturating_add(1))
            .min(clock.saturating_add(PAUSE_MOST)),
    }
}

/// Whether something more may leave, now or once there is room.
fn has_more(turn: Turn, room: u64) -> bool
    ensures { result ≡ more_of turn room }
{
    match turn {
        Turn::Does(Command::Publish { .. } | Command::Probe { .. }) => true,
        Turn::Does(Command::Wake { .. }) => room == 0,
        Turn::Does(Command::Idle) | Turn::Held => false,
    }
}
