//! A shard of a receiver.

ghost use Rattle.std.specs.Prelude.{◌≡◌, ◌≢◌, ◌⊎◌, ◌&&◌, ◌+◌, ◌-◌, ◌∷◌, ◌++◌, ◌<◌, ◌≤◌, ◌^◌, ℕ, [], true, false, IfNone, IfOk, IfSome, IsTrue, OnErr, OnOk, is_some, length, slice_index_or};
ghost use Rattle.krb_engine.specs.Queue.{has};
ghost use Rattle.krb_engine.specs.Receiving as engine;
ghost use Rattle.krb_engine.specs.Shards.{ReadsOn};
ghost use Rattle.krb_engine.specs.declared.receiving.Receiving.{Receiving};
ghost use Rattle.krb_sender.specs.Times.{IsFirstTime, time_of};
ghost use Rattle.krb_receiver.specs.Shard.{AllEnd, Begins, Fails, FaultsWait, HasNoReceipt, HearsOfStepsBack, IsLoaded, IsNext, NoReceiptIsForgotten, OneByOne, OwesAgain, Passes, PausesGrow, Pays, RestIsSame, Stores, StoresWhatWasDone, Takes, Turns, WaitsAreShort, WhatIsDemandedIsStored, found_of, is_alone, is_full, has_frames, is_named, is_of_text, is_same, last_of, marked, no_sessions, read_of, receipt_time, refused, settled, taken_with, then_of, wait_after, with_last};

use krb_carry::Receipt;
use krb_engine::{Asks, Outcome, Pause, Read, Reading, Receiving, Row, Seen, Spot};
use krb_sender::Times;
use std::alloc::{AllocError, Global};
use std::marker::Model;

/// A transaction takes frames for so many milliseconds.
const LONG: u64 = 1_000;

/// What can't be had is tried again after so many milliseconds, then after twice as many each time,
const WAIT_FIRST: u64 = 200;

/// up to so many.
const WAIT_MOST: u64 = 5_000;

/// A text that is to be put aside is tried again at once, so often until something is stored.
const AT_ONCE: u64 = 16;

/// What the effects of texts are.
#[derive(Clone, Copy, Debug, PartialEq, Eq)]
pub struct Effects {
    /// No rollback of the store undoes what they did.
    pub are_outside: bool,
    /// A text that is refused too often is put aside.
    pub put_aside: bool,
}

/// A transaction that is under way.
#[derive(Clone, Copy, Debug, PartialEq, Eq)]
pub struct Attempt {
    /// When it began.
    pub since: u64,
    /// It has one frame only.
    pub is_alone: bool,
    /// The offset of the last frame that it has, once it has one.
    pub last: Option<u64>,
}

/// Why a frame isn't taken, or a transaction isn't stored.
#[derive(Clone, Copy, Debug, PartialEq, Eq)]
pub enum Failure {
    /// The effect refuses a text, or the store refuses what one has.
    Refused,
    /// The effect of a text can't be had now.
    Later,
    /// Another receiver was faster.
    Fenced,
    /// The store has a fault, or nobody knows whether it is stored.
    Fault,
}

/// What happens to the transaction.
#[derive(Clone, Copy, Debug, PartialEq, Eq)]
pub enum Then {
    /// What it has is stored.
    Store,
    /// Nothing of it is stored, and all is tried again at once.
    Again,
    /// Nothing of it is stored, and all is tried again after a pause.
    Wait,
}

/// What is to be done next.
#[derive(Clone, Copy, Debug, PartialEq, Eq)]
pub enum Turn {
    /// It isn't known what the store has.
    Load,
    /// Nothing, before this time.
    Wait {
        /// When.
        at: u64,
    },
    /// A transaction of the frames that follow.
    Read,
}

/// What the store has, beside what is known of it.
#[derive(Clone, Copy, Debug, PartialEq, Eq)]
pub enum Found {
    /// It is this.
    Same,
    /// It is further: another receiver went on.
    Ahead,
    /// It has gone back, as to a copy of before, or to a standby that is behind: receipts may have left for what it lost.
    Behind,
}

/// A receipt that leaves now.
#[derive(Clone, Copy, Debug, PartialEq, Eq)]
pub struct Due {
    /// The session's place.
    pub place: u32,
    /// What took effect.
    pub receipt: Receipt,
    /// What is asked for.
    pub asks: Asks,
}

/// A shard of a receiver, with all its sessions.
#[derive(Drop)]
pub struct Shard {
    sessions: Vec<Receiving>,
    receipts: Times,
    // places of the sessions of which the transaction under way has frames
    taken: Vec<u32>,
    reading: Reading,
    attempt: Option<Attempt>,
    // frames up to this one are taken alone
    alone: Option<Spot>,
    wait: Option<Pause>,
    refusals: u64,
    is_loaded: bool,
    effects: Effects,
    clock: u64,
}

impl Model for Shard {
    ghost use Rattle.krb_receiver.specs.Shard.{IsShard, ShardState};

    ghost Value = { ShardState };

    ghost view = { λ shard. record { sessions = shard.sessions.items; receipts = shard.receipts; taken = shard.taken.items; reading = shard.reading; attempt = shard.attempt; alone = shard.alone; wait = shard.wait; refusals = shard.refusals; is_loaded = shard.is_loaded; effects = shard.effects; clock = shard.clock } };

    ghost invariant = { λ shard. IsShard shard.sessions.items shard.receipts shard.taken.items shard.attempt shard.wait shard.clock };
}

impl Shard {
    /// A shard of which nothing is loaded.
    pub fn new(effects: Effects, alloc: Global) -> Shard
        ensures { result ≡ no_sessions effects }
    {
        Shard {
            sessions: Vec::new(alloc),
            receipts: Times::new(alloc),
            taken: Vec::new(alloc),
            reading: Reading::load(Spot { list: 0, offset: 0 }),
            attempt: None,
            alone: None,
            wait: None,
            refusals: 0,
            is_loaded: false,
            effects,
            clock: 0,
        }
    }

    // ---- what the store and the carrier have

    /// The store has this of the shard. Of its sessions nothing is known.
    pub fn loaded(&mut self, stored: Spot, alloc: Global)
        ensures { IsLoaded self.old stored self.new }
    {
        self.sessions = Vec::new(alloc);
        self.receipts = Times::new(alloc);
        self.taken = Vec::new(alloc);
        self.reading = Reading::load(stored);
        self.attempt = None;
        self.is_loaded = true;
    }

    /// The carrier has this list of the shard, with so many items: whether it isn't what was read. Of a different list all
    /// is read, and of one that was cut off what comes after its end.
    pub fn listed(&mut self, list: u64, last: u64) -> bool
        ensures reads { ReadsOn self.old.reading list last 0 (read_of result) self.new.reading }
        ensures sessions { self.new.sessions ≡ self.old.sessions }
        ensures rest { RestIsSame self.old self.new }
    {
        self.reading.frames(list, last, 0) == Read::Elsewhere
    }

    /// The store has this of the shard now. Unless it is what is known of it, what the store has is asked for.
    pub fn found(&mut self, stored: Spot) -> Found
        ensures found { result ≡ found_of self.old.reading.stored stored }
        ensures state { self.new ≡ record self.old { is_loaded = self.old.is_loaded && is_same result } }
    {
        let found = compare(&self.reading.stored, &stored);
        self.is_loaded = self.is_loaded && found == Found::Same;
        found
    }

    /// What the store has is asked for again, as where the carrier has a different list, or a file was replaced.
    pub fn forget(&mut self)
        ensures { self.new ≡ record self.old { is_loaded = false } }
    {
        self.is_loaded = false;
    }

    /// Up to where the list was taken, as stored and as read.
    pub fn reading(&self) -> &Reading
        ensures { result.now ≡ self.now.reading }
    {
        &self.reading
    }

    /// How many sessions it has: the place of the next one.
    pub fn len(&self) -> usize
        ensures { result ≡ length self.now.sessions }
    {
        self.sessions.len()
    }

    /// The session of a place.
    pub fn session(&self, place: u32) -> &Receiving
        requires { place < length self.now.sessions }
        ensures { (other : Receiving) → result.now ≡ slice_index_or self.now.sessions place other }
    {
        &self.sessions[place as usize]
    }

    /// One session more, of which the store has this row. If memory runs out, the shard has no session more.
    pub fn add(&mut self, row: Row) -> Result<(), AllocError>
        requires few { length self.old.sessions < 2 ^ 32 - 1 }
        ensures ok { OnOk result (self.new.sessions ≡ self.old.sessions ++ engine.has_row row self.old.clock ∷ []) }
        ensures err { OnErr result (self.new ≡ self.old) }
        ensures reading { self.new.reading ≡ self.old.reading }
        ensures rest { RestIsSame self.old self.new }
    {
        self.sessions.push(Receiving::load(row, self.clock))?;
        if let Err(error) = self.receipts.add() {
            let _ = self.sessions.pop();
            return Err(error);
        }
        Ok(())
    }

    // ---- what is to be done

    /// What is to be done next.
    pub fn turn(&mut self, now: u64) -> Turn
        ensures { Turns self.old now result self.new }
    {
        self.clock = self.clock.max(now);
        if let Some(pause) = self.wait {
            if !pause.is_over(self.clock) {
                return Turn::Wait { at: pause.end() };
            }
        }
        if self.is_loaded {
            Turn::Read
        } else {
            Turn::Load
        }
    }

    /// When there is a receipt or a turn, if nothing happens before and the carrier has nothing: the first time of all.
    pub fn next_time(&self) -> u64
        ensures { IsNext self.now result }
    {
        let receipt = first_time(&self.receipts);
        match self.wait {
            Some(pause) => receipt.min(pause.end()),
            None => receipt,
        }
    }

    // ---- a transaction

    /// Whether a transaction is under way.
    pub fn has_begun(&self) -> bool
        ensures { result ≡ is_some self.now.attempt }
    {
        self.attempt.is_some()
    }

    /// A transaction begins, whose first frame has this offset: whether it has that frame alone.
    pub fn begin(&mut self, first: u64, now: u64) -> bool
        requires { is_some self.old.attempt ≡ false }
        ensures { Begins self.old first now result self.new }
    {
        self.clock = self.clock.max(now);
        let is_alone = is_alone(self.alone, &self.reading, first);
        self.attempt = Some(Attempt {
            since: self.clock,
            is_alone,
            last: None,
        });
        is_alone
    }

    /// The transaction has this frame of a session: what it is taken for. If memory runs out, it doesn't have it.
    pub fn take(
        &mut self,
        place: u32,
        frame: &[u8],
        seen: Seen,
        offset: u64,
    ) -> Result<Outcome, AllocError>
        requires there { place < length self.old.sessions }
        requires begun { is_some self.old.attempt ≡ true }
        requires number { (other : Receiving) → (slice_index_or self.old.sessions place other).drafted.demanded.number + 1 < 2 ^ 64 }
        ensures ok { IfOk result (λ outcome. Takes self.old place frame.now seen offset outcome self.new) }
        ensures err { OnErr result (self.new ≡ self.old) }
    {
        let session = &mut self.sessions[place as usize];
        list(&mut self.taken, place, session.is_open)?;
        let outcome = session.take(frame, seen);
        self.attempt = with_last(self.attempt, offset);
        Ok(outcome)
    }

    /// The transaction has the frame of this offset, which is no session's.
    pub fn pass(&mut self, offset: u64)
        requires { is_some self.old.attempt ≡ true }
        ensures { Passes self.old offset self.new }
    {
        self.attempt = with_last(self.attempt, offset);
    }

    /// Whether the transaction takes no frame more: it has one, and is for that alone, or has taken long enough.
    pub fn is_full(&self, now: u64) -> bool
        ensures { result ≡ is_full self.now.attempt now }
    {
        match self.attempt {
            Some(
                Attempt {
                    since,
                    is_alone,
                    last: Some(_),
                },
            ) => is_alone || now.saturating_sub(since) >= LONG,
            _ => false,
        }
    }

    /// The transaction is stored, up to the last frame that it has.
    pub fn stored(&mut self)
        ensures { Stores self.old self.new }
    {
        let offset = last_of(self.attempt, self.reading.read.offset);
        settle_all(
            &mut self.sessions,
            &mut self.receipts,
            &mut self.taken,
            true,
        );
        self.reading = Reading::load(Spot {
            list: self.reading.read.list,
            offset,
        });
        self.attempt = None;
        self.wait = None;
        self.refusals = 0;
    }

    /// The frame of this offset isn't taken, or the transaction that ends with it isn't stored: what happens to it. So it is
    /// where a store can't be asked before there is one.
    pub fn failed(&mut self, failure: Failure, offset: u64) -> Then
        ensures { Fails self.old failure offset result self.new }
    {
        let then = then_of(self.effects, self.attempt, self.refusals, failure);
        self.alone = marked(self.alone, &self.reading, failure, offset);
        self.refusals = refused(self.refusals, failure);
        if then == Then::Store {
            return then;
        }
        settle_all(
            &mut self.sessions,
            &mut self.receipts,
            &mut self.taken,
            false,
        );
        self.attempt = None;
        self.is_loaded = self.is_loaded && is_of_text(failure);
        if then == Then::Wait {
            self.wait = Some(wait_after(self.wait, self.clock));
        }
        then
    }

    // ---- receipts

    /// The receipt that leaves next, if one is due. None leaves while a transaction is under way.
    pub fn receipt(&mut self, now: u64) -> Option<Due>
        ensures some { IfSome result (λ due. Pays self.old now due self.new) }
        ensures none { IfNone result (HasNoReceipt self.old now self.new) }
    {
        self.clock = self.clock.max(now);
        if self.attempt.is_some() {
            return None;
        }
        let place = self.receipts.first()?;
        if self.receipts.get(place) > self.clock {
            return None;
        }
        let session = &mut self.sessions[place as usize];
        let Some((receipt, asks)) = session.receipt(self.clock) else {
            return None;
        };
        self.receipts.set(place, receipt_time(session));
        Some(Due {
            place,
            receipt,
            asks,
        })
    }

    /// A receipt didn't leave: it is owed again.
    pub fn unpaid(&mut self, place: u32, asks: Asks)
        requires { place < length self.old.sessions }
        ensures { OwesAgain self.old place asks self.new }
    {
        let session = &mut self.sessions[place as usize];
        session.owed = Some(session.owed.unwrap_or(asks));
        self.receipts.set(place, receipt_time(session));
    }

    // ---- what holds in every state

    /// What holds of each state that there is.
    ///
    /// While no transaction is under way, what each session demands is what is stored (`demanded`), and one that owes a
    /// receipt has a time for it within a fifth of a second (`receipts`). What is tried again is tried within five seconds
    /// (`waits`).
    pub fn laws(&self)
        ensures demanded { WhatIsDemandedIsStored self.now }
        ensures receipts { NoReceiptIsForgotten self.now }
        ensures waits { WaitsAreShort self.now }
    {
        let _ = &self.sessions;
    }
}

/// What holds of all transactions.
///
/// After a failure that is a text's, its frame and those before it are taken alone (`one_by_one`), so each text that fails is
/// named and keeps no other from being stored. A transaction takes frames for a second at most (`ends`). What effects
/// outside of the store did is stored where a later text fails, and nothing else is (`done`). What can't be had is tried again
/// after a pause (`waits`), which grows up to five seconds (`grows`). A store that has gone back isn't taken for one that is as
/// it was (`back`).
pub fn transaction_laws()
    ensures one_by_one { OneByOne }
    ensures ends { AllEnd }
    ensures done { StoresWhatWasDone }
    ensures waits { FaultsWait }
    ensures grows { PausesGrow }
    ensures back { HearsOfStepsBack }
{}

// ---- sessions

/// The first of all times.
fn first_time(times: &Times) -> u64
    ensures { IsFirstTime times.now result }
{
    match times.first() {
        Some(place) => times.get(place),
        None => u64::MAX,
    }
}

/// When the session's receipt leaves: never, if none is owed.
fn receipt_time(session: &Receiving) -> u64
    ensures { result ≡ receipt_time session.now }
{
    match session.owed {
        Some(_) => session.paid.end(),
        None => u64::MAX,
    }
}

/// The transaction has frames of the session of this place, which may be listed. If memory runs out, it isn't.
fn list(taken: &mut Vec<u32>, place: u32, is_there: bool) -> Result<(), AllocError>
    ensures ok { OnOk result (taken.new.items ≡ taken_with taken.old.items place is_there) }
    ensures err { OnErr result (taken.new.items ≡ taken.old.items) }
{
    if !is_there {
        taken.push(place)?;
    }
    Ok(())
}

/// The transaction that has frames of this session is stored, or isn't.
fn settle(sessions: &mut [Receiving], receipts: &mut Times, place: u32, is_stored: bool)
    requires there { place < length sessions.old }
    requires sized { length receipts.old ≡ length sessions.old }
    ensures sized { length receipts.new ≡ length receipts.old }
    ensures session { (other : Receiving) → slice_index_or sessions.new place other ≡ settled is_stored (slice_index_or sessions.old place other) }
    ensures time { (other : Receiving) → time_of receipts.new place ≡ receipt_time (slice_index_or sessions.new place other) }
    ensures others { (k : ℕ) (other : Receiving) → k ≢ place → slice_index_or sessions.new k other ≡ slice_index_or sessions.old k other }
    ensures times { (k : ℕ) → k ≢ place → time_of receipts.new k ≡ time_of receipts.old k }
{
    let session = &mut sessions[place as usize];
    if session.is_open {
        if is_stored {
            session.stored();
        } else {
            session.dropped();
        }
    }
    receipts.set(place, receipt_time(session));
}

/// The transaction that has frames of these sessions is stored, or isn't.
fn settle_all(
    sessions: &mut [Receiving],
    receipts: &mut Times,
    taken: &mut Vec<u32>,
    is_stored: bool,
)
    requires sized { length receipts.old ≡ length sessions.old }
    requires places { (k : ℕ) → has taken.old.items k ≡ true → k < length sessions.old }
    requires listed { (k : ℕ) (other : Receiving) → k < length sessions.old → (slice_index_or sessions.old k other).is_open ≡ true → has taken.old.items k ≡ true }
    ensures none { taken.new.items ≡ [] }
    ensures sized { length receipts.new ≡ length receipts.old }
    ensures each { (k : ℕ) (other : Receiving) → k < length sessions.old → slice_index_or sessions.new k other ≡ settled is_stored (slice_index_or sessions.old k other) }
    ensures times { (k : ℕ) (other : Receiving) → k < length sessions.old → (time_of receipts.new k ≡ receipt_time (slice_index_or sessions.new k other)) ⊎ (((slice_index_or sessions.old k other).is_open ≡ false) × (time_of receipts.new k ≡ time_of receipts.old k)) }
{
    while let Some(place) = taken.pop() {
        settle(sessions, receipts, place, is_stored);
    }
}

/// A place that is found, beside the one that is known.
fn compare(known: &Spot, found: &Spot) -> Found
    ensures { result ≡ found_of known.now found.now }
{
    if found.list != known.list || found.offset < known.offset {
        return Found::Behind;
    }
    if found.offset > known.offset {
        return Found::Ahead;
    }
    Found::Same
}

// ---- transactions

/// Whether the frame of this offset is taken alone.
fn is_alone(alone: Option<Spot>, reading: &Reading, offset: u64) -> bool
    ensures { result ≡ is_alone alone reading.now offset }
{
    match alone {
        Some(spot) => spot.list == reading.read.list && offset <= spot.offset,
        None => false,
    }
}

/// Up to which frame they are taken alone, after this failure: where it is a text's, also up to its own.
fn marked(alone: Option<Spot>, reading: &Reading, failure: Failure, offset: u64) -> Option<Spot>
    ensures { result ≡ marked alone reading.now failure offset }
{
    if !is_of_text(failure) || is_alone(alone, reading, offset) {
        return alone;
    }
    Some(Spot {
        list: reading.read.list,
        offset,
    })
}

/// The transaction has the frame of this offset.
fn with_last(attempt: Option<Attempt>, offset: u64) -> Option<Attempt>
    ensures { result ≡ with_last attempt offset }
{
    let attempt = attempt?;
    Some(Attempt {
        last: Some(offset),
        ..attempt
    })
}

/// The offset of its last frame, or this one, if it has none.
fn last_of(attempt: Option<Attempt>, none: u64) -> u64
    ensures { result ≡ last_of attempt none }
{
    match attempt {
        Some(
            Attempt {
                last: Some(offset),
                ..
            },
        ) => offset,
        _ => none,
    }
}

// ---- what fails

/// Whether a text is the reason.
fn is_of_text(failure: Failure) -> bool
    ensures { result ≡ is_of_text failure }
{
    match failure {
        Failure::Refused | Failure::Later => true,
        Failure::Fenced | Failure::Fault => false,
    }
}

/// How many texts were refused since something was stored.
fn refused(refusals: u64, failure: Failure) -> u64
    ensures { result ≡ refused refusals failure }
{
    match failure {
        Failure::Refused => refusals.saturating_add(1),
        Failure::Later | Failure::Fenced | Failure::Fault => refusals,
    }
}

/// Whether it is known which text failed: that of the only frame, or of the first.
fn is_named(attempt: Option<Attempt>) -> bool
    ensures { result ≡ is_named attempt }
{
    match attempt {
        Some(attempt) => attempt.is_alone || attempt.last.is_none(),
        None => true,
    }
}

/// What happens to a transaction.
fn then_of(effects: Effects, attempt: Option<Attempt>, refusals: u64, failure: Failure) -> Then
    ensures { result ≡ then_of effects attempt refusals failure }
{
    match failure {
        Failure::Fault => Then::Wait,
        Failure::Fenced => Then::Again,
        Failure::Refused | Failure::Later => {
            if effects.are_outside && has_frames(attempt) {
                return Then::Store;
            }
            let is_next = failure == Failure::Refused && effects.put_aside && refusals < AT_ONCE;
            if is_next || !is_named(attempt) {
                return Then::Again;
            }
            Then::Wait
        }
    }
}

/// Whether it has a frame.
fn has_frames(attempt: Option<Attempt>) -> bool
    ensures { result ≡ has_frames attempt }
{
    match attempt {
        Some(attempt) => attempt.last.is_some(),
        None => false,
    }
}

/// The pause after this one, or the first.
fn wait_after(wait: Option<Pause>, now: u64) -> Pause
    ensures { result ≡ wait_after wait now }
{
    match wait {
        Some(mut pause) => {
            pause.grow(WAIT_MOST, now);
            pause
        }
        None => Pause::begin(WAIT_FIRST, now),
    }
}
