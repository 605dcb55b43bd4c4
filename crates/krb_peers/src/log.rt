//! The log of a relay: the outcome of each frame, lane by lane, in one order.

ghost use Rattle.std.specs.Prelude.{◌≡◌, ◌<◌, ◌≤◌, ◌+◌, ◌++◌, [], length, map, replicate, slice_get, OnOk, OnErr, false, option_map, vec_len, vec_capacity};
ghost use Rattle.std.specs.List.{range_with_len};
ghost use Rattle.krb_base.specs.Limits.{lane_limit};
ghost use Rattle.krb_peers.specs.Log.{texts_of, is_closed, status_of, entries_for, appended, appended_all, ended_at, MayFollow};
ghost use Rattle.krb_peers.specs.Logged.{noted, MayBeNoted};

use crate::delivery::Delivery;
use krb_base::{Bytes, LANE_LIMIT};
use krb_record::Texts;
use krb_seal::Refusal;
use std::alloc::{AllocError, Global};
use std::array;
use std::marker::Model;

/// The outcome of a frame.
#[derive(Debug, Drop)]
pub enum Event {
    /// It carried this text, which was delivered.
    Text(Bytes),
    /// It carried the close, which was accepted.
    Closed,
    /// It was refused.
    Refused(Refusal),
}

/// One event of one lane.
#[derive(Debug, Drop)]
pub struct Entry {
    /// The lane's number, from 0 on.
    pub lane: u32,
    /// The outcome of the frame.
    pub event: Event,
}

/// How far a lane has come.
#[derive(Clone, Copy, Debug, PartialEq, Eq)]
pub enum Status {
    /// Neither closed nor ended.
    Live,
    /// A close was accepted.
    Closed,
    /// The lane has ended, and no close was accepted.
    Truncated,
}

/// The entries of one to eight lanes, in the order in which they came, and which lanes have ended.
///
/// Beside the entries it keeps the places of each lane's texts, so that no call walks all entries.
#[derive(Drop)]
pub struct Log {
    lanes: u32,
    entries: Vec<Entry>,
    texts: [Vec<usize>; LANE_LIMIT],
    closed: [bool; LANE_LIMIT],
    ended: [bool; LANE_LIMIT],
}

impl Model for Log {
    ghost use Rattle.std.specs.Prelude.{map};
    ghost use Rattle.krb_peers.specs.LogState.{LogState};

    ghost Value = { LogState };

    ghost use Rattle.krb_peers.specs.LogIndex.{IsIndexed};

    ghost view = { λ log. record {
      lanes = log.lanes;
      entries = log.entries.items;
      ended = log.ended;
    } };

    ghost invariant = { λ log.
        IsIndexed log.lanes log.entries.items (map (λ places. places.items) log.texts) log.closed };
}

impl Log {
    /// A log of `lanes` lanes, 1 to 8, with no entries.
    pub fn new(alloc: Global, lanes: u32) -> Log
        requires some { 1 ≤ lanes }
        requires few { lanes ≤ lane_limit }
        ensures lanes { result.lanes ≡ lanes }
        ensures entries { result.entries ≡ [] }
        ensures ended { result.ended ≡ replicate lane_limit false }
    {
        Log {
            lanes,
            entries: Vec::new(alloc),
            texts: array::from_fn(|_| Vec::new(alloc)),
            closed: [false; LANE_LIMIT],
            ended: [false; LANE_LIMIT],
        }
    }

    /// Appends an event of `lane`.
    ///
    /// The lane's number is below that of the lanes. After a close only refusals may come. Out of
    /// memory is the only error, and changes nothing.
    pub fn push(&mut self, lane: u32, event: Event) -> Result<(), AllocError>
        requires lane { lane < self.old.lanes }
        requires open { MayFollow event lane self.old.entries }
        ensures ok { OnOk result (self.new ≡ appended self.old lane event) }
        ensures err { OnErr result (self.new ≡ self.old) }
    {
        let place = self.entries.len();
        self.entries.reserve(1)?;
        match &event {
            Event::Text(_) => self.texts[lane as usize].push(place)?,
            Event::Closed => self.closed[lane as usize] = true,
            Event::Refused(_) => {}
        }
        self.entries.push_reserved(Entry { lane, event });
        Ok(())
    }

    /// Appends an event of `lane` for each text of a batch, in order.
    ///
    /// The lane's number is below that of the lanes, and there is no close of it. Room for all
    /// comes first, so out of memory, which is the only error, changes nothing.
    pub fn push_batch(&mut self, lane: u32, texts: Texts) -> Result<(), AllocError>
        requires lane { lane < self.old.lanes }
        requires open { is_closed lane self.old.entries ≡ false }
        ensures ok { OnOk result (self.new ≡ appended_all self.old lane (map Event.Text texts)) }
        ensures err { OnErr result (self.new ≡ self.old) }
    {
        let count = texts.as_slice().len();
        let place = self.entries.len();
        self.entries.reserve(count)?;
        let places = &mut self.texts[lane as usize];
        places.reserve(count)?;
        add_places(places, place, count);
        add_texts(&mut self.entries, lane, texts.into_vec());
        Ok(())
    }

    /// Appends what a verdict on a frame of `lane` brings: an event, or one for each text of a batch.
    ///
    /// The lane's number is below that of the lanes. After a close only refusals may come. Out of
    /// memory is the only error, and changes nothing.
    pub(crate) fn note(
        &mut self,
        lane: u32,
        verdict: Result<Delivery, Refusal>,
    ) -> Result<(), AllocError>
        requires lane { lane < self.old.lanes }
        requires open { MayBeNoted verdict lane self.old.entries }
        ensures ok { OnOk result (self.new ≡ noted self.old lane verdict) }
        ensures err { OnErr result (self.new ≡ self.old) }
    {
        match verdict {
            Ok(Delivery::Text(text)) => self.push(lane, Event::Text(text)),
            Ok(Delivery::Batch(texts)) => self.push_batch(lane, texts),
            Ok(Delivery::Closed) => self.push(lane, Event::Closed),
            Err(refusal) => self.push(lane, Event::Refused(refusal)),
        }
    }

    /// Notes that `lane` has ended. No entry is added.
    pub fn end(&mut self, lane: u32)
        requires { lane < self.old.lanes }
        ensures { self.new ≡ ended_at self.old lane }
    {
        self.ended[lane as usize] = true;
    }

    /// How many lanes it has.
    pub fn lanes(&self) -> u32
        ensures { result ≡ self.now.lanes }
    {
        self.lanes
    }

    /// The entries, oldest first.
    pub fn entries(&self) -> &[Entry]
        ensures { result.now ≡ self.now.entries }
    {
        self.entries.as_slice()
    }

    /// How many texts of `lane` were delivered.
    pub fn texts(&self, lane: u32) -> usize
        requires { lane < self.now.lanes }
        ensures { result ≡ length (texts_of lane self.now.entries) }
    {
        self.texts[lane as usize].len()
    }

    /// The text of `lane` at place `i`, from 0 on, if there is one.
    pub fn text(&self, lane: u32, i: usize) -> Option<&[u8]>
        requires { lane < self.now.lanes }
        ensures { option_map (λ text. text.now) result
            ≡ slice_get (texts_of lane self.now.entries) i }
    {
        let place = self.texts[lane as usize].get(i)?;
        match &self.entries[*place].event {
            Event::Text(text) => Some(text.as_slice()),
            Event::Closed | Event::Refused(_) => None,
        }
    }

    /// How far `lane` has come.
    pub fn status(&self, lane: u32) -> Status
        requires { lane < self.now.lanes }
        ensures { result ≡ status_of self.now lane }
    {
        if self.closed[lane as usize] {
            Status::Closed
        } else if self.ended[lane as usize] {
            Status::Truncated
        } else {
            Status::Live
        }
    }
}

/// Adds so many places, from this one on. There is room.
fn add_places(places: &mut Vec<usize>, first: usize, count: usize)
    requires room { vec_len places.old + count ≤ vec_capacity places.old }
    requires small { first + count ≤ usize.MAX }
    ensures { places.new.items ≡ places.old.items ++ range_with_len first count }
{
    for i in 0..count {
        places.push_reserved(first + i);
    }
}

/// Adds an entry for each text. There is room.
fn add_texts(entries: &mut Vec<Entry>, lane: u32, texts: Vec<Bytes>)
    requires { vec_len entries.old + length texts.items ≤ vec_capacity entries.old }
    ensures { entries.new.items
        ≡ entries.old.items ++ entries_for lane (map Event.Text texts.items) }
{
    for text in texts {
        entries.push_reserved(Entry {
            lane,
            event: Event::Text(text),
        });
    }
}
