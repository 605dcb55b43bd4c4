//! When each session is looked at again.

ghost use Rattle.std.specs.Prelude.{◌≡◌, ◌≢◌, ◌++◌, ◌∷◌, ◌+◌, ◌*◌, ◌<◌, ◌≤◌, ◌^◌, ℕ, [], length, min, IfNone, IfSome, OnErr, OnOk, slice_set};
ghost use Rattle.krb_sender.specs.Times.{AllNodes, IsFirst, IsNode, NodesBut, least_below, never, time_of};

use std::alloc::{AllocError, Global};
use std::marker::Model;

/// A time for each place of a table: the end of time, if it has none.
///
/// Each place also has the least of its own time and of those at the two places below it, so that the first of all is
/// found, and a time is set, in as many steps as the number of places has binary digits.
#[derive(Drop)]
pub struct Times {
    at: Vec<u64>,
    least: Vec<u64>,
}

impl Model for Times {
    ghost use Rattle.std.specs.Prelude.{List, ℕ};
    ghost use Rattle.krb_sender.specs.Times.{IsTree};

    ghost Value = { List ℕ };

    ghost view = { λ times. times.at.items };

    ghost invariant = { λ times. IsTree times.at.items times.least.items };
}

impl Times {
    /// Of no place.
    pub fn new(alloc: Global) -> Times
        ensures { result ≡ [] }
    {
        Times {
            at: Vec::new(alloc),
            least: Vec::new(alloc),
        }
    }

    /// How many places there are.
    pub fn len(&self) -> usize
        ensures { result ≡ length self.now }
    {
        self.at.len()
    }

    /// One place more, which has no time. If memory runs out, all is as it was.
    pub fn add(&mut self) -> Result<(), AllocError>
        requires { length self.old < 2 ^ 32 }
        ensures ok { OnOk result (self.new ≡ self.old ++ never ∷ []) }
        ensures err { OnErr result (self.new ≡ self.old) }
    {
        self.least.push(u64::MAX)?;
        if let Err(error) = self.at.push(u64::MAX) {
            let _ = self.least.pop();
            return Err(error.into());
        }
        Ok(())
    }

    /// The place has this time, and no other.
    pub fn set(&mut self, place: u32, at: u64)
        requires { place < length self.old }
        ensures { self.new ≡ slice_set self.old place at }
    {
        self.at[place as usize] = at;
        settle(&self.at, &mut self.least, place as usize);
    }

    /// The time of a place.
    pub fn get(&self, place: u32) -> u64
        requires { place < length self.now }
        ensures { result ≡ time_of self.now place }
    {
        self.at[place as usize]
    }

    /// The place whose time is the first, if there is any.
    pub fn first(&self) -> Option<u32>
        ensures some { IfSome result (λ place. IsFirst self.now place) }
        ensures none { IfNone result (self.now ≡ []) }
    {
        if self.at.is_empty() {
            return None;
        }
        let mut place = 0;
        while time_at(&self.at, place) != time_at(&self.least, place) {
            let left = 2 * place + 1;
            place = if time_at(&self.least, left) == time_at(&self.least, place) {
                left
            } else {
                left + 1
            };
        }
        Some(place as u32)
    }
}

/// The time at a place of a table, or the end of time.
fn time_at(times: &[u64], place: usize) -> u64
    ensures { result ≡ time_of times.now place }
{
    match times.get(place) {
        Some(at) => *at,
        None => u64::MAX,
    }
}

/// The least of a place's own time and of those below it.
fn least_of(at: &[u64], least: &[u64], place: usize) -> u64
    requires { place < 2 ^ 32 }
    ensures { result ≡ least_below at.now least.now place }
{
    let left = time_at(least, 2 * place + 1);
    let right = time_at(least, 2 * place + 2);
    time_at(at, place).min(left.min(right))
}

/// The least of a place and of those above it are computed anew.
fn settle(at: &[u64], least: &mut [u64], place: usize)
    requires few { length at.now ≤ 2 ^ 32 }
    requires there { place < length at.now }
    requires sized { length least.old ≡ length at.now }
    requires others { NodesBut at.now least.old place }
    ensures sized { length least.new ≡ length at.now }
    ensures nodes { AllNodes at.now least.new }
{
    let mut i = place;
    while i > 0 {
        least[i] = least_of(at, least, i);
        i = (i - 1) / 2;
    }
    least[0] = least_of(at, least, 0);
}
