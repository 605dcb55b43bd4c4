//! The parts of a session's end at a sender.

use crate::{Ended, Pause};

/// All that a session's end at a sender is, for a caller that keeps it as plain values.
#[derive(Clone, Copy, Debug)]
pub struct SendingParts {
    /// The frames below this number are stored.
    pub next: u64,
    /// The frames below this number count as carried.
    pub carried: u64,
    /// The offset of the last frame that counts as carried.
    pub at: u64,
    /// The frames below this number were published.
    pub sent: u64,
    /// The frames below this number took effect.
    pub done: u64,
    /// The list of the shard for which frames count as carried.
    pub list: u64,
    /// Until `done` reaches this number, no more than `window` frames from `done` on leave.
    pub recovers: u64,
    /// How many frames may be under way.
    pub window: u64,
    /// Since a receiver was heeded that asked again.
    pub ask: Option<Pause>,
    /// Whether nothing leaves until that pause is over.
    pub is_held: bool,
    /// Since something was published or confirmed.
    pub again: Pause,
    /// Since a receipt was due.
    pub probe: Pause,
    /// Whether a receipt came.
    pub is_answered: bool,
    /// Why it is stopped.
    pub ended: Option<Ended>,
}
