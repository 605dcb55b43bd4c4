//! The turns of a stepped relay.

/// The next event of one lane. Lanes are numbered from 0 on.
#[derive(Clone, Copy, Debug, PartialEq, Eq)]
pub enum Turn {
    /// This lane's sender sends what comes next: a frame, or the end after all frames.
    Send(u32),
    /// This lane's receiver takes the first item of the queue.
    Take(u32),
}

/// What a turn did.
#[derive(Clone, Copy, Debug, PartialEq, Eq)]
pub enum Did {
    /// Its event took place.
    Moved,
    /// Its event is impossible now, and nothing changed: there is no room to send or nothing to
    /// take, or the end was sent or taken.
    Waits,
}
