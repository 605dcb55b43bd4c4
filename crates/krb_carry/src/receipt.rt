//! What a sender does about a receipt.

ghost use Rattle.std.specs.Prelude.{◌≡◌, map};
ghost use Rattle.krb_carry.specs.History.{with_frames};
ghost use Rattle.krb_carry.specs.Receipt.{Finds};

use crate::{HISTORY_SIZE, with_frame};

/// What a receiver says of a session.
#[derive(Clone, Copy, Debug, PartialEq, Eq)]
pub struct Receipt {
    /// All frames below this number took effect.
    pub number: u64,
    /// Their digest, from the session's first frame on.
    pub history: [u8; HISTORY_SIZE],
}

/// What a sender finds by a receipt.
#[derive(Clone, Copy, Debug, PartialEq, Eq)]
pub enum Finding {
    /// It says nothing new.
    Repeat,
    /// The sender's own frames below its number took effect.
    Delivered,
    /// More took effect than this outbox has sealed: it is an older copy.
    Older,
    /// Other frames than its own took effect: it is an older copy, or another copy of it is used.
    Forked,
}

/// Adds a sender's own frames, in their order, to the digest of its frames before them.
pub fn own_history(before: &[u8; HISTORY_SIZE], frames: &[&[u8]]) -> [u8; HISTORY_SIZE]
    ensures { result ≡ with_frames before.now (map (λ frame. frame.now) frames.now) }
{
    let mut history = *before;
    for frame in frames {
        history = with_frame(&history, frame);
    }
    history
}

/// Compares a receipt with a sender's own frames: `own` is the digest of those below the receipt's
/// number. The sender took all texts below `done` for delivered, and seals `next` next. If the receipt's
/// number is above `next`, or isn't above `done`, `own` isn't read.
pub fn compare_receipt(done: u64, next: u64, own: &[u8; HISTORY_SIZE], receipt: &Receipt) -> Finding
    ensures { Finds done next own.now receipt.now result }
{
    if receipt.number <= done {
        return Finding::Repeat;
    }
    if receipt.number > next {
        return Finding::Older;
    }
    if *own == receipt.history {
        Finding::Delivered
    } else {
        Finding::Forked
    }
}
