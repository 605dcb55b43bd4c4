//! A session's end at a sender, as C writes it.

ghost use Rattle.std.specs.Prelude.{◌≡◌, ◌↔◌, IfSome, IsSome};
ghost use Rattle.krb_carrier_structs.specs.Pause.{told_pause};
ghost use Rattle.krb_carrier_structs.specs.Sending.{IsSending, Tells, told_parts, told_sending, when};

use crate::numbers::{ended_of, number_of_ended};
use crate::pause::KrbPause;
use crate::progress::KrbProgress;
use krb_engine::{Pause, Sending, SendingParts};

/// One session's end at a sender.
#[repr(C)]
#[derive(Clone, Copy)]
pub struct KrbSending {
    /// How far its frames are carried, for the list of the shard.
    pub progress: KrbProgress,
    /// The frames below this number took effect: they may be deleted.
    pub done: u64,
    /// The list of the shard.
    pub list: u64,
    /// Until `done` reaches this number, no more than `window` frames from `done` on leave.
    pub recovers: u64,
    /// How many frames may be under way: not 0.
    pub window: u64,
    /// Since a receiver was heeded that asked again, if `is_asked`.
    pub ask: KrbPause,
    /// Since something was published or confirmed.
    pub again: KrbPause,
    /// Since a receipt was due.
    pub probe: KrbPause,
    /// Not 0: a receiver was heeded that asked again.
    pub is_asked: u32,
    /// Not 0: nothing leaves until that pause is over.
    pub is_held: u32,
    /// Not 0: a receipt came.
    pub is_answered: u32,
    /// Why it is stopped: this outbox is an older copy (1), or other frames than its own took effect (2).
    /// 0: it isn't.
    pub ended: u32,
}

impl KrbSending {
    /// The struct of an end.
    pub fn of(sending: &Sending) -> KrbSending
        ensures { Tells result sending.now }
    {
        let parts = sending.parts();
        KrbSending {
            progress: KrbProgress {
                next: parts.next,
                carried: parts.carried,
                at: parts.at,
                sent: parts.sent,
            },
            done: parts.done,
            list: parts.list,
            recovers: parts.recovers,
            window: parts.window,
            ask: pause_or_zeros(parts.ask),
            again: KrbPause::of(parts.again),
            probe: KrbPause::of(parts.probe),
            is_asked: u32::from(parts.ask.is_some()),
            is_held: u32::from(parts.is_held),
            is_answered: u32::from(parts.is_answered),
            ended: number_of_ended(parts.ended),
        }
    }

    /// The end that it tells, if it tells one.
    pub fn sending(&self) -> Option<Sending>
        ensures variant { IsSome result ↔ IsSending self.now }
        ensures value { IfSome result (λ sending. sending ≡ told_sending self.now) }
    {
        if self.ended > 2 {
            return None;
        }
        Sending::restore(&self.parts())
    }

    fn parts(&self) -> SendingParts
        ensures { result ≡ told_parts self.now }
    {
        SendingParts {
            next: self.progress.next,
            carried: self.progress.carried,
            at: self.progress.at,
            sent: self.progress.sent,
            done: self.done,
            list: self.list,
            recovers: self.recovers,
            window: self.window,
            ask: pause_if(self.is_asked, &self.ask),
            is_held: self.is_held != 0,
            again: self.again.pause(),
            probe: self.probe.pause(),
            is_answered: self.is_answered != 0,
            ended: ended_of(self.ended),
        }
    }
}

/// A pause, if the flag says so.
fn pause_if(says: u32, pause: &KrbPause) -> Option<Pause>
    ensures { result ≡ when says pause.now }
{
    if says == 0 {
        return None;
    }
    Some(pause.pause())
}

/// The struct of a pause, or zeros.
fn pause_or_zeros(pause: Option<Pause>) -> KrbPause
    ensures { IfSome pause (λ p. told_pause result ≡ p) }
{
    match pause {
        Some(pause) => KrbPause::of(pause),
        None => KrbPause {
            since: 0,
            length: 0,
        },
    }
}
