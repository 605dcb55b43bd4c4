//! The rule of carried frames, on which it rests that all texts arrive.

ghost use Rattle.std.specs.Prelude.{◌≡◌, ◌↔◌, ◌+◌, ◌<◌, ◌≤◌, ◌^◌, IsTrue, IsSome, IfSome};
ghost use Rattle.krb_carry.specs.Progress.{Counts, after, progress_of, resumed};
ghost use Rattle.krb_carry.specs.Progress.{Store, Publish, Rewind, Confirm};
ghost use Rattle.krb_carry.specs.Laws.{CountedStandInTurn, CountedStandInside, NotCarriedIsPublishedAgain, CarriedIsAccepted, CarriedTakesEffect, ComparingLessIsEnough, ComparingLessIsEnoughFromAny, ReadingsAreAttempts, ReceiptsStayTrue};

use std::marker::Model;

/// How far the frames of one session are carried.
///
/// Publishing doesn't wait for confirmations, so a carrier may fail to store a frame and store the
/// next one. A receiver refuses that one and passes it by, so it has to come again, after the one
/// that is missing. Hence a frame counts as carried only when a copy of it stands after the counted
/// copy of the one before ([`confirm`](Progress::confirm)), and what isn't carried in time is
/// published again with all that follow it ([`rewind`](Progress::rewind)).
#[derive(Debug, Drop)]
pub struct Progress {
    next: u64,
    carried: u64,
    at: u64,
    sent: u64,
}

impl Model for Progress {
    ghost use Rattle.std.specs.Prelude.{◌≤◌};
    ghost use Rattle.krb_carry.specs.ProgressState.{ProgressState};

    ghost Value = { ProgressState };

    ghost view = { λ progress. record { next = progress.next; carried = progress.carried; at = progress.at; sent = progress.sent } };

    ghost invariant = { λ progress. (progress.carried ≤ progress.sent) × (progress.sent ≤ progress.next) };
}

impl Progress {
    /// The progress of a session that continues where so much was stored: all that isn't carried
    /// counts as not published.
    pub fn new(next: u64, carried: u64, at: u64) -> Progress
        requires { carried ≤ next }
        ensures { result ≡ resumed next carried at }
    {
        Progress {
            next,
            carried,
            at,
            sent: carried,
        }
    }

    /// The progress with these numbers, if there is one: a frame is published only if it is stored,
    /// and all that is carried counts as published.
    pub fn restore(next: u64, carried: u64, at: u64, sent: u64) -> Option<Progress>
        ensures variant { IsSome result ↔ ((carried ≤ sent) × (sent ≤ next)) }
        ensures value { IfSome result (λ progress. progress ≡ progress_of next carried at sent) }
    {
        if carried > sent || sent > next {
            return None;
        }
        Some(Progress {
            next,
            carried,
            at,
            sent,
        })
    }

    /// The frames below this number are stored.
    pub fn next(&self) -> u64
        ensures { result ≡ self.now.next }
    {
        self.next
    }

    /// The frames below this number count as carried.
    pub fn carried(&self) -> u64
        ensures { result ≡ self.now.carried }
    {
        self.carried
    }

    /// The offset of the last frame that counts as carried.
    pub fn at(&self) -> u64
        ensures { result ≡ self.now.at }
    {
        self.at
    }

    /// The frames below this number were published.
    pub fn sent(&self) -> u64
        ensures number { result ≡ self.now.sent }
        ensures carried { self.now.carried ≤ result }
        ensures next { result ≤ self.now.next }
    {
        self.sent
    }

    /// So many frames more are stored.
    pub fn store(&mut self, count: u64)
        requires { self.old.next + count < 2 ^ 64 }
        ensures { self.new ≡ after self.old (Store count) }
    {
        self.next += count;
    }

    /// So many frames more were published.
    pub fn publish(&mut self, count: u64)
        requires { self.old.sent + count ≤ self.old.next }
        ensures { self.new ≡ after self.old (Publish count) }
    {
        self.sent += count;
    }

    /// A copy of the frame of this number stands at this offset: whether it counts. Then one more
    /// is carried.
    pub fn confirm(&mut self, number: u64, offset: u64) -> bool
        ensures counts { IsTrue result ↔ Counts self.old number offset }
        ensures state { self.new ≡ after self.old (Confirm number offset) }
    {
        if number != self.carried || self.carried >= self.next || offset <= self.at {
            return false;
        }
        self.carried += 1;
        self.at = offset;
        self.sent = self.sent.max(self.carried);
        true
    }

    /// All that isn't carried is to be published again: how many frames were published and don't
    /// count.
    pub fn rewind(&mut self) -> u64
        ensures again { result + self.old.carried ≡ self.old.sent }
        ensures state { self.new ≡ after self.old Rewind }
    {
        let again = self.sent - self.carried;
        self.sent = self.carried;
        again
    }
}

/// Why all texts arrive.
///
/// A shard is what a carrier stored, of many sessions, in order. It may have frames repeated, early,
/// changed or made up. Whatever happens to a sender, if each confirmation that it hears is true, the
/// frames that count as carried stand in the shard one after the other (`in_turn`), and none beyond
/// its end (`inside`). From a rewind on, and of a progress that is new or was stored, a frame that doesn't
/// count as carried counts as published only if it was published again (`again`). A sender that is started again continues at a progress that was stored, as if
/// what came after had not happened.
///
/// Receivers read a shard on from the stored offset. A transaction compares and moves the offset and
/// the demand, and writes the effects, all or nothing, so what [`store_laws`](crate::store_laws)
/// says holds (`attempts`). Once the stored offset is past the last frame that counts as carried,
/// each frame that counts was accepted (`accepted`), and if all frames count, all texts took effect,
/// and what is demanded is what comes after all records (`whole`): whatever receivers died, were
/// slow, or came twice, wherever they stopped, and whatever they passed by. They agree with the
/// sender on mode and addresses, and take a frame that they demand within the skew.
///
/// A shard may be another one than before, since its carrier lost all or was replaced. It is read from
/// its beginning, whatever attempts came before. Then the sender begins with the first frame of which
/// it has no receipt, and none below counts (a receipt once true stays true: `receipts`).
///
/// It is enough to compare the offset, and the number where something was accepted, if receivers
/// read the offset first, and then the demand (`less`), from whatever was stored before (`less_from`). The other way round it isn't: a frame could
/// be passed by, since a number before it was demanded, and its offset be stored.
///
/// That a sender goes on publishing, that a carrier keeps what it confirmed, and that some receiver
/// goes on reading, is assumed and not claimed.
pub fn progress_laws()
    ensures in_turn { CountedStandInTurn }
    ensures inside { CountedStandInside }
    ensures again { NotCarriedIsPublishedAgain }
    ensures accepted { CarriedIsAccepted }
    ensures whole { CarriedTakesEffect }
    ensures less { ComparingLessIsEnough }
    ensures less_from { ComparingLessIsEnoughFromAny }
    ensures attempts { ReadingsAreAttempts }
    ensures receipts { ReceiptsStayTrue }
{}
