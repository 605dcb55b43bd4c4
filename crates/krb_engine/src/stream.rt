//! Sessions of a stream at a receiver, which come one after the other.

ghost use Rattle.std.specs.Prelude.{◌≡◌};
ghost use Rattle.krb_engine.specs.Stream.{judged};
ghost use Rattle.krb_engine.specs.StreamLaws.{BeginsAfterTheClose, FirstOneBegins, OwnHistoryGoesOn, StreamsTakeEffectInOrder, WholeStreamsTakeEffect};

use krb_carry::{Receipt, delivery_laws, histories_laws};

/// The last session of a stream that a store has.
#[derive(Clone, Copy, Debug, PartialEq, Eq)]
pub struct Head {
    /// Which session of the stream it is, from 1 on.
    pub turn: u64,
    /// Whether its close took effect.
    pub closed: bool,
    /// The number after all that took effect in it, and their digest.
    pub took: Receipt,
}

/// What an opening says of its session.
#[derive(Clone, Copy, Debug, PartialEq, Eq)]
pub struct Opening {
    /// Which session of the stream it is, from 1 on.
    pub turn: u64,
    /// The number after all that its sender sealed in the session before it, and their digest.
    pub before: Receipt,
}

/// What an opening is taken for.
#[derive(Clone, Copy, Debug, PartialEq, Eq)]
pub enum Judged {
    /// Its session begins.
    Begins,
    /// Its turn comes later: it has to come again.
    Later,
    /// Another session had its turn, or what took effect before it isn't what it continues.
    Forked,
}

/// Judges an opening by the last session of its stream, if the store has one.
pub fn judge(head: Option<Head>, opening: &Opening) -> Judged
    ensures { result ≡ judged head opening.now }
{
    let Some(head) = head else {
        return if opening.turn == 1 {
            Judged::Begins
        } else {
            Judged::Later
        };
    };
    if opening.turn <= head.turn {
        return Judged::Forked;
    }
    if opening.turn - head.turn > 1 || !head.closed {
        return Judged::Later;
    }
    if opening.before.number == head.took.number && opening.before.history == head.took.history {
        Judged::Begins
    } else {
        Judged::Forked
    }
}

/// What holds of a stream, whose sessions come one after the other.
///
/// A session begins only after the close of the one before it took effect, on the number and the digest
/// that its opening names (`begins`). Where there is none before it, the first one begins, and no other (`first`). So its sender sealed all that took effect in that one: its own frames
/// there have the tags of those that took effect, or two texts with one SHA-1 are found (`own`). Then what takes effect of all sessions together is a prefix of the texts that were put
/// in, over all sessions, in their order and each once (`order`), whatever processes of both ends died,
/// were slow or came twice, and whatever the carrier does. It is all of them, once nothing waits in any
/// session and each is done, by receipts (`all`).
///
/// In `order` and `all` each session has one outbox. Where an outbox is restored or copied,
/// [`copies_laws`](krb_carry::copies_laws) speak of each session, and `own` of where one ends and the next
/// begins.
pub fn stream_laws()
    ensures begins { BeginsAfterTheClose }
    ensures first { FirstOneBegins }
    ensures own { OwnHistoryGoesOn }
    ensures order { StreamsTakeEffectInOrder }
    ensures all { WholeStreamsTakeEffect }
{
    delivery_laws();
    histories_laws();
}
