//! What the tests of several modules assert.

ghost use Rattle.std.specs.Prelude.{◌≡◌, ◌<◌, All, length, nat_le};
ghost use Rattle.std.specs.List.{list_all};
ghost use Rattle.krb_base.specs.Limits.{text_limit};
ghost use Rattle.krb_peers.specs.Sending.{source_of, IsSender};

use krb_base::{BATCH_LIMIT, Bytes, LAST_NUMBER, TEXT_LIMIT};
use krb_peers::{Event, Log, Receiving, Sending};
use krb_seal::Sealer;
use std::fmt::Debug;
use std::process::Abort;

/// Asserts that two values are the same, and prints both where they aren't.
pub(crate) fn assert_same<T: PartialEq + Debug + Drop>(rt: &impl Abort, left: T, right: T) {
    assert_eq!(rt; left, right);
}

/// Whether an event is the text of this word, a close, or the refusal of this name.
fn is_event(event: &Event, word: &str) -> bool {
    match event {
        Event::Text(text) => text.as_slice() == word.as_bytes(),
        Event::Closed => word == "closed",
        Event::Refused(refusal) => refusal.name() == word,
    }
}

/// Asserts that a log has these entries: the lane, and the text, `closed` or the refusal's name.
pub(crate) fn assert_log(rt: &impl Abort, log: &Log, expected: &[(u32, &str)]) {
    assert_same(rt, log.entries().len(), expected.len());
    for (place, (entry, (lane, word))) in log.entries().iter().zip(expected).enumerate() {
        let right = entry.lane == *lane && is_event(&entry.event, word);
        assert!(rt; right, "entry {place}: lane {lane}, {word}");
    }
}

fn are_short(texts: &[Bytes]) -> bool
    ensures { result ≡ list_all (λ text. nat_le (length text) text_limit) texts.now }
{
    texts.iter().all(|text| text.as_slice().len() <= TEXT_LIMIT)
}

/// Asserts the limits of a sender.
pub(crate) fn assert_sender<S: Sealer>(rt: &impl Abort, sending: &Sending<S>)
    ensures { IsSender (source_of S.state sending.now) }
{
    assert!(rt; are_short(sending.texts.as_slice()) && sending.batch <= BATCH_LIMIT);
    assert!(rt; !sending.ats.is_empty());
    assert!(rt; sending.sealer.next() <= LAST_NUMBER);
}

/// Asserts the limits of all senders.
pub(crate) fn assert_senders<S: Sealer>(rt: &impl Abort, sendings: &[Sending<S>])
    ensures { All (λ sending. IsSender (source_of S.state sending)) sendings.now }
{
    for sending in sendings {
        assert_sender(rt, sending);
    }
}

/// Asserts that each receiver has a moment.
pub(crate) fn assert_receivers(rt: &impl Abort, receivings: &[Receiving])
    ensures { All (λ receiving. 0 < length receiving.nows.items) receivings.now }
{
    for receiving in receivings {
        assert!(rt; !receiving.nows.is_empty());
    }
}
