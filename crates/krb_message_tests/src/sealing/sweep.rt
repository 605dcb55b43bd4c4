//! A receiver's answers and a log's entries, where each allocation in turn may fail: each answer is
//! the known one, or out of memory with nothing changed, and then the same call with memory gives
//! the known one. `tests/failing_calls` makes the allocations fail, and counts the lines that report it.

ghost use Rattle.std.specs.Prelude.{◌≡◌, IfOk};

use super::frames::SAFE_17;
use super::records::{PRIV_BATCH, PRIV_CLOSE, PRIV_TEXT, SAFE_BATCH, SAFE_CLOSE};
use super::{MICROS, opener};
use crate::peers_asserts::assert_same;
use krb_base::Bytes;
use krb_der::Moment;
use krb_peers::{Delivery, Log, Receiver, Texts};
use krb_seal::{Mode, Refusal};
use std::alloc::{AllocError, Global};
use std::io::Print;
use std::process::Abort;
use std::test::Fail;

/// A receiver of 10.0.0.1 that demands the number 7.
fn receiver(alloc: Global, mode: Mode) -> Result<Receiver, AllocError> {
    Ok(Receiver::new(opener(alloc, false, mode)?, 7))
}

/// Whether an answer is a text, the letters of a batch's texts, or one word.
fn is_answer(answer: &Result<Delivery, Refusal>, expected: &str) -> bool {
    match answer {
        Ok(Delivery::Text(text)) => text.as_slice() == expected.as_bytes(),
        Ok(Delivery::Batch(texts)) => are_letters(texts.as_slice(), expected),
        Ok(Delivery::Closed) => expected == "closed",
        Err(refusal) => refusal.name() == expected,
    }
}

/// Whether the texts are these letters, one each.
fn are_letters(texts: &[Bytes], letters: &str) -> bool {
    for (text, letter) in texts.iter().zip(letters.as_bytes()) {
        if text.as_slice() != [*letter].as_slice() {
            return false;
        }
    }
    texts.len() == letters.len()
}

/// Asserts that a receiver which demands `number` answers a frame so, or wants memory, stands as
/// before and then answers so. Answers whether it wanted memory.
fn takes(
    rt: &impl Abort,
    alloc: Global,
    receiver: &mut Receiver,
    frame: &[u8],
    number: u64,
    word: &str,
) -> Result<bool, Fail> {
    let now = Moment::from_micros(MICROS).ok_or("a moment")?;
    let mut answer = receiver.take(alloc, frame, now);
    let refused = matches!(answer, Err(Refusal::Memory));
    if refused {
        assert_same(
            rt,
            (receiver.expected(), receiver.closed()),
            (number, false),
        );
        answer = receiver.take(alloc, frame, now);
    }
    assert!(rt; is_answer(&answer, word));
    Ok(refused)
}

/// Asserts the same, and tells where it wanted memory.
fn assert_takes(
    rt: &(impl Abort + Print + Alloc<A = Global>),
    receiver: &mut Receiver,
    name: &str,
    frame: &[u8],
    number: u64,
    word: &str,
) -> Result<(), Fail> {
    if takes(rt, rt.alloc(), receiver, frame, number, word)? {
        println!(rt; "refused: take of {name}, {word} at {number}")?;
    }
    Ok(())
}

/// Asserts the same of a text and the close, each out of its place and then in it.
fn assert_takes_both(
    rt: &(impl Abort + Print + Alloc<A = Global>),
    name: &str,
    mode: Mode,
    text: &[u8],
    close: &[u8],
) -> Result<(), Fail> {
    let mut receiver = receiver(rt.alloc(), mode)?;
    for (frame, number, word) in [
        (close, 7, "BADORDER"),
        (text, 7, "hi"),
        (text, 8, "BADORDER"),
        (close, 8, "closed"),
    ] {
        assert_takes(rt, &mut receiver, name, frame, number, word)?;
    }
    assert_same(rt, (receiver.expected(), receiver.closed()), (9, true));
    Ok(())
}

#[test]
fn frame_is_taken_or_memory_wanted(rt: HostRuntime) -> Result<(), Fail> {
    for (name, mode, text, close) in [
        (
            "KRB-SAFE",
            Mode::Safe,
            SAFE_17.as_slice(),
            SAFE_CLOSE.as_slice(),
        ),
        ("KRB-PRIV", Mode::Priv, &PRIV_TEXT, &PRIV_CLOSE),
    ] {
        assert_takes_both(&rt, name, mode, text, close)?;
    }
    Ok(())
}

#[test]
fn batch_is_taken_or_memory_wanted(rt: HostRuntime) -> Result<(), Fail> {
    for (name, mode, frame) in [
        ("KRB-SAFE", Mode::Safe, SAFE_BATCH.as_slice()),
        ("KRB-PRIV", Mode::Priv, &PRIV_BATCH),
    ] {
        let mut receiver = receiver(rt.alloc(), mode)?;
        assert_takes(&rt, &mut receiver, name, frame, 7, "ab")?;
        assert_same(&rt, (receiver.expected(), receiver.closed()), (8, false));
    }
    Ok(())
}

/// The texts `a` and `b`.
fn two_texts(alloc: Global) -> Result<Texts, AllocError> {
    let first = Bytes::new(Vec::from_slice(alloc, b"a")?);
    let second = Bytes::new(Vec::from_slice(alloc, b"b")?);
    Ok(Texts::new(vec![in alloc; first, second]?))
}

/// A log of one lane that has them, and whether it wanted memory for them first.
fn logged(rt: &impl Abort, alloc: Global) -> Result<(Log, bool), Fail>
    ensures { IfOk result (λ logged. logged.0.lanes ≡ 1) }
{
    let mut log = Log::new(alloc, 1);
    let refused = log.push_batch(0, two_texts(alloc)?).is_err();
    if refused {
        assert_same(rt, (log.entries().len(), log.texts(0)), (0, 0));
        log.push_batch(0, two_texts(alloc)?)?;
    }
    Ok((log, refused))
}

#[test]
fn batch_is_logged_or_memory_wanted(rt: HostRuntime) -> Result<(), Fail> {
    let (log, refused) = logged(&rt, rt.alloc())?;
    if refused {
        println!(rt; "refused: push_batch")?;
    }
    assert_same(&rt, (log.entries().len(), log.texts(0)), (2, 2));
    assert_same(&rt, log.text(0, 0), Some(b"a".as_slice()));
    assert_same(&rt, log.text(0, 1), Some(b"b".as_slice()));
    Ok(())
}
