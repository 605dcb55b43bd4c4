//! Relays that are stepped to their end, turn by turn.

ghost use Rattle.std.specs.Prelude.{◌≡◌, ◌<◌, length, IfOk};
ghost use Rattle.krb_core.specs.Stepped.{lane_of};

use super::PLAIN;
use crate::lanes::Lanes;
use crate::relay_asserts::assert_same;
use crate::watch::Watch;
use krb_core::{Did, Event, Log, Stepped, Turn};
use std::alloc::{AllocError, Global};
use std::process::Abort;
use std::test::Fail;

/// A relay of one sender that says `h`, at capacity 1.
pub(super) fn relay_of_one(rt: &impl Abort, alloc: Global) -> Result<Stepped, Fail>
    ensures { IfOk result (λ stepped. length stepped.tracks ≡ 1) }
{
    let gate = Watch::new(alloc, 0)?;
    let mut lanes = Lanes::new(alloc);
    lanes.add(alloc, &gate, false, PLAIN, b"h", 1)?;
    assert!(rt; lanes.sendings.len() == 1);
    Ok(lanes.begin(rt, alloc, 1)?)
}

const SEND: Turn = Turn::Send(0);

const TAKE: Turn = Turn::Take(0);

/// Whether the log has the text `h` and then the close.
pub(super) fn is_whole(log: &Log) -> bool {
    match log.entries() {
        [first, second] => {
            matches!(&first.event, Event::Text(text) if text.as_slice() == b"h".as_slice())
                && matches!(&second.event, Event::Closed)
        }
        _ => false,
    }
}

/// Asserts what a turn does, and whether the relay is done then.
fn assert_turn(
    rt: &impl Abort,
    relay: &mut Stepped,
    turn: Turn,
    did: Did,
    done: bool,
) -> Result<(), AllocError>
    requires lane { lane_of turn < length relay.old.tracks }
    ensures lanes { length relay.new.tracks ≡ length relay.old.tracks }
{
    assert_same(rt, relay.step(turn)?, did);
    assert_same(rt, relay.done(), done);
    Ok(())
}

#[test]
fn turn_by_turn(rt: HostRuntime) -> Result<(), Fail> {
    let mut relay = relay_of_one(&rt, rt.alloc())?;
    let (send, take) = (true, false);
    for (sends, did, done) in [
        (send, Did::Moved, false),
        (send, Did::Waits, false),
        (take, Did::Moved, false),
        (take, Did::Waits, false),
        (send, Did::Moved, false),
        (take, Did::Moved, false),
        (send, Did::Moved, false),
        (take, Did::Moved, true),
        (send, Did::Waits, true),
        (take, Did::Waits, true),
    ] {
        let turn = if sends { SEND } else { TAKE };
        assert_turn(&rt, &mut relay, turn, did, done)?;
    }
    assert!(rt; is_whole(relay.log()));
    let sent = relay.sent(0);
    assert_same(&rt, (sent.sealed, sent.texts), (1, 1));
    Ok(())
}

#[test]
fn turns_in_a_row(rt: HostRuntime) -> Result<(), Fail> {
    let mut relay = relay_of_one(&rt, rt.alloc())?;
    relay.run(&[SEND, SEND, TAKE, TAKE, SEND, TAKE, SEND, TAKE])?;
    assert!(rt; is_whole(relay.log()) && relay.done());
    let sent = relay.sent(0);
    assert_same(&rt, (sent.sealed, sent.texts), (1, 1));
    Ok(())
}

#[test]
fn turns_of_a_part(rt: HostRuntime) -> Result<(), Fail> {
    let mut relay = relay_of_one(&rt, rt.alloc())?;
    relay.run(&[SEND, TAKE, SEND, TAKE])?;
    assert!(rt; is_whole(relay.log()) && !relay.done());
    relay.run(&[TAKE, SEND, TAKE, TAKE])?;
    assert!(rt; is_whole(relay.log()) && relay.done());
    Ok(())
}
