//! A relay's turns, where each allocation in turn may fail: each turn does what is known, or is out
//! of memory with nothing changed, and then the same turn with memory does it. `tests/failing_calls` makes the
//! allocations fail, and counts the lines that report it.

ghost use Rattle.std.specs.Prelude.{◌≡◌, ◌<◌, length};
ghost use Rattle.krb_core.specs.Stepped.{lane_of};

use super::steps::{is_whole, relay_of_one};
use crate::relay_asserts::assert_same;
use krb_core::{Did, Stepped, Turn};
use std::io::Print;
use std::process::Abort;
use std::test::Fail;

/// What is seen of a relay of one lane: how many entries its log has, and whether it is done.
fn seen(relay: &Stepped) -> (usize, bool) {
    (relay.log().entries().len(), relay.done())
}

/// Asserts that a turn does so and is then seen so, or wants memory, changes nothing and then does
/// so. Answers whether it wanted memory.
fn turns(rt: &impl Abort, relay: &mut Stepped, turn: Turn, did: Did, after: (usize, bool)) -> bool
    requires lane { lane_of turn < length relay.old.tracks }
    ensures lanes { length relay.new.tracks ≡ length relay.old.tracks }
{
    let before = seen(relay);
    let mut answer = relay.step(turn);
    let refused = answer.is_err();
    if refused {
        assert_same(rt, seen(relay), before);
        answer = relay.step(turn);
    }
    assert!(rt; matches!(answer, Ok(done) if done == did));
    assert_same(rt, seen(relay), after);
    refused
}

/// Asserts the same, and tells where it wanted memory.
fn assert_turns(
    rt: &(impl Abort + Print),
    relay: &mut Stepped,
    place: u32,
    turn: Turn,
    did: Did,
    after: (usize, bool),
) -> Result<(), Fail>
    requires lane { lane_of turn < length relay.old.tracks }
    ensures lanes { length relay.new.tracks ≡ length relay.old.tracks }
{
    if turns(rt, relay, turn, did, after) {
        println!(rt; "refused: step, turn {place}")?;
    }
    Ok(())
}

#[test]
fn each_turn_is_done_or_memory_wanted(rt: HostRuntime) -> Result<(), Fail> {
    let mut relay = relay_of_one(&rt, rt.alloc())?;
    let (send, take) = (true, false);
    for (place, sends, did, after) in [
        (1, send, Did::Moved, (0, false)),
        (2, send, Did::Waits, (0, false)),
        (3, take, Did::Moved, (1, false)),
        (4, take, Did::Waits, (1, false)),
        (5, send, Did::Moved, (1, false)),
        (6, take, Did::Moved, (2, false)),
        (7, send, Did::Moved, (2, false)), // the end
        (8, take, Did::Moved, (2, true)),
        (9, send, Did::Waits, (2, true)),
        (10, take, Did::Waits, (2, true)),
    ] {
        let turn = if sends { Turn::Send(0) } else { Turn::Take(0) };
        assert_turns(&rt, &mut relay, place, turn, did, after)?;
    }
    assert!(rt; is_whole(relay.log()));
    Ok(())
}
