//! A shard of a sender: what each call answers, and that no session stands while others take its room and the carrier
//! loses all.

ghost use Rattle.std.specs.Prelude.{◌≡◌};

use krb_carry::Receipt;
use krb_engine::{Asks, Command};
use krb_sender::{Heard, Lane, Own, Row, Served, Times, Turn};
use std::process::Abort;
use std::test::Fail;

/// The digests of a sender's own frames, and of another one's.
const OWN: [u8; 20] = [1; 20];

const OTHER: [u8; 20] = [2; 20];

/// What the outbox has of a session of which so much is stored.
fn row_of(next: u64) -> Row
    ensures done { result.done ≡ 0 }
    ensures carried { result.carried ≡ 0 }
{
    Row {
        next,
        carried: 0,
        at: 0,
        done: 0,
        list: 5,
    }
}

// ---- what each call answers

/// What happens to a shard with one session, and what it answers.
#[derive(Clone, Copy)]
enum Step {
    Turns(u64, Option<Served>),
    Next(u64),
    Listed(Option<u64>),
    Sealed(u64),
    Confirmed(u64, u64, bool),
    Receipt(u64, Own, Heard),
    Release,
    Stop,
    Reload(u64),
}

fn take_step(rt: &impl Abort, lane: &mut Lane, step: &Step) {
    assert!(rt; lane.len() == 1);
    match *step {
        Step::Turns(now, served) => assert_eq!(rt; lane.turn(now), served),
        Step::Next(at) => assert_eq!(rt; lane.next_time(), at),
        Step::Listed(list) => lane.listed(list),
        Step::Sealed(count) => assert!(rt; lane.sealed(0, count)),
        Step::Confirmed(number, offset, counts) => {
            assert_eq!(rt; lane.confirmed(0, number, offset, 1_000), counts);
        }
        Step::Receipt(number, own, heard) => {
            let receipt = Receipt {
                number,
                history: OWN,
            };
            assert_eq!(rt; lane.receipt(0, &receipt, own, Asks::Nothing, 1_000), heard);
        }
        Step::Release => lane.release(0),
        Step::Stop => lane.stop(0),
        Step::Reload(next) => lane.reload(0, &row_of(next), true),
    }
}

/// The first session was served, of its own list or of a different one.
fn served(is_moved: bool, turn: Turn) -> Option<Served> {
    Some(Served {
        place: 0,
        is_moved,
        turn,
    })
}

fn publishes(from: u64, count: u64) -> Turn {
    Turn::Does(Command::Publish { from, count })
}

#[test]
fn a_session_is_served(rt: HostRuntime) -> Result<(), Fail> {
    let mut lane = Lane::new(rt.alloc());
    lane.add(&row_of(2), true)?;
    for step in &[
        // without a list nothing leaves, and an opening leaves once it is released
        Step::Turns(1_000, None),
        Step::Next(u64::MAX),
        Step::Listed(Some(7)),
        Step::Turns(1_000, served(true, Turn::Held)),
        Step::Next(1_100),
        Step::Turns(1_050, None),
        Step::Turns(1_100, served(false, Turn::Held)),
        Step::Release,
        Step::Next(1_100),
        Step::Turns(1_100, served(false, publishes(0, 2))),
        Step::Turns(
            1_100,
            served(false, Turn::Does(Command::Wake { at: 3_100 })),
        ),
        Step::Next(3_100),
        Step::Turns(1_100, None),
        // confirmations in turn, and a receipt of the own frames
        Step::Confirmed(1, 8, false),
        Step::Confirmed(0, 8, true),
        Step::Confirmed(1, 9, true),
        Step::Receipt(2, Own::Fault, Heard::Again),
        Step::Receipt(2, Own::Known(OWN), Heard::Delivered),
        Step::Receipt(2, Own::Known(OWN), Heard::Nothing),
        Step::Turns(1_200, served(false, Turn::Does(Command::Idle))),
        Step::Next(u64::MAX),
        // what is sealed leaves, and leaves again in another list
        Step::Sealed(3),
        Step::Turns(1_300, served(false, publishes(2, 3))),
        Step::Listed(Some(8)),
        Step::Turns(1_300, served(true, publishes(2, 3))),
        Step::Receipt(3, Own::Unknown, Heard::Delivered),
        Step::Receipt(5, Own::Known(OTHER), Heard::Ended),
        Step::Turns(1_400, served(false, Turn::Does(Command::Idle))),
        // what is loaded again, and is stopped
        Step::Reload(1),
        Step::Turns(1_500, served(true, Turn::Held)),
        Step::Stop,
        Step::Release,
        Step::Turns(1_600, served(false, Turn::Does(Command::Idle))),
        Step::Next(u64::MAX),
        Step::Listed(None),
        Step::Turns(9_000, None),
    ] {
        take_step(&rt, &mut lane, step);
    }
    lane.laws();
    Ok(())
}

#[test]
fn the_first_time_is_found(rt: HostRuntime) -> Result<(), Fail> {
    let mut times = Times::new(rt.alloc());
    assert_eq!(rt; times.first(), None);
    for _ in 0..7 {
        assert!(rt; times.len() < 7);
        times.add()?;
    }
    for (place, at, first) in [
        (5, 50, 5),
        (2, 60, 5),
        (6, 40, 6),
        (6, 90, 5),
        (5, 70, 2),
        (0, 60, 0),
    ] {
        assert!(rt; times.len() == 7 && place < 7);
        times.set(place, at);
        assert_eq!(rt; times.first(), Some(first));
        assert_eq!(rt; times.get(place), at);
    }
    Ok(())
}

// ---- no session stands

/// A carrier: the offset of its last frame, and how many took effect.
#[derive(Drop)]
struct Carrier {
    offset: u64,
    delivered: u64,
}

/// What leaves is carried and takes effect, which a receipt says.
fn deliver(lane: &mut Lane, carrier: &mut Carrier, place: u32, from: u64, count: u64, now: u64) {
    for k in 0..count.min(16) {
        if place as usize >= lane.len() {
            return;
        }
        carrier.offset = carrier.offset.saturating_add(1);
        lane.confirmed(place, from.saturating_add(k), carrier.offset, now);
    }
    if place as usize >= lane.len() {
        return;
    }
    let receipt = Receipt {
        number: from.saturating_add(count),
        history: OWN,
    };
    if lane.receipt(place, &receipt, Own::Known(OWN), Asks::Nothing, now) == Heard::Delivered {
        carrier.delivered = carrier.delivered.saturating_add(count);
    }
}

/// Turns at one time, and how many there were. What leaves is delivered, or lost.
fn turns(lane: &mut Lane, carrier: &mut Carrier, now: u64, is_lost: bool) -> u64 {
    for turn in 0..100_000 {
        let Some(served) = lane.turn(now) else {
            return turn;
        };
        if let Turn::Does(Command::Publish { from, count }) = served.turn {
            if !is_lost {
                deliver(lane, carrier, served.place, from, count, now);
            }
        }
    }
    100_000
}

/// 200 sessions have 16 frames each, more than their shard has room for, and nothing is confirmed for five seconds. All
/// are delivered within 64 seconds after that, and at no time a session has more than a few turns.
#[test]
fn none_stands(rt: HostRuntime) -> Result<(), Fail> {
    let mut lane = Lane::new(rt.alloc());
    lane.listed(Some(5));
    for _ in 0..200 {
        assert!(rt; lane.len() < 200);
        lane.add(&row_of(16), false)?;
    }
    let mut carrier = Carrier {
        offset: 0,
        delivered: 0,
    };
    for now in 0..50 {
        assert!(rt; turns(&mut lane, &mut carrier, 1_000 + 100 * now, true) <= 400);
    }
    assert_eq!(rt; carrier.delivered, 0);
    for now in 50..690 {
        assert!(rt; turns(&mut lane, &mut carrier, 1_000 + 100 * now, false) <= 800);
    }
    assert_eq!(rt; carrier.delivered, 3_200);
    assert_eq!(rt; lane.next_time(), u64::MAX);
    Ok(())
}
