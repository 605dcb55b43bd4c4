//! Relays of long texts, whose frames are opened in threads: the log has them in the order of the
//! rounds, as it has short ones.

use crate::lanes::Lanes;
use crate::relay_asserts::assert_same;
use crate::watch::{Odd, Watch};
use krb_peers::{Event, Log};
use krb_relay::Cause;
use std::alloc::Global;
use std::process::Abort;
use std::test::Fail;

/// Of each text. Three frames have more bytes than are opened in one thread.
pub(super) const SIZE: usize = 150_000;

/// The texts of each lane by their bytes.
const TEXTS: [&[u8]; 3] = [b"abc", b"d", b"ef"];

/// The rounds: of each entry its lane, and the text's byte, or `b'.'` of a close.
const ROUNDS: [(u32, u8); 9] = [
    (0, b'a'),
    (1, b'd'),
    (2, b'e'),
    (0, b'b'),
    (1, b'.'),
    (2, b'f'),
    (0, b'c'),
    (2, b'.'),
    (0, b'.'),
];

/// Those of them in which the second record of the last lane isn't sealed.
const WITHOUT_LAST: [(u32, u8); 7] = [
    (0, b'a'),
    (1, b'd'),
    (2, b'e'),
    (0, b'b'),
    (1, b'.'),
    (0, b'c'),
    (0, b'.'),
];

/// The byte of a text of this size, `b'.'` of a close, and `b'!'` of anything else.
fn byte_of(event: &Event, size: usize) -> u8 {
    match event {
        Event::Text(text) => {
            let bytes = text.as_slice();
            match bytes.first() {
                Some(first) if bytes.len() == size && bytes.iter().all(|it| it == first) => *first,
                _ => b'!',
            }
        }
        Event::Closed => b'.',
        Event::Refused(_) => b'!',
    }
}

/// Asserts that a log has these rounds of texts of this size.
pub(super) fn assert_rounds(rt: &impl Abort, log: &Log, size: usize, rounds: &[(u32, u8)]) {
    assert_same(rt, log.entries().len(), rounds.len());
    for (entry, expected) in log.entries().iter().zip(rounds) {
        assert_same(rt, (entry.lane, byte_of(&entry.event, size)), *expected);
    }
}

/// What rounds have of a lane at a place among its own, or `None` past its last.
fn at_place(rounds: &[(u32, u8)], lane: u32, place: usize) -> Option<u8> {
    let mut passed = 0usize;
    for (of, byte) in rounds {
        if *of == lane {
            if passed == place {
                return Some(*byte);
            }
            passed = passed.wrapping_add(1);
        }
    }
    None
}

/// Asserts that what a log has of each lane begins as in these rounds.
pub(super) fn assert_begins(rt: &impl Abort, log: &Log, size: usize, rounds: &[(u32, u8)]) {
    let mut places = [0usize; 8];
    for entry in log.entries() {
        if let Some(place) = places.get_mut(entry.lane as usize) {
            let found = Some(byte_of(&entry.event, size));
            assert_same(rt, found, at_place(rounds, entry.lane, *place));
            *place = place.wrapping_add(1);
        }
    }
}

/// Lanes of long texts, of which the last one's sealer refuses this call.
pub(super) fn lanes_of(
    alloc: Global,
    gate: &Watch,
    all: &[&[u8]],
    fails_at: u64,
) -> Result<Lanes, Fail> {
    let mut lanes = Lanes::new(alloc);
    for (lane, texts) in all.iter().enumerate() {
        let odd = Odd {
            fails_at: if lane + 1 == all.len() { fails_at } else { 0 },
            wiped: false,
        };
        lanes.add_long(alloc, gate, false, odd, texts, SIZE)?;
    }
    Ok(lanes)
}

#[test]
fn long_texts_are_logged_in_rounds(rt: HostRuntime) -> Result<(), Fail> {
    for capacity in [1, 2, 64] {
        let gate = Watch::new(rt.alloc(), 0)?;
        let lanes = lanes_of(rt.alloc(), &gate, &TEXTS, 0)?;
        match lanes.run(&rt, rt.alloc(), capacity, &gate) {
            Ok(report) => assert_rounds(&rt, &report.log, SIZE, &ROUNDS),
            Err(_) => return Err(Fail::from("a fault")),
        }
    }
    Ok(())
}

#[test]
fn long_texts_of_a_lane_that_stops_are_logged(rt: HostRuntime) -> Result<(), Fail> {
    for capacity in [1, 2, 64] {
        let gate = Watch::new(rt.alloc(), 0)?;
        let lanes = lanes_of(rt.alloc(), &gate, &TEXTS, 2)?;
        let Err(fault) = lanes.run(&rt, rt.alloc(), capacity, &gate) else {
            return Err(Fail::from("no fault"));
        };
        assert_same(&rt, (fault.cause, fault.lane), (Cause::Memory, 2));
        assert_rounds(&rt, &fault.log, SIZE, &WITHOUT_LAST);
    }
    Ok(())
}
