//! Relays of many lanes, of whose frames the codes of a round are computed together: the log has what each
//! lane's frames are, in the order of the rounds.

use super::PLAIN;
use super::long::assert_rounds;
use crate::lanes::Lanes;
use crate::watch::Watch;
use std::alloc::Global;
use std::test::Fail;

/// Of each text. Five frames have more bytes than a round before one that is opened together.
pub const SIZE: usize = 900;

/// Of each lane whether its frames are KRB-PRIV of type 18, else KRB-SAFE of type 17, and its texts by their
/// bytes.
const TEXTS: [(bool, &[u8]); 8] = [
    (false, b"abc"),
    (true, b"def"),
    (true, b"gh"),
    (false, b"i"),
    (true, b"jkl"),
    (false, b"mno"),
    (true, b""),
    (false, b"pq"),
];

/// Lane 2 sends its first frame twice, and the second one is refused.
const PLAN: [usize; 4] = [0, 0, 1, 2];

/// The rounds, worked out by hand: of each entry its lane, and the text's byte, `b'.'` of a close and `b'!'`
/// of a refusal.
pub const ROUNDS: [(u32, u8); 26] = [
    (0, b'a'),
    (1, b'd'),
    (2, b'g'),
    (3, b'i'),
    (4, b'j'),
    (5, b'm'),
    (6, b'.'),
    (7, b'p'),
    (0, b'b'),
    (1, b'e'),
    (2, b'!'),
    (3, b'.'),
    (4, b'k'),
    (5, b'n'),
    (7, b'q'),
    (0, b'c'),
    (1, b'f'),
    (2, b'h'),
    (4, b'l'),
    (5, b'o'),
    (7, b'.'),
    (0, b'.'),
    (1, b'.'),
    (2, b'.'),
    (4, b'.'),
    (5, b'.'),
];

/// These lanes.
pub fn lanes_of(alloc: Global, gate: &Watch) -> Result<Lanes, Fail> {
    let mut lanes = Lanes::new(alloc);
    for (lane, (long, texts)) in TEXTS.iter().enumerate() {
        lanes.add_long(alloc, gate, *long, PLAIN, texts, SIZE)?;
        if lane == 2 {
            lanes.plan(alloc, &PLAN)?;
        }
    }
    Ok(lanes)
}

#[test]
fn frames_of_many_lanes_are_logged_in_rounds(rt: HostRuntime) -> Result<(), Fail> {
    for capacity in [1, 2, 64] {
        let gate = Watch::new(rt.alloc(), 0)?;
        let lanes = lanes_of(rt.alloc(), &gate)?;
        match lanes.run(&rt, rt.alloc(), capacity, &gate) {
            Ok(report) => assert_rounds(&rt, &report.log, SIZE, &ROUNDS),
            Err(_) => return Err(Fail::from("a fault")),
        }
    }
    Ok(())
}
