//! That the program relays within the gate that it is given, with workers that seal at once, and
//! with lanes of the job's capacity.

use crate::program_asserts::assert_same_at;
use krb_program::obey;
use krb_relay::Gate;
use std::io::BufWriter;
use std::sync::atomic::{AtomicU64, Ordering};
use std::test::Fail;

/// How often the gate looks for a call that has to come.
const TURNS: u64 = 1_000_000_000;

/// How often it looks for one that may not come.
const FURTHER_TURNS: u64 = 100_000_000;

/// Whether a number comes to stand there within so many turns.
fn comes_to(word: &AtomicU64, least: u64, turns: u64) -> bool {
    for _ in 0..turns {
        if word.load(Ordering::SeqCst) >= least {
            return true;
        }
    }
    false
}

/// Holds the first seal call of lane 1 until lane 0 has begun so many, and looks for further ones.
///
/// The receiver takes the first frame of lane 0 and waits for lane 1. So lane 0 seals that frame,
/// those that its lane holds, and one that waits for room.
#[derive(Drop)]
struct HeldGate {
    calls: u64,
    entered: [AtomicU64; 2],
    left: [AtomicU64; 2],
    seen: AtomicU64,
}

impl HeldGate {
    /// How many calls lane 0 had begun while the first of lane 1 was held, how many each lane has
    /// begun, and how many of these have left the gate.
    fn counts(&self) -> (u64, [u64; 2], [u64; 2]) {
        let [entered, other_entered] = &self.entered;
        let [left, other_left] = &self.left;
        (
            self.seen.load(Ordering::SeqCst),
            [
                entered.load(Ordering::SeqCst),
                other_entered.load(Ordering::SeqCst),
            ],
            [
                left.load(Ordering::SeqCst),
                other_left.load(Ordering::SeqCst),
            ],
        )
    }
}

/// The word of a lane, of two.
fn word_of(words: &[AtomicU64; 2], lane: u32) -> &AtomicU64 {
    let [first, second] = words;
    if lane == 0 { first } else { second }
}

impl Gate for HeldGate {
    fn enter(&self, lane: u32) {
        let first = word_of(&self.entered, 0);
        let before = word_of(&self.entered, lane).fetch_add(1, Ordering::SeqCst);
        if lane != 0 && before == 0 && comes_to(first, self.calls, TURNS) {
            comes_to(first, self.calls.saturating_add(1), FURTHER_TURNS);
            self.seen
                .store(first.load(Ordering::SeqCst), Ordering::SeqCst);
        }
    }

    fn leave(&self, lane: u32) {
        word_of(&self.left, lane).fetch_add(1, Ordering::SeqCst);
    }
}

/// Two senders. The first says `a` to `j`, and the second nothing.
const TEN_TEXTS: &str = "
[[sender]]
etype = 17
key = '000102030405060708090a0b0c0d0e0f'
mode = 'safe'
first = 7
from = '2:0a000001'
to = '2:0a0000ff'
skew = 300
seed = '0000000000000000000000000000000000000000000000000000000000000000'
at = [1700000000000005]
now = [1700000000000005]
texts = ['61', '62', '63', '64', '65', '66', '67', '68', '69', '6a']
[[sender]]
etype = 18
key = '1111111111111111111111111111111111111111111111111111111111111111'
mode = 'priv'
first = 7
from = '2:0a000002'
to = '2:0a0000ff'
skew = 300
seed = '0000000000000000000000000000000000000000000000000000000000000000'
at = [1700000000000005]
now = [1700000000000005]
texts = []
";

const DELIVERED: &str = "lane 0 text 61
lane 1 closed
lane 0 text 62
lane 0 text 63
lane 0 text 64
lane 0 text 65
lane 0 text 66
lane 0 text 67
lane 0 text 68
lane 0 text 69
lane 0 text 6a
lane 0 closed
lane 0 sent 10 of 10 DONE CLOSED
lane 1 sent 0 of 0 DONE CLOSED
";

/// A lane holds as many frames as the job says: the receiver has one more, and one waits for room.
#[test]
fn lanes_have_the_capacity_of_the_job(rt: HostRuntime) -> Result<(), Fail> {
    for (line, calls) in [("capacity = 3", 5), ("capacity = 9", 11)] {
        let gate = HeldGate {
            calls,
            entered: [AtomicU64::new(0), AtomicU64::new(0)],
            left: [AtomicU64::new(0), AtomicU64::new(0)],
            seen: AtomicU64::new(0),
        };
        let job = format!(in rt.alloc(); "{line}{TEN_TEXTS}")?;
        let mut reader = job.as_bytes();
        let mut writer = BufWriter::new(rt.alloc(), Vec::new(rt.alloc()))?;
        let words = ["krbrelay", "relay"];
        let outcome = obey(&rt, rt.alloc(), &words, &mut reader, &mut writer, &gate)?;
        assert_same_at(&rt, outcome, Ok(0), line);
        let printed = writer.get_ref().as_slice() == DELIVERED.as_bytes();
        assert_same_at(&rt, printed, true, line);
        assert_same_at(&rt, gate.counts(), (calls, [11, 1], [11, 1]), line);
    }
    Ok(())
}
