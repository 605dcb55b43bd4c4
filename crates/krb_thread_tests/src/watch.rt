//! A gate that counts the seal calls of each lane, and a sealer that counts along with it and may
//! refuse a call.

ghost use Rattle.std.specs.Prelude.{◌≡◌, false};

use krb_base::{LAST_NUMBER, USER_DATA_LIMIT};
use krb_der::Moment;
use krb_peers::Gate;
use krb_seal::{SealError, Sealer, SessionSealer};
use std::alloc::{AllocError, Global};
use std::sync::Arc;
use std::sync::atomic::{AtomicU64, Ordering};

/// How often the gate looks for a call that has to come.
const TURNS: u64 = 1_000_000_000;

/// How often it looks for one that may not come.
const FURTHER_TURNS: u64 = 50_000_000;

/// What a gate and the sealer of a lane have counted.
#[derive(Drop)]
pub(crate) struct Counts {
    /// Calls of `enter`.
    entered: AtomicU64,
    /// Calls of `leave`.
    left: AtomicU64,
    /// Seal calls within one `enter` more than there were of `leave`.
    inside: AtomicU64,
    /// Sealers that were dropped after they were wiped.
    drops: AtomicU64,
    /// Seal calls that gave a frame.
    sealed: AtomicU64,
}

impl Counts {
    /// How often the lane was entered and left, the seal calls within, and the drops.
    pub(crate) fn all(&self) -> [u64; 4] {
        [
            self.entered.load(Ordering::SeqCst),
            self.left.load(Ordering::SeqCst),
            self.inside.load(Ordering::SeqCst),
            self.drops.load(Ordering::SeqCst),
        ]
    }
}

/// A gate that counts for each lane. It holds the first seal call of lane 1 until lane 0 has begun
/// `held` (0: not at all), and then looks for further ones.
#[derive(Drop)]
pub(crate) struct Watch {
    pub(crate) lanes: Vec<Arc<Counts>>,
    pub(crate) held: u64,
    pub(crate) seen: AtomicU64,
}

impl Watch {
    /// A gate of eight lanes.
    pub(crate) fn new(alloc: Global, held: u64) -> Result<Watch, AllocError> {
        let mut lanes = Vec::with_capacity(alloc, 8)?;
        for _ in 0..8 {
            let counts = Counts {
                entered: AtomicU64::new(0),
                left: AtomicU64::new(0),
                inside: AtomicU64::new(0),
                drops: AtomicU64::new(0),
                sealed: AtomicU64::new(0),
            };
            lanes.push(Arc::new(alloc, counts)?)?;
        }
        Ok(Watch {
            lanes,
            held,
            seen: AtomicU64::new(0),
        })
    }

    /// What was counted of a lane.
    pub(crate) fn counts(&self, lane: usize) -> [u64; 4] {
        match self.lanes.get(lane) {
            Some(counts) => counts.all(),
            None => [0; 4],
        }
    }

    /// How many frames were sealed of a lane.
    pub(crate) fn sealed(&self, lane: usize) -> u64 {
        match self.lanes.get(lane) {
            Some(counts) => counts.sealed.load(Ordering::SeqCst),
            None => 0,
        }
    }

    /// Whether lane 0 comes to have begun so many calls, while the gate looks so often.
    fn comes_to(&self, least: u64, turns: u64) -> bool {
        for _ in 0..turns {
            if self.begun() >= least {
                return true;
            }
        }
        false
    }

    /// How many calls lane 0 has begun.
    fn begun(&self) -> u64 {
        match self.lanes.first() {
            Some(counts) => counts.entered.load(Ordering::SeqCst),
            None => 0,
        }
    }
}

impl Gate for Watch {
    fn enter(&self, lane: u32) {
        let Some(counts) = self.lanes.get(lane as usize) else {
            return;
        };
        let before = counts.entered.fetch_add(1, Ordering::SeqCst);
        let holds = self.held > 0 && lane == 1 && before == 0;
        if holds && self.comes_to(self.held, TURNS) {
            self.comes_to(self.held.saturating_add(1), FURTHER_TURNS);
            self.seen.store(self.begun(), Ordering::SeqCst);
        }
    }

    fn leave(&self, lane: u32) {
        if let Some(counts) = self.lanes.get(lane as usize) {
            counts.left.fetch_add(1, Ordering::SeqCst);
        }
    }
}

/// What is odd of a sealer.
#[derive(Clone, Copy)]
pub(crate) struct Odd {
    /// The call that answers `Memory`, from 1 on (0: none does).
    pub(crate) fails_at: u64,
    /// Whether it was wiped before.
    pub(crate) wiped: bool,
}

/// A sealer that notes each of its calls and its drop after a wipe, and answers `Memory` at one of
/// its calls.
pub(crate) struct OddSealer {
    inner: SessionSealer,
    wiped: bool,
    calls: u64,
    fails_at: u64,
    counts: Arc<Counts>,
    ghost flag: { wiped ≡ inner.wiped },
}

impl OddSealer {
    pub(crate) fn new(
        inner: SessionSealer,
        odd: Odd,
        counts: &Arc<Counts>,
    ) -> Result<OddSealer, AllocError>
        requires { inner.wiped ≡ false }
    {
        let mut sealer = OddSealer {
            inner,
            wiped: false,
            calls: 0,
            fails_at: odd.fails_at,
            counts: Arc::try_clone(counts)?,
        };
        if odd.wiped {
            sealer.wipe();
        }
        Ok(sealer)
    }
}

impl Drop for OddSealer {
    fn drop(self) {
        let OddSealer {
            inner: _,
            wiped,
            calls: _,
            fails_at: _,
            counts,
        } = self;
        counts.drops.fetch_add(u64::from(wiped), Ordering::SeqCst);
    }
}

impl Sealer for OddSealer {
    ghost state = { λ s. s.inner };

    fn etype(&self) -> i32 {
        self.inner.etype()
    }

    fn next(&self) -> u64 {
        self.inner.next()
    }

    fn seal(
        &mut self,
        alloc: Global,
        bytes: &[u8],
        at: Moment,
        confounder: [u8; 16],
    ) -> Result<Vec<u8>, SealError> {
        let left = self.counts.left.load(Ordering::SeqCst);
        if self.counts.entered.load(Ordering::SeqCst) == left.wrapping_add(1) {
            self.counts.inside.fetch_add(1, Ordering::SeqCst);
        }
        self.calls = self.calls.saturating_add(1);
        let may_refuse = !self.wiped
            && bytes.len() <= USER_DATA_LIMIT
            && self.inner.next() <= LAST_NUMBER;
        if may_refuse && self.calls == self.fails_at {
            return Err(SealError::Memory);
        }
        let frame = self.inner.seal(alloc, bytes, at, confounder);
        self.counts
            .sealed
            .fetch_add(u64::from(frame.is_ok()), Ordering::SeqCst);
        frame
    }

    fn wipe(&mut self) {
        self.inner.wipe();
        self.wiped = true;
    }
}
