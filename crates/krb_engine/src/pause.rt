//! How long to wait for an answer before something is tried again.

ghost use Rattle.std.specs.Prelude.{◌≡◌, ◌↔◌, ◌+◌, ◌*◌, ◌^◌, ◌-◌, ◌<◌, ◌≤◌, IsTrue, min};
ghost use Rattle.krb_engine.specs.Pause.{IsOver, begun, longer};
ghost use Rattle.krb_engine.specs.QueueLaws.{PausesDouble, TriesAreRare};

/// A pause, in milliseconds of a clock that is never set.
#[derive(Clone, Copy, Debug, PartialEq, Eq)]
pub struct Pause {
    /// When it began.
    pub since: u64,
    /// How long it is.
    pub length: u64,
}

impl Pause {
    /// A pause that begins now.
    pub fn begin(length: u64, now: u64) -> Pause
        ensures { result ≡ begun length now }
    {
        Pause { since: now, length }
    }

    /// Whether it is over.
    pub fn is_over(&self, now: u64) -> bool
        ensures { IsTrue result ↔ IsOver self.now now }
    {
        now >= self.since && now - self.since >= self.length
    }

    /// When it is over: at the end of time, if that is sooner.
    pub fn end(&self) -> u64
        ensures { result ≡ min (self.now.since + self.now.length) (2 ^ 64 - 1) }
    {
        self.since.saturating_add(self.length)
    }

    /// The next pause begins: twice as long, up to the cap.
    pub fn grow(&mut self, cap: u64, now: u64)
        ensures { self.new ≡ longer cap self.old now }
    {
        self.since = now;
        self.length = self.length.saturating_mul(2).min(cap);
    }
}

/// What is tried again each time that a pause is over, and has no answer.
///
/// The pause after so many tries is the first one, doubled each time, up to the cap (`double`). So many
/// tries take at least the sum of as many pauses (`rare`).
pub fn pause_laws()
    ensures double { PausesDouble }
    ensures rare { TriesAreRare }
{}
