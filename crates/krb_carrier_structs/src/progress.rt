//! How far the frames of a session are carried, as C writes it.

ghost use Rattle.std.specs.Prelude.{◌≡◌, ◌↔◌, IfSome, IsSome};
ghost use Rattle.krb_carrier_structs.specs.Progress.{IsProgress, told_progress};

use krb_carry::Progress;

/// How far the frames of one session are carried.
#[repr(C)]
#[derive(Clone, Copy)]
pub struct KrbProgress {
    /// The frames below this number are stored.
    pub next: u64,
    /// The frames below this number count as carried.
    pub carried: u64,
    /// The offset of the last frame that counts as carried.
    pub at: u64,
    /// The frames below this number were published.
    pub sent: u64,
}

impl KrbProgress {
    /// The numbers of a progress.
    pub fn of(progress: &Progress) -> KrbProgress
        ensures { told_progress result ≡ progress.now }
    {
        KrbProgress {
            next: progress.next(),
            carried: progress.carried(),
            at: progress.at(),
            sent: progress.sent(),
        }
    }

    /// The progress with these numbers, if there is one.
    pub fn progress(&self) -> Option<Progress>
        ensures variant { IsSome result ↔ IsProgress self.now }
        ensures value { IfSome result (λ progress. progress ≡ told_progress self.now) }
    {
        Progress::restore(self.next, self.carried, self.at, self.sent)
    }
}
