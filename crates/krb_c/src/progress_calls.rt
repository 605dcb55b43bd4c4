//! What C calls of a progress. It is a struct of the caller's, so it has no handle. Each function
//! answers 0, or 912 where the numbers are no progress or the count doesn't fit: then all stays as it
//! was.

ghost use Rattle.std.specs.Prelude.{◌≡◌, ◌↔◌, ◌+◌, ◌≤◌};
ghost use Rattle.krb_carry.specs.Progress.{Confirm, Counts, Publish, Rewind, Store, after, resumed};
ghost use Rattle.krb_carrier_structs.specs.Progress.{CanPublish, CanStore, IsProgress, told_progress};

use krb_carrier_structs::KrbProgress;
use krb_carry::Progress;
use krb_structs::Fault;

/// Makes the progress of a session that continues where so much was stored: all that isn't carried
/// counts as not published. `at` is the offset of the last frame that counts as carried, or one that
/// the first frame's place is after.
#[unsafe(no_mangle)]
pub extern "C" fn krbrelay_progress_new(
    progress: &mut KrbProgress,
    next: u64,
    carried: u64,
    at: u64,
) -> u32
    ensures ok { result ≡ 0 ↔ (carried ≤ next) }
    ensures argument { ¬ (result ≡ 0) → result ≡ 912 }
    ensures made { result ≡ 0 → told_progress progress.new ≡ resumed next carried at }
    ensures kept { ¬ (result ≡ 0) → progress.new ≡ progress.old }
{
    if carried > next {
        return Fault::Argument.code();
    }
    *progress = KrbProgress::of(&Progress::new(next, carried, at));
    0
}

/// So many frames more are stored.
#[unsafe(no_mangle)]
pub extern "C" fn krbrelay_progress_store(progress: &mut KrbProgress, count: u64) -> u32
    ensures ok { result ≡ 0 ↔ CanStore progress.old count }
    ensures argument { ¬ (result ≡ 0) → result ≡ 912 }
    ensures stored { result ≡ 0
        → told_progress progress.new ≡ after (told_progress progress.old) (Store count) }
    ensures kept { ¬ (result ≡ 0) → progress.new ≡ progress.old }
{
    let Some(mut stored) = progress.progress() else {
        return Fault::Argument.code();
    };
    if count > u64::MAX - stored.next() {
        return Fault::Argument.code();
    }
    stored.store(count);
    *progress = KrbProgress::of(&stored);
    0
}

/// So many frames more were published.
#[unsafe(no_mangle)]
pub extern "C" fn krbrelay_progress_publish(progress: &mut KrbProgress, count: u64) -> u32
    ensures ok { result ≡ 0 ↔ CanPublish progress.old count }
    ensures argument { ¬ (result ≡ 0) → result ≡ 912 }
    ensures published { result ≡ 0
        → told_progress progress.new ≡ after (told_progress progress.old) (Publish count) }
    ensures kept { ¬ (result ≡ 0) → progress.new ≡ progress.old }
{
    let Some(mut published) = progress.progress() else {
        return Fault::Argument.code();
    };
    if count > published.next() - published.sent() {
        return Fault::Argument.code();
    }
    published.publish(count);
    *progress = KrbProgress::of(&published);
    0
}

/// A copy of the frame of this number stands at this offset: tells whether it counts, 1 or 0. If it
/// does, one more is carried.
#[unsafe(no_mangle)]
pub extern "C" fn krbrelay_progress_confirm(
    progress: &mut KrbProgress,
    number: u64,
    offset: u64,
    counts: &mut u32,
) -> u32
    ensures ok { result ≡ 0 ↔ IsProgress progress.old }
    ensures argument { ¬ (result ≡ 0) → result ≡ 912 }
    ensures counts { result ≡ 0
        → (counts.new ≡ 1 ↔ Counts (told_progress progress.old) number offset) }
    ensures or_not { result ≡ 0 → counts.new ≤ 1 }
    ensures confirmed { result ≡ 0
        → told_progress progress.new ≡ after (told_progress progress.old) (Confirm number offset) }
    ensures kept { ¬ (result ≡ 0) → progress.new ≡ progress.old }
    ensures untold { ¬ (result ≡ 0) → counts.new ≡ counts.old }
{
    let Some(mut confirmed) = progress.progress() else {
        return Fault::Argument.code();
    };
    *counts = u32::from(confirmed.confirm(number, offset));
    *progress = KrbProgress::of(&confirmed);
    0
}

/// All that isn't carried is to be published again: tells how many frames were published and don't
/// count.
#[unsafe(no_mangle)]
pub extern "C" fn krbrelay_progress_rewind(progress: &mut KrbProgress, again: &mut u64) -> u32
    ensures ok { result ≡ 0 ↔ IsProgress progress.old }
    ensures argument { ¬ (result ≡ 0) → result ≡ 912 }
    ensures again { result ≡ 0 → again.new + progress.old.carried ≡ progress.old.sent }
    ensures rewound { result ≡ 0
        → told_progress progress.new ≡ after (told_progress progress.old) Rewind }
    ensures kept { ¬ (result ≡ 0) → progress.new ≡ progress.old }
    ensures untold { ¬ (result ≡ 0) → again.new ≡ again.old }
{
    let Some(mut rewound) = progress.progress() else {
        return Fault::Argument.code();
    };
    *again = rewound.rewind();
    *progress = KrbProgress::of(&rewound);
    0
}
