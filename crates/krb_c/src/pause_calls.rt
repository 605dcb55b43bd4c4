//! What C calls of a pause. It is a struct of the caller's, so it has no handle, and any numbers are one.

ghost use Rattle.std.specs.Prelude.{◌≡◌, ◌↔◌, ◌+◌, ◌-◌, ◌≤◌, ◌^◌, min};
ghost use Rattle.krb_carrier_structs.specs.Pause.{pause_told, told_pause};
ghost use Rattle.krb_engine.specs.Pause.{IsOver, begun, longer};

use krb_carrier_structs::KrbPause;
use krb_engine::Pause;

/// Makes a pause that begins now.
#[unsafe(no_mangle)]
pub extern "C" fn krbrelay_pause_begin(pause: &mut KrbPause, length: u64, now: u64)
    ensures { pause.new ≡ pause_told (begun length now) }
{
    *pause = KrbPause::of(Pause::begin(length, now));
}

/// Whether it is over: 1 or 0.
#[unsafe(no_mangle)]
pub extern "C" fn krbrelay_pause_is_over(pause: &KrbPause, now: u64) -> u32
    ensures over { result ≡ 1 ↔ IsOver (told_pause pause.now) now }
    ensures or_not { result ≤ 1 }
{
    u32::from(pause.pause().is_over(now))
}

/// When it is over: at the end of time, if that is sooner.
#[unsafe(no_mangle)]
pub extern "C" fn krbrelay_pause_end(pause: &KrbPause) -> u64
    ensures { result ≡ min (pause.now.since + pause.now.length) (2 ^ 64 - 1) }
{
    pause.pause().end()
}

/// The next pause begins: twice as long, up to the cap.
#[unsafe(no_mangle)]
pub extern "C" fn krbrelay_pause_grow(pause: &mut KrbPause, cap: u64, now: u64)
    ensures { pause.new ≡ pause_told (longer cap (told_pause pause.old) now) }
{
    let mut next = pause.pause();
    next.grow(cap, now);
    *pause = KrbPause::of(next);
}
