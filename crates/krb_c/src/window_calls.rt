//! What C calls of a window. It is a struct of the caller's, so it has no handle.

ghost use Rattle.std.specs.Prelude.{◌≡◌, ◌↔◌, ◌⊎◌};
ghost use Rattle.krb_window.specs.Window.{IsTaken, IsTooOld, Takes, TakesNoneBelow};

use krb_structs::Fault;
use krb_window::{Untaken, Window};

/// Makes a window that takes the numbers from `first` on, and none below.
#[unsafe(no_mangle)]
pub extern "C" fn krbrelay_window_new(window: &mut Window, first: u64)
    ensures { TakesNoneBelow first window.new }
{
    *window = Window::new(first);
}

/// Takes a number: 0, or 917 where it was taken before, or 918 where it is 64 or more below the
/// highest that was taken. Then the window is as it was.
#[unsafe(no_mangle)]
pub extern "C" fn krbrelay_window_take(window: &mut Window, number: u64) -> u32
    ensures taken { result ≡ 0 → Takes window.old number window.new }
    ensures repeated { result ≡ 917 ↔ IsTaken window.old number }
    ensures too_old { result ≡ 918 ↔ IsTooOld window.old number }
    ensures why { ¬ (result ≡ 0) → IsTaken window.old number ⊎ IsTooOld window.old number }
    ensures kept { ¬ (result ≡ 0) → window.new ≡ window.old }
{
    match window.take(number) {
        Ok(()) => 0,
        Err(Untaken::Repeated) => Fault::Repeated.code(),
        Err(Untaken::TooOld) => Fault::TooOld.code(),
    }
}
