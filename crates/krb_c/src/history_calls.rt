//! What C calls of a history. It is bytes of the caller's, so it has no handle.

ghost use Rattle.std.specs.Prelude.{◌≡◌};
ghost use Rattle.krb_carry.specs.History.{with_frame};

use krb_carry::{HISTORY_SIZE, with_frame};

/// Adds a frame that took effect to the history of its session, whose zeros are no frame. It always
/// answers 0.
#[unsafe(no_mangle)]
pub extern "C" fn krbrelay_history_add(history: &mut [u8; HISTORY_SIZE], frame: &[u8]) -> u32
    ensures added { history.new ≡ with_frame history.old frame.now }
    ensures answer { result ≡ 0 }
{
    *history = with_frame(history, frame);
    0
}
