//! The digest.

ghost use Rattle.std.specs.Prelude.{◌≡◌};
ghost use Rattle.krb_carry.specs.History.{history_size, tag, tag_size, with_frame};

use sha1::Sha1;

/// How many bytes a digest has.
pub const HISTORY_SIZE: usize = 20;

/// How many bytes a tag has: the code that ends a frame (RFC 3962, section 6).
pub const TAG_SIZE: usize = 12;

/// The last bytes of a frame: all of it, if it is shorter.
fn tag(frame: &[u8]) -> &[u8]
    ensures { result.now ≡ tag frame.now }
{
    &frame[frame.len().saturating_sub(TAG_SIZE)..]
}

/// The digest after one frame more. That of no frames is zeros.
pub fn with_frame(history: &[u8; HISTORY_SIZE], frame: &[u8]) -> [u8; HISTORY_SIZE]
    ensures { result ≡ with_frame history.now frame.now }
{
    let mut hash = Sha1::new();
    hash.update(history);
    hash.update(tag(frame));
    hash.finalize()
}
