//! How much room a frame takes.

ghost use Rattle.std.specs.Prelude.{◌≡◌};
ghost use Rattle.krb_structs.specs.Room.{FitsFrames, frame_room};

use krb_base::FRAME_LIMIT;
use krb_der::size_laws;

/// How many bytes a sealed frame has around its user data, at most: tags, lengths, numbers, the
/// addresses of a session, and the checksum, or the confounder and the code.
const FRAME_OVERHEAD: usize = 416;

/// A size in which each frame of that many bytes of user data fits.
pub fn frame_size(len: usize) -> usize
    ensures value { result ≡ frame_room len }
    ensures law { FitsFrames len result }
{
    size_laws();
    len.saturating_add(FRAME_OVERHEAD).min(FRAME_LIMIT)
}
