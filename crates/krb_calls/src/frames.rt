//! Frames that are written into one buffer.

ghost use Rattle.std.specs.Prelude.{◌≡◌, ◌≤◌, ◌+◌, ◌++◌, ◌↔◌, length, take, drop, IsTrue};
ghost use Rattle.krb_calls.specs.Packed.{HoldsFrames, bytes_of};

/// Whether frames have room, one after another.
pub fn have_room(frames: &[Vec<u8>], room: usize) -> bool
    ensures { IsTrue result ↔ (length (bytes_of frames.now) ≤ room) }
{
    let mut left = room;
    for frame in frames {
        if frame.len() > left {
            return false;
        }
        left -= frame.len();
    }
    true
}

/// Writes bytes from a place on, and leaves what stands around them.
fn put_at(out: &mut [u8], from: usize, bytes: &[u8])
    requires { from + length bytes.now ≤ length out.old }
    ensures { out.new ≡ take from out.old
        ++ (bytes.now ++ drop (from + length bytes.now) out.old) }
{
    out[from..from + bytes.len()].copy_from_slice(bytes);
}

/// Writes frames that have room, one after another, and their sizes.
pub fn put_frames(frames: &[Vec<u8>], out: &mut [u8], sizes: &mut [usize])
    requires room { length (bytes_of frames.now) ≤ length out.old }
    requires count { length frames.now ≤ length sizes.old }
    ensures { HoldsFrames frames.now out.old out.new sizes.old sizes.new }
{
    let mut from = 0;
    for (index, frame) in frames.iter().enumerate() {
        let size = frame.len();
        put_at(out, from, frame);
        sizes[index] = size;
        from += size;
    }
}
