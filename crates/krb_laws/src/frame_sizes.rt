//! Sizes of frames.

ghost use Rattle.krb_laws.specs.FrameSizes.{OneFits, OneFrameSize, OneHasTheSize};

/// What clauses say of the room for each frame is said of a frame that there is.
///
/// If all frames that a sealer can make next of so many bytes have a size, one has it (`sizes`), so they have no
/// other size (`one`). If all frames of so many bytes fit in some room, one does (`room`). Each sealer with a key
/// of one of the two types and a number left makes such frames, by [`exists_laws`](krb_seal::exists_laws).
pub fn frame_sizes_laws()
    ensures sizes { OneHasTheSize }
    ensures one { OneFrameSize }
    ensures room { OneFits }
{}
