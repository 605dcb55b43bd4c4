//! What goes through a lane: a frame or the end.

use krb_base::Bytes;

/// An item that goes through a lane.
#[derive(Debug, Drop)]
pub enum Item {
    /// A frame, and how many frames went before it.
    Frame { index: u64, bytes: Bytes },
    /// The end of the lane: nothing follows it.
    End,
}
