//! Sealers that may be moved without a trace.

use krb_seal::Sealer;

/// A sealer whose keys stand in a block of their own: where it is moved away, none of them is left.
///
/// A relay moves its senders, out of their list and into the block of a thread. So it takes sealers
/// in boxes.
pub trait Boxed {}

impl Boxed for Box<dyn Sealer + Send> {}
