//! One emission of a plan.

use krb_base::Bytes;

/// One emission of a plan: what is put on the wire next.
#[derive(Debug, Drop)]
pub enum Emit {
    /// Frame `k` of the sender, as it is.
    Frame(usize),
    /// Frame `k` with its byte `at` changed by exclusive or with `mask`.
    Flip { k: usize, at: usize, mask: u8 },
    /// These bytes, whatever was sealed.
    Raw(Bytes),
}
