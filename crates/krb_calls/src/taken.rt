//! What taking a frame gives, as C gets it.

/// What taking one of several frames gives.
#[repr(C)]
#[derive(Clone, Copy)]
pub struct KrbTaken {
    /// 0, or the number of the fault.
    pub answer: u32,
    /// The kind of its record, if it was accepted.
    pub kind: u32,
    /// How many bytes of its record were written, if it was accepted.
    pub size: usize,
    /// Its number, if it was accepted. If its number is all that it is refused by, the one at which it
    /// opens.
    pub number: u64,
}
