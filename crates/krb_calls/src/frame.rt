//! A frame as C gives it.

/// One of several frames.
#[repr(C)]
#[derive(Clone, Copy)]
pub struct KrbFrame<'a> {
    /// Its bytes.
    pub bytes: &'a [u8],
}
