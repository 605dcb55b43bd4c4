//! Keys that are overwritten where they lie.

/// What has keys that can be overwritten where they lie.
pub trait Wipe: Drop {
    /// All its keys are overwritten.
    ghost IsWiped: { Self → Type 0 };

    /// Overwrites all keys where they lie.
    fn wipe(&mut self)
        ensures { IsWiped self.new };
}
