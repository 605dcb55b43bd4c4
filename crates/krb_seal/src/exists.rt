//! Sealed frames exist.

ghost use Rattle.krb_seal.specs.Exists.{OneFrameExists};

/// Of all data within the limits there is exactly one frame of either kind of message at each number,
/// moment and confounder.
pub fn exists_laws()
    ensures { OneFrameExists }
{}
