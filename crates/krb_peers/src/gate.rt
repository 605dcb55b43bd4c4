//! Calls around each seal call.

/// Is called before and after each seal call of a relay's workers, and may delay it. All workers
/// share it.
///
/// Its calls have to return. Nothing else is asked of them.
pub trait Gate {
    /// Is called before each seal call of the worker of `lane`.
    fn enter(&self, lane: u32);

    /// Is called after it.
    fn leave(&self, lane: u32);
}

/// A gate that lets everything pass.
#[derive(Drop)]
pub struct NoGate;

impl Gate for NoGate {
    fn enter(&self, lane: u32) {
        let _ = lane;
    }

    fn leave(&self, lane: u32) {
        let _ = lane;
    }
}
