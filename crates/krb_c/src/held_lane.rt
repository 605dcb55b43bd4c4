//! A shard of a sender that ends like what has keys.

use krb_sender::Lane;
use krb_structs::Wipe;

/// A shard on the heap.
#[derive(Drop)]
pub struct HeldLane {
    pub lane: Lane,
}

/// It has no key.
impl Wipe for HeldLane {
    ghost IsWiped = { λ _. Unit {0} };

    fn wipe(&mut self) {}
}
