//! A queue that ends like what has keys.

use krb_engine::Queue;
use krb_structs::Wipe;

/// A queue on the heap.
#[derive(Drop)]
pub struct HeldQueue {
    pub queue: Queue,
}

/// It has no key.
impl Wipe for HeldQueue {
    ghost IsWiped = { λ _. Unit {0} };

    fn wipe(&mut self) {}
}
