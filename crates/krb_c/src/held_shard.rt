//! A shard of a receiver that ends like what has keys.

use krb_receiver::Shard;
use krb_structs::Wipe;

/// A shard on the heap.
#[derive(Drop)]
pub struct HeldShard {
    pub shard: Shard,
}

/// It has no key.
impl Wipe for HeldShard {
    ghost IsWiped = { λ _. Unit {0} };

    fn wipe(&mut self) {}
}
