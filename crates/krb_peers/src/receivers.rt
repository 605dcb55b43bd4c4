//! The receivers of several lanes.

ghost use Rattle.std.specs.Prelude.{◌≡◌, [], All, IfOk};
ghost use Rattle.krb_peers.specs.Receiver.{IsWiped};

use crate::receiver::Receiving;
use std::alloc::{AllocError, Global};
use std::mem;

/// Receivers, one a lane. Their drop wipes them where they lie.
pub struct Receivers {
    /// The receivers, lane by lane.
    pub items: Vec<Receiving>,
}

impl Drop for Receivers {
    fn drop(self) {
        let Receivers { mut items } = self;
        wipe_receivers(&mut items);
    }
}

impl Receivers {
    /// No receivers, and room for `count` of them: those may be added without moving any.
    pub fn with_capacity(alloc: Global, count: usize) -> Result<Receivers, AllocError>
        ensures { IfOk result (λ receivers. receivers.items.items ≡ []) }
    {
        let items = Vec::with_capacity(alloc, count)?;
        Ok(Receivers { items })
    }

    /// The receivers as their `Vec`, in which they stay where they are.
    pub fn into_vec(mut self, alloc: Global) -> Vec<Receiving>
        ensures { result.items ≡ self.items.items }
    {
        mem::replace(&mut self.items, Vec::new(alloc))
    }
}

/// Overwrites the keys of all receivers where they lie. A value that is moved out of a list leaves
/// its bytes there, so this comes before the list is dropped.
pub fn wipe_receivers(receivings: &mut [Receiving])
    ensures { All IsWiped receivings.new }
{
    for receiving in receivings.iter_mut() {
        receiving.receiver.wipe();
    }
}
