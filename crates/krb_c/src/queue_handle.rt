//! A queue that C holds.

ghost use Rattle.std.specs.Prelude.{◌≡◌, Option};
ghost use Rattle.krb_c.specs.declared.held_queue.HeldQueue.{HeldQueue};
ghost use Rattle.krb_c.specs.Handles.{owns_queue, queue_coded};

use crate::Held;
use crate::handle::Handle;
use crate::held_queue::HeldQueue;
use std::marker::Model;

/// A queue on the heap, or nothing, which is a queue in which none waits.
#[repr(C)]
pub struct KrbQueue {
    at: *mut u8,
    /// 1 where it holds a queue, else 0.
    count: usize,
    pub ghost queue: { Option HeldQueue } by { queue_coded },
}

impl Model for KrbQueue {
    ghost also_owns = { λ h. owns_queue h.at h.count h.queue };
}

/// What it holds may cross threads, so C may hand it to another thread.
unsafe impl Send for KrbQueue {}

impl Handle for KrbQueue {
    type Value = HeldQueue;

    ghost held = { λ h. h.queue };

    fn of(content: Held<HeldQueue>) -> KrbQueue
        ensures { result.queue ≡ content.value }
    {
        let Held { at, count } = content;
        KrbQueue {
            at: at as *mut u8,
            count,
        }
    }

    fn into_held(self) -> Held<HeldQueue>
        ensures { result.value ≡ self.queue }
    {
        let KrbQueue { at, count } = self;
        Held {
            at: at as *mut HeldQueue,
            count,
        }
    }
}
