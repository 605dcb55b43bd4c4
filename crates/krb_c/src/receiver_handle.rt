//! A receiver that C holds.

ghost use Rattle.std.specs.Prelude.{◌≡◌, Option};
ghost use Rattle.krb_peers.specs.ReceiverState.{ReceiverState};
ghost use Rattle.krb_c.specs.Handles.{owns_receiver, receiver_coded};

use crate::Held;
use crate::handle::Handle;
use krb_structs::LaneReceiver;
use std::marker::Model;

/// A receiver on the heap, or nothing.
#[repr(C)]
pub struct KrbReceiver {
    at: *mut u8,
    /// 1 where it holds a receiver, else 0.
    count: usize,
    pub ghost receiver: { Option ReceiverState } by { receiver_coded },
}

impl Model for KrbReceiver {
    ghost also_owns = { λ h. owns_receiver h.at h.count h.receiver };
}

/// What it holds may cross threads, so C may hand it to another thread.
unsafe impl Send for KrbReceiver {}

impl Handle for KrbReceiver {
    type Value = LaneReceiver;

    ghost held = { λ h. h.receiver };

    fn of(content: Held<LaneReceiver>) -> KrbReceiver
        ensures { result.receiver ≡ content.value }
    {
        let Held { at, count } = content;
        KrbReceiver {
            at: at as *mut u8,
            count,
        }
    }

    fn into_held(self) -> Held<LaneReceiver>
        ensures { result.value ≡ self.receiver }
    {
        let KrbReceiver { at, count } = self;
        Held {
            at: at as *mut LaneReceiver,
            count,
        }
    }
}
