//! A shard of a sender that C holds.

ghost use Rattle.std.specs.Prelude.{◌≡◌, Option};
ghost use Rattle.krb_c.specs.declared.held_lane.HeldLane.{HeldLane};
ghost use Rattle.krb_c.specs.Handles.{owns_lane, lane_coded};

use crate::Held;
use crate::handle::Handle;
use crate::held_lane::HeldLane;
use std::marker::Model;

/// A shard on the heap, or nothing, which is one with no session and no list.
#[repr(C)]
pub struct KrbLane {
    at: *mut u8,
    /// 1 where it holds a shard, else 0.
    count: usize,
    pub ghost lane: { Option HeldLane } by { lane_coded },
}

impl Model for KrbLane {
    ghost also_owns = { λ h. owns_lane h.at h.count h.lane };
}

/// What it holds may cross threads, so C may hand it to another thread.
unsafe impl Send for KrbLane {}

impl Handle for KrbLane {
    type Value = HeldLane;

    ghost held = { λ h. h.lane };

    fn of(content: Held<HeldLane>) -> KrbLane
        ensures { result.lane ≡ content.value }
    {
        let Held { at, count } = content;
        KrbLane {
            at: at as *mut u8,
            count,
        }
    }

    fn into_held(self) -> Held<HeldLane>
        ensures { result.value ≡ self.lane }
    {
        let KrbLane { at, count } = self;
        Held {
            at: at as *mut HeldLane,
            count,
        }
    }
}
