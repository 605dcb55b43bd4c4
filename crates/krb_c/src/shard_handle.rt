//! A shard of a receiver that C holds.

ghost use Rattle.std.specs.Prelude.{◌≡◌, Option};
ghost use Rattle.krb_c.specs.declared.held_shard.HeldShard.{HeldShard};
ghost use Rattle.krb_c.specs.Handles.{owns_shard, shard_coded};

use crate::Held;
use crate::handle::Handle;
use crate::held_shard::HeldShard;
use std::marker::Model;

/// A shard on the heap, or nothing.
#[repr(C)]
pub struct KrbShard {
    at: *mut u8,
    /// 1 where it holds a shard, else 0.
    count: usize,
    pub ghost shard: { Option HeldShard } by { shard_coded },
}

impl Model for KrbShard {
    ghost also_owns = { λ h. owns_shard h.at h.count h.shard };
}

/// What it holds may cross threads, so C may hand it to another thread.
unsafe impl Send for KrbShard {}

impl Handle for KrbShard {
    type Value = HeldShard;

    ghost held = { λ h. h.shard };

    fn of(content: Held<HeldShard>) -> KrbShard
        ensures { result.shard ≡ content.value }
    {
        let Held { at, count } = content;
        KrbShard {
            at: at as *mut u8,
            count,
        }
    }

    fn into_held(self) -> Held<HeldShard>
        ensures { result.value ≡ self.shard }
    {
        let KrbShard { at, count } = self;
        Held {
            at: at as *mut HeldShard,
            count,
        }
    }
}
