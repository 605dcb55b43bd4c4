//! An opener that C holds.

ghost use Rattle.std.specs.Prelude.{◌≡◌, Option};
ghost use Rattle.krb_seal.specs.Opens.{OpenerState};
ghost use Rattle.krb_c.specs.Handles.{owns_opener, opener_coded};

use crate::Held;
use crate::handle::Handle;
use krb_structs::WipeableOpener;
use std::marker::Model;

/// An opener on the heap, or nothing.
#[repr(C)]
pub struct KrbOpener {
    at: *mut u8,
    /// 1 where it holds an opener, else 0.
    count: usize,
    pub ghost opener: { Option (Option OpenerState) } by { opener_coded },
}

impl Model for KrbOpener {
    ghost also_owns = { λ h. owns_opener h.at h.count h.opener };
}

/// What it holds may cross threads, so C may hand it to another thread.
unsafe impl Send for KrbOpener {}

impl Handle for KrbOpener {
    type Value = WipeableOpener;

    ghost held = { λ h. h.opener };

    fn of(content: Held<WipeableOpener>) -> KrbOpener
        ensures { result.opener ≡ content.value }
    {
        let Held { at, count } = content;
        KrbOpener {
            at: at as *mut u8,
            count,
        }
    }

    fn into_held(self) -> Held<WipeableOpener>
        ensures { result.value ≡ self.opener }
    {
        let KrbOpener { at, count } = self;
        Held {
            at: at as *mut WipeableOpener,
            count,
        }
    }
}
