//! A peer that C holds.

ghost use Rattle.std.specs.Prelude.{◌≡◌, Option};
ghost use Rattle.krb_structs.specs.Peer.{PeerState};
ghost use Rattle.krb_c.specs.Handles.{owns_peer, peer_coded};

use crate::Held;
use crate::handle::Handle;
use krb_structs::Peer;
use std::marker::Model;

/// A peer on the heap, or nothing.
#[repr(C)]
pub struct KrbPeer {
    at: *mut u8,
    /// 1 where it holds a peer, else 0.
    count: usize,
    pub ghost peer: { Option PeerState } by { peer_coded },
}

impl Model for KrbPeer {
    ghost also_owns = { λ h. owns_peer h.at h.count h.peer };
}

/// What it holds may cross threads, so C may hand it to another thread.
unsafe impl Send for KrbPeer {}

impl Handle for KrbPeer {
    type Value = Peer;

    ghost held = { λ h. h.peer };

    fn of(content: Held<Peer>) -> KrbPeer
        ensures { result.peer ≡ content.value }
    {
        let Held { at, count } = content;
        KrbPeer {
            at: at as *mut u8,
            count,
        }
    }

    fn into_held(self) -> Held<Peer>
        ensures { result.value ≡ self.peer }
    {
        let KrbPeer { at, count } = self;
        Held {
            at: at as *mut Peer,
            count,
        }
    }
}
