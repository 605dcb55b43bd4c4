//! Sessions of a stream at a receiver, as C writes them.

ghost use Rattle.std.specs.Prelude.{◌≡◌};
ghost use Rattle.krb_carrier_structs.specs.Stream.{told_head, told_opening};

use krb_carry::{HISTORY_SIZE, Receipt};
use krb_engine::{Head, Opening};

/// The last session of a stream that a store has: zeros are none.
#[repr(C)]
#[derive(Clone, Copy)]
pub struct KrbHead {
    /// Which session of the stream it is, from 1 on. 0: the store has none.
    pub turn: u64,
    /// The number after all that took effect in it.
    pub number: u64,
    /// Their digest.
    pub history: [u8; HISTORY_SIZE],
    /// Not 0: its close took effect.
    pub closed: u32,
}

/// What an opening says of its session.
#[repr(C)]
#[derive(Clone, Copy)]
pub struct KrbOpening {
    /// Which session of the stream it is, from 1 on.
    pub turn: u64,
    /// The number after all that its sender sealed in the session before it.
    pub number: u64,
    /// Their digest.
    pub history: [u8; HISTORY_SIZE],
    /// 0.
    pub reserved: u32,
}

impl KrbHead {
    /// The session that it tells, if it tells one.
    pub fn head(&self) -> Option<Head>
        ensures { result ≡ told_head self.now }
    {
        if self.turn == 0 {
            return None;
        }
        Some(Head {
            turn: self.turn,
            closed: self.closed != 0,
            took: Receipt {
                number: self.number,
                history: self.history,
            },
        })
    }
}

impl KrbOpening {
    /// What it tells.
    pub fn opening(&self) -> Opening
        ensures { result ≡ told_opening self.now }
    {
        Opening {
            turn: self.turn,
            before: Receipt {
                number: self.number,
                history: self.history,
            },
        }
    }
}
