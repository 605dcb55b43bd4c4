//! Bytes that are overwritten before their memory is freed.

ghost use Rattle.std.specs.Prelude.{◌≡◌, ◌++◌, replicate, vec_capacity, vec_len, OnOk, OnErr, Some};
ghost use Rattle.krb_base.specs.Secret.{words};

use crate::bytes::Bytes;
use std::alloc::{AllocError, Global};
use std::marker::Model;
use std::{fmt, mem};

/// A key on the heap, a text that holds keys, or user data. Contracts see it as the list of its
/// bytes.
///
/// Its whole block is overwritten when it is dropped, with what is left of earlier bytes after the
/// present ones, and so is its old block when it grows. `Debug` shows none of them.
pub struct Secret {
    held: Held,
}

impl Model for Secret {
    ghost use Rattle.std.specs.Prelude.{◌≤◌, List, ℕ, drop, length};

    ghost Value = { List ℕ };

    ghost view = { λ secret. drop secret.held.start secret.held.block.items };

    ghost invariant = { λ secret. secret.held.start ≤ length secret.held.block.items };
}

impl Drop for Secret {
    fn drop(self) {
        let Secret { mut held } = self;
        held.wipe();
        held.spend();
    }
}

impl fmt::Debug for Secret {
    ghost debug_output = { λ _. Some words };

    fn fmt<W: fmt::Write>(&self, f: &mut fmt::Formatter<W>) -> fmt::Result {
        f.write_str("Secret")
    }
}

impl Secret {
    /// The bytes of `bytes`, which stay where they are.
    pub fn new(bytes: Vec<u8>) -> Secret
        ensures { result ≡ bytes.items }
    {
        Secret {
            held: Held::new(bytes),
        }
    }

    /// The bytes as a slice.
    pub fn as_slice(&self) -> &[u8]
        ensures { result.now ≡ self.now }
    {
        &self.held.block[self.held.start..]
    }

    /// Appends bytes. The only error is out of memory, and then nothing is changed.
    pub fn append(&mut self, alloc: Global, more: &[u8]) -> Result<(), AllocError>
        ensures ok { OnOk result (self.new ≡ self.old ++ more.now) }
        ensures err { OnErr result (self.new ≡ self.old) }
    {
        let room = self.held.block.capacity();
        if room - self.held.block.len() < more.len() {
            let count = self.as_slice().len().saturating_add(more.len());
            let mut block = Vec::with_capacity(alloc, count.max(room.saturating_mul(2)))?;
            block.extend_from_slice(self.as_slice())?;
            let mut left = mem::replace(&mut self.held, Held::new(block));
            left.wipe();
            left.spend();
        }
        self.held.block.extend_from_slice(more)
    }

    /// The bytes as a `Vec`, which isn't overwritten when it is dropped.
    pub fn into_vec(self, alloc: Global) -> Vec<u8>
        ensures { result.items ≡ self }
    {
        self.into_bytes(alloc).into_vec()
    }

    /// The bytes where they lie. They aren't overwritten when they are dropped.
    pub fn into_bytes(mut self, alloc: Global) -> Bytes
        ensures { result ≡ self }
    {
        let Held { block, start } = mem::replace(&mut self.held, Held::new(Vec::new(alloc)));
        Bytes::within(block, start)
    }
}

/// The bytes stay where they are, and the whole block is overwritten in the end.
impl From<Bytes> for Secret {
    ghost from_gives = { λ bytes secret. secret ≡ bytes };

    ghost use Rattle.std.specs.Prelude.{◌≡◌};

    fn from(bytes: Bytes) -> Secret {
        let (block, start) = bytes.into_parts();
        Secret {
            held: Held { block, start },
        }
    }
}

/// The buffer of a secret, whose bytes begin at `start`. It isn't `Drop`: it ends by [`Held::spend`],
/// once its bytes are zero.
struct Held {
    block: Vec<u8>,
    start: usize,
}

impl Held {
    /// A buffer with these bytes.
    fn new(block: Vec<u8>) -> Held
        ensures { result ≡ record { block = block; start = 0 } }
    {
        Held { block, start: 0 }
    }

    /// Makes all bytes of the block zero, also those past its length. It allocates nothing.
    fn wipe(&mut self)
        ensures zeros { self.new.block.items ≡ replicate (vec_capacity self.old.block) 0 }
        ensures size { vec_len self.new.block ≡ vec_capacity self.old.block }
    {
        let room = self.block.capacity();
        self.block.clear();
        self.block.resize(room, 0).unwrap();
    }

    /// Ends a buffer whose bytes are zero.
    fn spend(self)
        requires { self.block.items ≡ replicate (vec_len self.block) 0 }
    {
        let Held { block: _, start: _ } = self;
    }
}
