//! Byte strings, each a part of its block.

ghost use Rattle.std.specs.Prelude.{◌≡◌, ◌≤◌, ◌-◌, drop, length, take};
ghost use Rattle.krb_base.specs.Bytes.{AreBytes};

use std::alloc::AllocError;
use std::collections::VecDeque;
use std::fmt;
use std::marker::Model;

/// A byte string on the heap, which contracts see as the list of its bytes.
///
/// It may be a part of its block, and then it lies where it lay in the whole. Only a clone allocates.
#[derive(Drop)]
pub struct Bytes {
    vec: Vec<u8>,
    start: usize,
}

impl Model for Bytes {
    ghost use Rattle.std.specs.Prelude.{List, ℕ, drop};

    ghost Value = { List ℕ };

    ghost view = { λ b. drop b.start b.vec.items };
}

impl Bytes {
    /// The bytes of `vec`.
    pub fn new(vec: Vec<u8>) -> Bytes
        ensures { result ≡ vec.items }
    {
        Self { vec, start: 0 }
    }

    /// The bytes of `vec` from `start` on.
    pub(crate) fn within(vec: Vec<u8>, start: usize) -> Bytes
        requires { start ≤ length vec.items }
        ensures { result ≡ drop start vec.items }
    {
        Self { vec, start }
    }

    /// Its block, and where in it the bytes begin.
    pub(crate) fn into_parts(self) -> (Vec<u8>, usize)
        ensures within { result.1 ≤ length result.0.items }
        ensures bytes { drop result.1 result.0.items ≡ self }
    {
        let Bytes { vec, start } = self;
        let start = start.min(vec.len());
        (vec, start)
    }

    /// The bytes as a slice.
    pub fn as_slice(&self) -> &[u8]
        ensures { result.now ≡ self.now }
    {
        &self.vec[self.start.min(self.vec.len())..]
    }

    /// The bytes from `start` up to `end`, where they lie: nothing is moved or overwritten.
    pub fn cut(self, start: usize, end: usize) -> Bytes
        requires order { start ≤ end }
        requires within { end ≤ length self }
        ensures part { result ≡ take (end - start) (drop start self) }
    {
        let (mut vec, front) = self.into_parts();
        vec.truncate(front + end);
        Bytes {
            vec,
            start: front + start,
        }
    }

    /// The bytes as a `Vec` in their block: what doesn't begin the block is moved there, in one move.
    pub fn into_vec(self) -> Vec<u8>
        ensures { result.items ≡ self }
    {
        let (vec, start) = self.into_parts();
        if start == 0 {
            return vec;
        }
        let mut bytes = VecDeque::from(vec);
        bytes.drain(..start);
        Vec::from(bytes)
    }
}

/// Another byte string with the same bytes. The only error is out of memory.
impl Clone for Bytes {
    ghost is_clone = { λ bytes copy. copy ≡ bytes };

    fn clone(&self) -> Result<Bytes, AllocError> {
        let vec = Vec::from_slice(*self.vec.allocator(), self.as_slice())?;
        Ok(Bytes::new(vec))
    }
}

/// Shows the bytes, and nothing else of their block.
impl fmt::Debug for Bytes {
    fn fmt<W: fmt::Write>(&self, f: &mut fmt::Formatter<W>) -> fmt::Result {
        fmt::Debug::fmt(&self.as_slice(), f)
    }
}

/// A law, and no work: the elements of a slice of bytes are bytes, as their type says.
pub fn known_bytes(bytes: &[u8])
    ensures { AreBytes bytes.now }
{}
