//! Texts in order, as a batch carries them.

ghost use Rattle.std.specs.Prelude.{◌≡◌};

use krb_base::Bytes;
use std::alloc::AllocError;
use std::marker::Model;

/// Texts in order, which contracts see as the list of them.
///
/// Neither making them nor giving their `Vec` back allocates; a clone does.
#[derive(Debug, Drop)]
pub struct Texts {
    vec: Vec<Bytes>,
}

impl Model for Texts {
    ghost use Rattle.std.specs.Prelude.{List, ℕ};

    ghost Value = { List (List ℕ) };

    ghost view = { λ texts. texts.vec.items };
}

impl Texts {
    /// The texts of `vec`.
    pub fn new(vec: Vec<Bytes>) -> Texts
        ensures { result ≡ vec.items }
    {
        Self { vec }
    }

    /// The texts as a slice.
    pub fn as_slice(&self) -> &[Bytes]
        ensures { result.now ≡ self.now }
    {
        self.vec.as_slice()
    }

    /// The texts as the `Vec` that they were made from.
    pub fn into_vec(self) -> Vec<Bytes>
        ensures { result.items ≡ self }
    {
        let Texts { vec } = self;
        vec
    }
}

/// Other texts with the same bytes. The only error is out of memory.
impl Clone for Texts {
    ghost is_clone = { λ texts copy. copy ≡ texts };

    fn clone(&self) -> Result<Texts, AllocError> {
        Ok(Texts {
            vec: self.vec.clone()?,
        })
    }
}
