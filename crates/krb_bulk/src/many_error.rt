//! Why no message of several was sealed.

use krb_seal::SealError;
use std::alloc::AllocError;
use std::error::Error;
use std::fmt;

/// Why none of several messages was sealed. The sealer is unchanged.
#[derive(Clone, Copy, Debug, PartialEq, Eq)]
pub enum ManyError {
    /// A message can't be sealed: the first for which a call of its own would answer an error.
    Refused {
        /// The index of the message.
        index: usize,
        /// The error that this call would answer.
        why: SealError,
    },
    /// Out of memory.
    Memory,
}

impl fmt::Display for ManyError {
    fn fmt<W: fmt::Write>(&self, f: &mut fmt::Formatter<W>) -> fmt::Result {
        match self {
            ManyError::Refused { index, why } => write!(f, "message {index}: {why}"),
            ManyError::Memory => write!(f, "out of memory"),
        }
    }
}

impl Error for ManyError {}

impl From<AllocError> for ManyError {
    ghost use Rattle.krb_bulk.specs.declared.many_error.ManyError.TheVariants.{Memory};
    ghost use Rattle.std.specs.Prelude.{◌≡◌};

    ghost from_gives = { λ _ e. e ≡ Memory };

    fn from(_error: AllocError) -> ManyError {
        ManyError::Memory
    }
}
