//! Why nothing was sealed.

ghost use Rattle.std.specs.Prelude.{◌≡◌, Some};
ghost use Rattle.krb_seal.specs.SealError.{code_of, words_of};

use std::alloc::AllocError;
use std::error::Error;
use std::fmt;

/// Why a sealer seals nothing. The first that applies is returned, and the sealer is unchanged.
#[derive(Clone, Copy, Debug, PartialEq, Eq)]
pub enum SealError {
    /// The sealer was wiped.
    Wiped,
    /// The data has more bytes than the user data of a message may have.
    TooLong,
    /// No sequence number is left.
    Exhausted,
    /// Out of memory.
    Memory,
}

impl SealError {
    /// The number of this error: 1 to 4, in the order of the variants.
    pub fn code(&self) -> u32
        ensures { result ≡ code_of self.now }
    {
        match self {
            SealError::Wiped => 1,
            SealError::TooLong => 2,
            SealError::Exhausted => 3,
            SealError::Memory => 4,
        }
    }
}

impl fmt::Display for SealError {
    ghost output = { λ error. Some (words_of error) };

    fn fmt<W: fmt::Write>(&self, f: &mut fmt::Formatter<W>) -> fmt::Result {
        match self {
            SealError::Wiped => write!(f, "the sealer was wiped"),
            SealError::TooLong => write!(f, "longer than the user data of a message may be"),
            SealError::Exhausted => write!(f, "no sequence number is left"),
            SealError::Memory => write!(f, "out of memory"),
        }
    }
}

impl Error for SealError {}

impl From<AllocError> for SealError {
    ghost use Rattle.krb_seal.specs.declared.seal_error.SealError.TheVariants.{Memory};

    ghost from_gives = { λ _ e. e ≡ Memory };

    fn from(_error: AllocError) -> SealError {
        SealError::Memory
    }
}
