//! Why bytes are no message, or a value isn't spelt.

ghost use Rattle.std.specs.Prelude.{◌≡◌, Some};
ghost use Rattle.krb_der.specs.declared.error.DerError.TheVariants.{Memory};
ghost use Rattle.krb_der.specs.Error.{error_code, error_words};

use std::alloc::{AllocError, AllocFailed};
use std::error::Error;
use std::fmt;

/// Why bytes were not read, or a value was not written.
#[derive(Clone, Copy, Debug, PartialEq, Eq)]
pub enum DerError {
    /// The bytes read, or to be written, are over the limit of a message.
    TooLong,
    /// The bytes spell nothing. Writing never returns this.
    Malformed,
    /// Out of memory.
    Memory,
}

impl DerError {
    /// The number of the error: 1, 2 or 3, in the order of the variants.
    pub fn code(&self) -> u32
        ensures { result ≡ error_code self.now }
    {
        match self {
            DerError::TooLong => 1,
            DerError::Malformed => 2,
            DerError::Memory => 3,
        }
    }
}

impl fmt::Display for DerError {
    ghost output = { λ error. Some (error_words error) };

    fn fmt<W: fmt::Write>(&self, f: &mut fmt::Formatter<W>) -> fmt::Result {
        match self {
            DerError::TooLong => write!(f, "longer than a message may be"),
            DerError::Malformed => write!(f, "not the DER encoding of a message"),
            DerError::Memory => write!(f, "out of memory"),
        }
    }
}

impl Error for DerError {}

impl From<AllocError> for DerError {
    ghost from_gives = { λ _ e. e ≡ Memory };

    fn from(_error: AllocError) -> DerError {
        DerError::Memory
    }
}

impl<T: Drop> From<AllocFailed<T>> for DerError {
    ghost from_gives = { λ _ e. e ≡ Memory };

    fn from(_error: AllocFailed<T>) -> DerError {
        DerError::Memory
    }
}
