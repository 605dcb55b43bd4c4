//! Why a plan emits nothing.

ghost use Rattle.std.specs.Prelude.{◌≡◌, Some};
ghost use Rattle.krb_peers.specs.Plan.{code_of, words_of};

use std::alloc::AllocError;
use std::error::Error;
use std::fmt;

/// Why [`emit`](crate::emit) emits nothing.
#[derive(Clone, Copy, Debug, PartialEq, Eq)]
pub enum EmitError {
    /// An emission names a frame or a byte that doesn't exist, or a mask of 0.
    BadPlan,
    /// Out of memory.
    Memory,
}

impl EmitError {
    /// The number of this error: 1 or 2.
    pub fn code(&self) -> u32
        ensures { result ≡ code_of self.now }
    {
        match self {
            EmitError::BadPlan => 1,
            EmitError::Memory => 2,
        }
    }
}

impl fmt::Display for EmitError {
    ghost output = { λ error. Some (words_of error) };

    fn fmt<W: fmt::Write>(&self, f: &mut fmt::Formatter<W>) -> fmt::Result {
        match self {
            EmitError::BadPlan => write!(f, "the plan names what the frames don't have"),
            EmitError::Memory => write!(f, "out of memory"),
        }
    }
}

impl Error for EmitError {}

impl From<AllocError> for EmitError {
    ghost use Rattle.krb_peers.specs.declared.plan.EmitError.TheVariants.{Memory};

    ghost from_gives = { λ _ e. e ≡ Memory };

    fn from(_: AllocError) -> EmitError {
        EmitError::Memory
    }
}
