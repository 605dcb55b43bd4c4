//! Why a job can't be read.

ghost use Rattle.std.specs.Prelude.{◌≡◌, Some};
ghost use Rattle.krb_job.specs.BadInput.{code_of, words_of, error_words};
ghost use Rattle.krb_job.specs.declared.bad_input.JobError.TheVariants as errors;

use crate::place::Place;
use std::alloc::{AllocError, AllocFailed};
use std::error::Error;
use std::fmt;

/// The first check of a job that fails.
#[derive(Clone, Copy, Debug, PartialEq, Eq)]
pub enum BadInput {
    /// The bytes aren't a TOML document, or not UTF-8.
    Toml,
    /// The capacity isn't an integer from 1 to 64.
    Capacity,
    /// There is no sender, there are too many for the command, or one isn't a table.
    Sender,
    /// A key at the top that no job has.
    UnknownKey,
    /// A key of a sender, counted from 0, is absent, not allowed or of another value, or is one
    /// that no sender has.
    InSender { sender: usize, place: Place },
}

/// Why a job can't be read.
#[derive(Clone, Copy, Debug, PartialEq, Eq)]
pub enum JobError {
    /// A check fails.
    Bad(BadInput),
    /// Out of memory.
    Memory,
}

impl JobError {
    /// The number of this error: 1 or 2.
    pub fn code(&self) -> u32
        ensures { result ≡ code_of self.now }
    {
        match self {
            JobError::Bad(_) => 1,
            JobError::Memory => 2,
        }
    }
}

impl fmt::Display for BadInput {
    ghost output = { λ bad. Some (words_of bad) };

    fn fmt<W: fmt::Write>(&self, f: &mut fmt::Formatter<W>) -> fmt::Result {
        match self {
            BadInput::Toml => write!(f, "toml"),
            BadInput::Capacity => write!(f, "capacity"),
            BadInput::Sender => write!(f, "sender"),
            BadInput::UnknownKey => write!(f, "unknown key"),
            BadInput::InSender { sender, place } => {
                let name = place.name();
                write!(f, "sender {sender}: {name}")
            }
        }
    }
}

impl fmt::Display for JobError {
    ghost output = { λ error. Some (error_words error) };

    fn fmt<W: fmt::Write>(&self, f: &mut fmt::Formatter<W>) -> fmt::Result {
        match self {
            JobError::Bad(bad) => write!(f, "bad input: {bad}"),
            JobError::Memory => write!(f, "out of memory"),
        }
    }
}

impl Error for JobError {}

impl From<AllocError> for JobError {
    ghost from_gives = { λ _ e. e ≡ errors.Memory };

    fn from(_error: AllocError) -> JobError {
        JobError::Memory
    }
}

impl<T: Drop> From<AllocFailed<T>> for JobError {
    ghost from_gives = { λ _ e. e ≡ errors.Memory };

    fn from(_error: AllocFailed<T>) -> JobError {
        JobError::Memory
    }
}
