//! What ends a run before its output is whole.
ghost use Rattle.std.specs.Prelude.{◌≡◌};
ghost use Rattle.krb_commands.specs.declared.fault.Fault.TheVariants.{Memory};
ghost use Rattle.krb_commands.specs.Fault.{bad_plan, fault_status, of_job, of_start, IsLive};

use krb_job::{BadInput, JobError, Place};
use krb_peers::StartError;
use std::alloc::{AllocError, AllocFailed};
use thiserror::Error;

/// A fault of the program, shown as its one line on standard error.
#[derive(Clone, Copy, Debug, PartialEq, Eq, Error)]
pub enum Fault {
    /// The input has more than [`LIMIT`](crate::LIMIT) bytes.
    #[error("krbrelay: bad input: input")]
    TooLong,
    /// The first check of a job that fails.
    #[error("krbrelay: bad input: {0}")]
    BadInput(BadInput),
    /// The key of `show` can't be had.
    #[error("krbrelay: bad input: key: {0}")]
    Key(KeyFault),
    /// An allocation was refused.
    #[error("krbrelay: out of memory")]
    Memory,
    /// An allocation was refused while frames were taken.
    #[error("krbrelay: out of memory")]
    Stopped {
        /// How many lines are printed: the outcome of the frames until then.
        lines: usize,
    },
    /// A thread couldn't be started, or was lost.
    #[error("krbrelay: thread fault")]
    Thread {
        /// How many lines are printed: the outcome of the frames until then.
        lines: usize,
    },
    /// The reader failed.
    #[error("krbrelay: read fault")]
    Read,
    /// The writer failed, or took nothing.
    #[error("krbrelay: write fault")]
    Write,
}

/// Why there is no key.
#[derive(Clone, Copy, Debug, PartialEq, Eq, Error)]
pub enum KeyFault {
    /// A type is stated for no key.
    #[error("--etype is given without --key")]
    Missing,
    /// No type has the number that is stated.
    #[error("--etype is neither 17 nor 18")]
    NoType,
    /// The file can't be opened or read, or has more than [`LIMIT`](crate::LIMIT) bytes.
    #[error("the file can't be read")]
    Unreadable,
    /// The file holds no key.
    #[error("the file holds neither 16 nor 32 bytes, as they are or as hexadecimal digits")]
    NoKey,
    /// The file holds a key of another type than the one that is stated.
    #[error("the file holds a key of another encryption type than --etype (17 has 16 bytes, 18 has 32)")]
    OtherType,
}

impl Fault {
    /// The exit status of a run that ends with this fault.
    pub fn status(&self) -> u8
        ensures { result ≡ fault_status self.now }
    {
        match self {
            Fault::TooLong | Fault::BadInput(_) | Fault::Key(_) => 2,
            Fault::Memory | Fault::Stopped { .. } | Fault::Thread { .. } => 4,
            Fault::Read | Fault::Write => 4,
        }
    }

    /// Why senders that weren't wiped don't begin, as a fault: a bad plan is bad input.
    pub(crate) fn of_start(error: StartError) -> Fault
        requires { IsLive error }
        ensures { result ≡ of_start error }
    {
        match error {
            StartError::Memory => Fault::Memory,
            StartError::BadPlan { lane } => Fault::bad_plan(lane),
            StartError::Wiped { .. } => unreachable!(),
        }
    }

    /// The plan of a sender, by its place in the job, names what its frames don't have.
    pub fn bad_plan(lane: u32) -> Fault
        ensures { result ≡ Fault.BadInput (bad_plan lane) }
    {
        Fault::BadInput(BadInput::InSender {
            sender: lane as usize,
            place: Place::Plan,
        })
    }
}

impl From<AllocError> for Fault {
    ghost from_gives = { λ _ fault. fault ≡ Memory };

    fn from(_error: AllocError) -> Fault {
        Fault::Memory
    }
}

impl<T: Drop> From<AllocFailed<T>> for Fault {
    ghost from_gives = { λ _ fault. fault ≡ Memory };

    fn from(_error: AllocFailed<T>) -> Fault {
        Fault::Memory
    }
}

impl From<JobError> for Fault {
    ghost from_gives = { λ error fault. fault ≡ of_job error };

    fn from(error: JobError) -> Fault {
        match error {
            JobError::Bad(bad) => Fault::BadInput(bad),
            JobError::Memory => Fault::Memory,
        }
    }
}
