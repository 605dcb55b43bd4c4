//! The error of a relay that stops.

ghost use Rattle.std.specs.Prelude.{◌≡◌, Some};
ghost use Rattle.krb_relay.specs.Cause.{cause_of, code_of, words_at};

use crate::cause::{Cause, OwnCause};
use krb_base::LANE_LIMIT;
use krb_peers::Log;
use std::alloc::AllocError;
use std::error::Error;
use std::fmt;

/// Why a relay on threads stopped, and the log so far.
///
/// A fault of the calling thread comes before those of the workers, and among these that of the
/// least lane is named.
#[derive(Drop)]
pub struct Fault {
    /// Why it stopped.
    pub cause: Cause,
    /// At which lane, from 0 on.
    pub lane: u32,
    /// The outcome of each frame that was taken until then.
    pub log: Log,
    /// How many records each sender sealed, by its lane: 0 where none was started.
    pub sealed: [usize; LANE_LIMIT],
}

impl Fault {
    /// The number of its cause.
    pub fn code(&self) -> u32
        ensures { result ≡ code_of self.now.cause }
    {
        self.cause.code()
    }
}

impl fmt::Display for Fault {
    ghost output = { λ fault. Some (words_at fault.lane fault.cause) };

    fn fmt<W: fmt::Write>(&self, f: &mut fmt::Formatter<W>) -> fmt::Result {
        write!(f, "lane {}: {}", self.lane, self.cause)
    }
}

impl fmt::Debug for Fault {
    fn fmt<W: fmt::Write>(&self, f: &mut fmt::Formatter<W>) -> fmt::Result {
        write!(f, "{self}")
    }
}

impl Error for Fault {}

/// Why the calling thread stopped, with the lane that was being made, started or served.
#[derive(Clone, Copy)]
pub(crate) struct OwnFault {
    pub(crate) cause: OwnCause,
    pub(crate) lane: u32,
}

impl OwnFault {
    /// The fault of a relay that stopped by this one.
    pub(crate) fn into_fault(self, log: Log, sealed: [usize; LANE_LIMIT]) -> Fault
        ensures cause { result.cause ≡ cause_of self.cause }
        ensures lane { result.lane ≡ self.lane }
        ensures log { result.log ≡ log }
        ensures sealed { result.sealed ≡ sealed }
    {
        Fault {
            cause: self.cause.cause(),
            lane: self.lane,
            log,
            sealed,
        }
    }
}

/// Out of memory where no lane was made, started or served.
impl From<AllocError> for OwnFault {
    ghost use Rattle.std.specs.Prelude.{◌≡◌};
    ghost use Rattle.krb_relay.specs.declared.cause.OwnCause.TheVariants.{Memory};

    ghost from_gives = { λ _ fault. (fault.cause ≡ Memory) × (fault.lane ≡ 0) };

    fn from(_error: AllocError) -> OwnFault {
        OwnFault {
            cause: OwnCause::Memory,
            lane: 0,
        }
    }
}

/// Why the worker of a lane stopped.
#[derive(Clone, Copy)]
pub(crate) struct WorkerFault {
    pub(crate) cause: Cause,
    pub(crate) lane: u32,
}

impl WorkerFault {
    /// The fault of a relay that stopped by this one.
    pub(crate) fn into_fault(self, log: Log, sealed: [usize; LANE_LIMIT]) -> Fault
        ensures cause { result.cause ≡ self.cause }
        ensures lane { result.lane ≡ self.lane }
        ensures log { result.log ≡ log }
        ensures sealed { result.sealed ≡ sealed }
    {
        Fault {
            cause: self.cause,
            lane: self.lane,
            log,
            sealed,
        }
    }
}
