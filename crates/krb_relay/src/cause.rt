//! Why a relay stops.

ghost use Rattle.std.specs.Prelude.{◌≡◌, Some};
ghost use Rattle.krb_relay.specs.Cause.{code_of, words_of, cause_of};

use krb_lane::LaneError;
use krb_peers::StartError;
use std::alloc::AllocError;
use std::error::Error;
use std::fmt;

/// Why a relay on threads stops.
#[derive(Clone, Copy, Debug, PartialEq, Eq)]
pub enum Cause {
    /// Out of memory.
    Memory,
    /// No thread could be started.
    Spawn,
    /// The other end of a lane is gone and has sent no End.
    Lost,
    /// The plan names a frame or a byte that isn't there, or a mask of 0.
    BadPlan,
    /// The sealer was wiped.
    Wiped,
}

impl Cause {
    /// The number of this cause, from 1 on.
    pub fn code(&self) -> u32
        ensures { result ≡ code_of self.now }
    {
        match self {
            Cause::Memory => 1,
            Cause::Spawn => 2,
            Cause::Lost => 3,
            Cause::BadPlan => 4,
            Cause::Wiped => 5,
        }
    }
}

impl fmt::Display for Cause {
    ghost output = { λ cause. Some (words_of cause) };

    fn fmt<W: fmt::Write>(&self, f: &mut fmt::Formatter<W>) -> fmt::Result {
        match self {
            Cause::Memory => write!(f, "out of memory"),
            Cause::Spawn => write!(f, "no thread could be started"),
            Cause::Lost => write!(f, "the other end of the lane is gone"),
            Cause::BadPlan => write!(f, "the plan names what the frames don't have"),
            Cause::Wiped => write!(f, "the sealer was wiped"),
        }
    }
}

impl Error for Cause {}

impl From<StartError> for Cause {
    ghost use Rattle.std.specs.Prelude.{◌≡◌};
    ghost use Rattle.krb_relay.specs.Cause.{cause_of_start};

    ghost from_gives = { λ error cause. cause ≡ cause_of_start error };

    fn from(error: StartError) -> Cause {
        match error {
            StartError::Memory => Cause::Memory,
            StartError::BadPlan { .. } => Cause::BadPlan,
            StartError::Wiped { .. } => Cause::Wiped,
        }
    }
}

/// A thread couldn't be started.
#[derive(Clone, Copy)]
pub(crate) struct NoThread;

/// Why the calling thread stops: it seals nothing and follows no plan.
#[derive(Clone, Copy)]
pub(crate) enum OwnCause {
    /// Out of memory.
    Memory,
    /// No thread could be started.
    Spawn,
    /// A worker ended without sending End.
    Lost,
}

impl OwnCause {
    /// The same cause as one of all causes.
    pub(crate) fn cause(self) -> Cause
        ensures { result ≡ cause_of self }
    {
        match self {
            OwnCause::Memory => Cause::Memory,
            OwnCause::Spawn => Cause::Spawn,
            OwnCause::Lost => Cause::Lost,
        }
    }
}

impl From<AllocError> for OwnCause {
    ghost use Rattle.std.specs.Prelude.{◌≡◌};
    ghost use Rattle.krb_relay.specs.declared.cause.OwnCause.TheVariants.{Memory};

    ghost from_gives = { λ _ cause. cause ≡ Memory };

    fn from(_error: AllocError) -> OwnCause {
        OwnCause::Memory
    }
}

impl From<LaneError> for OwnCause {
    ghost use Rattle.std.specs.Prelude.{◌≡◌};
    ghost use Rattle.krb_relay.specs.declared.cause.OwnCause.TheVariants.{Memory};

    ghost from_gives = { λ _ cause. cause ≡ Memory };

    fn from(_error: LaneError) -> OwnCause {
        OwnCause::Memory
    }
}

impl From<NoThread> for OwnCause {
    ghost use Rattle.std.specs.Prelude.{◌≡◌};
    ghost use Rattle.krb_relay.specs.declared.cause.OwnCause.TheVariants.{Spawn};

    ghost from_gives = { λ _ cause. cause ≡ Spawn };

    fn from(_error: NoThread) -> OwnCause {
        OwnCause::Spawn
    }
}
