//! The places of a sender's table where a job can be wrong.

ghost use Rattle.std.specs.Prelude.{◌≡◌};
ghost use Rattle.krb_job.specs.Place.{name_of};
ghost use Rattle.krb_job.specs.declared.place.KeyError.TheVariants as errors;

use std::alloc::{AllocError, AllocFailed};

/// A key of a sender, in the order in which the keys are checked, or the keys that no sender has.
#[derive(Clone, Copy, Debug, PartialEq, Eq)]
pub enum Place {
    Etype,
    Key,
    Mode,
    First,
    From,
    To,
    WriteTo,
    RequireTo,
    ExpectTime,
    Skew,
    Seed,
    At,
    Now,
    Texts,
    Batch,
    Plan,
    Frames,
    UnknownKey,
}

/// The keys as they are written in the job, in the order of [`Place`].
pub(crate) static SENDER_KEYS: [&str; 17] = [
    "etype",
    "key",
    "mode",
    "first",
    "from",
    "to",
    "write_to",
    "require_to",
    "expect_time",
    "skew",
    "seed",
    "at",
    "now",
    "texts",
    "batch",
    "plan",
    "frames",
];

impl Place {
    /// The key as it is written in the job, or `unknown key`.
    #[tactic(auto, unfolding(crate::specs::Place::sender_keys, crate::specs::Place::name_of))]
    pub fn name(self) -> &'static str
        ensures { result.now ≡ name_of self }
    {
        let place = self as usize;
        if place < SENDER_KEYS.len() {
            SENDER_KEYS[place]
        } else {
            "unknown key"
        }
    }
}

/// Why a sender can't be read.
#[derive(Clone, Copy, Debug, PartialEq, Eq)]
pub(crate) enum KeyError {
    /// The key has a value that isn't allowed, or is absent.
    Bad(Place),
    /// Out of memory.
    Memory,
}

impl From<AllocError> for KeyError {
    ghost from_gives = { λ _ e. e ≡ errors.Memory };

    fn from(_error: AllocError) -> KeyError {
        KeyError::Memory
    }
}

impl<T: Drop> From<AllocFailed<T>> for KeyError {
    ghost from_gives = { λ _ e. e ≡ errors.Memory };

    fn from(_error: AllocFailed<T>) -> KeyError {
        KeyError::Memory
    }
}
