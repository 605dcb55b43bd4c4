//! How a sender's wire begins: all is sealed, and its plan is looked at.

ghost use Rattle.std.specs.Prelude.{◌≡◌, length, false, Some, IfOk, IfErr, OnOk, OnErr};
ghost use Rattle.krb_peers.specs.Sender.{records};
ghost use Rattle.krb_peers.specs.Sending.{source_of, source_after, unplanned, IsSender, StandsAfterSome};
ghost use Rattle.krb_peers.specs.StartError.{code_of, words_of, IsReason};
ghost use Rattle.krb_peers.specs.Wire.{IsWire};

use crate::gate::{Gate, NoGate};
use crate::sending::Sending;
use crate::wire::Wire;
use krb_seal::{SealError, Sealer};
use std::alloc::{AllocError, Global};
use std::error::Error;
use std::fmt;

/// Why nothing is sent on a lane.
#[derive(Clone, Copy, Debug, PartialEq, Eq)]
pub enum StartError {
    /// Out of memory.
    Memory,
    /// The plan of this lane names a frame or a byte that doesn't exist, or a mask of 0.
    BadPlan { lane: u32 },
    /// The sealer of this lane was wiped.
    Wiped { lane: u32 },
}

impl StartError {
    /// The number of this error: 1, 2 or 3.
    pub fn code(&self) -> u32
        ensures { result ≡ code_of self.now }
    {
        match self {
            StartError::Memory => 1,
            StartError::BadPlan { .. } => 2,
            StartError::Wiped { .. } => 3,
        }
    }
}

impl fmt::Display for StartError {
    ghost output = { λ error. Some (words_of error) };

    fn fmt<W: fmt::Write>(&self, f: &mut fmt::Formatter<W>) -> fmt::Result {
        match self {
            StartError::Memory => write!(f, "out of memory"),
            StartError::BadPlan { lane } => {
                write!(
                    f,
                    "the plan of lane {lane} names what its frames don't have"
                )
            }
            StartError::Wiped { lane } => write!(f, "the sealer of lane {lane} was wiped"),
        }
    }
}

impl Error for StartError {}

impl From<AllocError> for StartError {
    ghost use Rattle.krb_peers.specs.declared.start.StartError.TheVariants.{Memory};

    ghost from_gives = { λ _ e. e ≡ Memory };

    fn from(_: AllocError) -> StartError {
        StartError::Memory
    }
}

/// Seals all records of the sender of `lane`, and answers its wire.
pub fn emit_sealed<S: Sealer>(
    alloc: Global,
    lane: u32,
    mut sending: Sending<S>,
) -> Result<Wire, StartError>
    requires { IsSender (source_of S.state sending) }
    ensures ok { IfOk result (λ wire. IsWire (source_of S.state sending) wire) }
    ensures live { OnOk result ((S.state sending.sealer).wiped ≡ false) }
    ensures err { IfErr result (λ error. IsReason (source_of S.state sending) lane error) }
{
    emit_sealed_within(alloc, &NoGate, lane, &mut sending)
}

/// Seals all records of the sender of `lane`, each seal call within `gate`, and answers its wire,
/// which takes the sender's plan.
pub fn emit_sealed_within<G: Gate, S: Sealer>(
    alloc: Global,
    gate: &G,
    lane: u32,
    sending: &mut Sending<S>,
) -> Result<Wire, StartError>
    requires { IsSender (source_of S.state sending.old) }
    ensures ok { IfOk result (λ wire. IsWire (source_of S.state sending.old) wire) }
    ensures live { OnOk result ((S.state sending.old.sealer).wiped ≡ false) }
    ensures err { IfErr result (λ error. IsReason (source_of S.state sending.old) lane error) }
    ensures source_after { OnOk result (source_of S.state sending.new ≡ unplanned (source_after
        (length (records (source_of S.state sending.old))) (source_of S.state sending.old))) }
    ensures stopped { OnErr result
        (StandsAfterSome (source_of S.state sending.old) (S.state sending.new.sealer)) }
{
    let frames = match sending.seal_all_within(alloc, gate, lane) {
        Ok(frames) => frames,
        Err(SealError::Wiped) => return Err(StartError::Wiped { lane }),
        Err(_) => return Err(StartError::Memory),
    };
    match Wire::new(frames, sending.plan.take()) {
        Some(wire) => Ok(wire),
        None => Err(StartError::BadPlan { lane }),
    }
}
