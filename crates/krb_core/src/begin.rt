//! How a stepped relay begins: all is sealed, and each plan is followed.

ghost use Rattle.std.specs.Prelude.{◌<◌, length, IfOk, IfErr};
ghost use Rattle.krb_peers.specs.Ends.{ends_of};
ghost use Rattle.krb_peers.specs.Sending.{source_of, IsSender};
ghost use Rattle.krb_peers.specs.StartError.{IsReason};
ghost use Rattle.krb_core.specs.Start.{IsBegun};

use crate::settled::Settled;
use crate::track::Track;
use krb_peers::{Sending, Sent, StartError, emit_sealed};
use krb_seal::Sealer;
use std::alloc::Global;

/// The lane of a sender and its receiver, through which nothing went, and how much is sealed.
pub(crate) fn begin_lane<S: Sealer>(
    alloc: Global,
    lane: u32,
    sending: Sending<S>,
    receiving: Settled,
    capacity: usize,
) -> Result<(Track, Sent), StartError>
    requires sender { IsSender (source_of S.state sending) }
    requires moments { 0 < length receiving.nows.items }
    ensures ok { IfOk result (λ begun.
        IsBegun (ends_of S.state (sending, receiving)) capacity begun.0 begun.1) }
    ensures err { IfErr result (λ error. IsReason (source_of S.state sending) lane error) }
{
    let sent = sending.sent();
    let wire = emit_sealed(alloc, lane, sending)?;
    Ok((Track::new(wire, receiving, capacity), sent))
}
