//! What a worker does: it seals its sender's records, and sends the frames.

ghost use Rattle.std.specs.Prelude.{◌≡◌, ◌⊎◌, ◌+◌, ◌<◌, ◌≤◌, ◌++◌, ◌∷◌, [], ℕ, List, length, false, true, None, IfOk, IfErr, OnOk, OnErr};
ghost use Rattle.krb_base.specs.Bytes.{AreBytes};
ghost use Rattle.krb_base.specs.Prefix.{IsPrefix};
ghost use Rattle.krb_peers.specs.Sender.{Source, records, texts_before};
ghost use Rattle.krb_peers.specs.Sending.{source_of, before, IsSender, HasSealed};
ghost use Rattle.krb_relay.specs.Sent.{IsAll, IsCut, IsOfSealing, Sends, Served, sealed_since};

use crate::cause::Cause;
use krb_base::known_bytes;
use krb_lane::{LaneTx, SentAll};
use krb_peers::{Gate, Sending, Wire, emit_sealed_within};
use krb_seal::{SealError, Sealer};
use std::alloc::Global;
use std::sync::Wait;

/// What a worker returns: its end of the lane, how many records it sealed, and why it stopped if it
/// didn't send all.
#[derive(Drop)]
pub(crate) struct Handed {
    pub(crate) all: SentAll,
    pub(crate) sealed: usize,
    pub(crate) cause: Option<Cause>,
}

/// How a worker ended: how many records it sealed, and why it stopped if it didn't send all.
#[derive(Drop)]
pub(crate) struct Ended {
    pub(crate) sealed: usize,
    pub(crate) cause: Option<Cause>,
}

/// Seals and sends what a sender has for its lane, and then End.
///
/// Without a plan each frame is sent before the next record is sealed. With a plan all records are
/// sealed first. Then each emission is made and sent before the next.
pub(crate) fn serve<R: Wait, G: Gate, S: Sealer>(
    rt: &R,
    alloc: Global,
    gate: &G,
    lane: u32,
    mut sending: Sending<S>,
    mut tx: LaneTx,
) -> Handed
    requires fresh { tx.frames ≡ [] }
    requires sender { IsSender (source_of S.state sending) }
    ensures { Served (source_of S.state sending) tx result }
{
    let Ended { sealed, cause } = send_all(rt, alloc, gate, lane, &mut sending, &mut tx);
    match tx.end(rt) {
        Ok(all) => Handed { all, sealed, cause },
        Err(tx) => Handed {
            all: tx.stop(),
            sealed,
            cause: Some(cause.unwrap_or(Cause::Lost)),
        },
    }
}

/// Seals and sends what a sender has for its lane, and says how many records it sealed, and why it
/// stopped if that isn't all. After that the sealer is wiped in place.
fn send_all<R: Wait, G: Gate, S: Sealer>(
    rt: &R,
    alloc: Global,
    gate: &G,
    lane: u32,
    sending: &mut Sending<S>,
    tx: &mut LaneTx,
) -> Ended
    requires fresh { tx.old.frames ≡ [] }
    requires sender { IsSender (source_of S.state sending.old) }
    ensures sends { Sends (source_of S.state sending.old) result.sealed tx.new.frames result.cause }
    ensures sealed { (S.state sending.new.sealer).next
        ≡ (S.state sending.old.sealer).next + result.sealed }
    ensures lane { tx.new.lane ≡ tx.old.lane }
    ensures wiped { (S.state sending.new.sealer).wiped ≡ true }
{
    let first = sending.sealer.next();
    let sent = match sending.plan {
        None => seal_and_send(rt, alloc, gate, lane, sending, tx),
        Some(_) => send_planned(rt, alloc, gate, lane, sending, tx),
    };
    let sealed = (sending.sealer.next() - first) as usize;
    sending.sealer.wipe();
    Ended {
        sealed,
        cause: sent.err(),
    }
}

/// Seals the records and sends their frames in turn.
fn seal_and_send<R: Wait, G: Gate, S: Sealer>(
    rt: &R,
    alloc: Global,
    gate: &G,
    lane: u32,
    sending: &mut Sending<S>,
    tx: &mut LaneTx,
) -> Result<(), Cause>
    requires fresh { tx.old.frames ≡ [] }
    requires sender { IsSender (source_of S.state sending.old) }
    requires unplanned { (source_of S.state sending.old).plan ≡ None }
    ensures all { OnOk result (IsAll (source_of S.state sending.old) tx.new.frames) }
    ensures sealed { OnOk result (sealed_since (source_of S.state sending.old)
        (source_of S.state sending.new) ≡ length (records (source_of S.state sending.old))) }
    ensures cut { IfErr result (IsCut (source_of S.state sending.old)
        (sealed_since (source_of S.state sending.old) (source_of S.state sending.new))
        tx.new.frames) }
    ensures later { (S.state sending.old.sealer).next ≤ (S.state sending.new.sealer).next }
    ensures lane { tx.new.lane ≡ tx.old.lane }
{
    let mut passed = 0;
    for k in 0..sending.records() {
        let frame = seal_one(alloc, gate, lane, sending, k, &mut passed)?;
        if tx.send(rt, frame).is_err() {
            return Err(Cause::Lost);
        }
    }
    Ok(())
}

/// Seals all records, and sends what the plan makes of their frames.
fn send_planned<R: Wait, G: Gate, S: Sealer>(
    rt: &R,
    alloc: Global,
    gate: &G,
    lane: u32,
    sending: &mut Sending<S>,
    tx: &mut LaneTx,
) -> Result<(), Cause>
    requires fresh { tx.old.frames ≡ [] }
    requires sender { IsSender (source_of S.state sending.old) }
    ensures all { OnOk result (IsAll (source_of S.state sending.old) tx.new.frames) }
    ensures sealed { OnOk result (sealed_since (source_of S.state sending.old)
        (source_of S.state sending.new) ≡ length (records (source_of S.state sending.old))) }
    ensures cut { IfErr result (IsCut (source_of S.state sending.old)
        (sealed_since (source_of S.state sending.old) (source_of S.state sending.new))
        tx.new.frames) }
    ensures later { (S.state sending.old.sealer).next ≤ (S.state sending.new.sealer).next }
    ensures lane { tx.new.lane ≡ tx.old.lane }
{
    let wire = emit_sealed_within(alloc, gate, lane, sending)?;
    send_wire(rt, alloc, &wire, tx)
}

/// Sends the emissions in turn. Each is made once the one before is sent.
fn send_wire<R: Wait>(rt: &R, alloc: Global, wire: &Wire, tx: &mut LaneTx) -> Result<(), Cause>
    requires fresh { tx.old.frames ≡ [] }
    ensures ok { OnOk result (tx.new.frames ≡ wire.now) }
    ensures stopped { IfErr result (λ cause. ((cause ≡ Cause.Memory) ⊎ (cause ≡ Cause.Lost))
        × IsPrefix tx.new.frames wire.now) }
    ensures lane { tx.new.lane ≡ tx.old.lane }
{
    for k in 0..wire.len() {
        let Ok(frame) = wire.emission(alloc, k) else {
            return Err(Cause::Memory);
        };
        if tx.send(rt, frame).is_err() {
            return Err(Cause::Lost);
        }
    }
    Ok(())
}

/// The frame of record `k`, sealed within the gate. `passed` is how many texts the records before it
/// have, and its own are added.
fn seal_one<G: Gate, S: Sealer>(
    alloc: Global,
    gate: &G,
    lane: u32,
    sending: &mut Sending<S>,
    k: usize,
    passed: &mut usize,
) -> Result<Vec<u8>, Cause>
    requires sender { IsSender (source_of S.state sending.old) }
    requires begun { k ≤ (S.state sending.old.sealer).next }
    requires there { k < length (records (before k (source_of S.state sending.old))) }
    requires passed { passed.old ≡ texts_before k (source_of S.state sending.old) }
    ensures frames { IfOk result (λ frame. (source : Source) (frames : List (List ℕ))
        → HasSealed source k frames (source_of S.state sending.old)
        → HasSealed source (k + 1) (frames ++ frame.items ∷ []) (source_of S.state sending.new)) }
    ensures passed { OnOk result
        (passed.new ≡ texts_before (k + 1) (source_of S.state sending.old)) }
    ensures bytes { IfOk result (λ frame. AreBytes frame.items) }
    ensures live { OnOk result ((S.state sending.old.sealer).wiped ≡ false) }
    ensures cause { IfErr result (IsOfSealing (S.state sending.old.sealer).wiped) }
    ensures unchanged { OnErr result
        (S.state sending.new.sealer ≡ S.state sending.old.sealer) }
{
    gate.enter(lane);
    let sealed = sending.seal_record(alloc, k, passed);
    gate.leave(lane);
    match sealed {
        Ok(frame) => {
            known_bytes(frame.as_slice());
            Ok(frame)
        }
        Err(SealError::Wiped) => Err(Cause::Wiped),
        Err(_) => Err(Cause::Memory),
    }
}
