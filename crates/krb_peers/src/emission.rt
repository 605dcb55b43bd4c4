//! What a plan makes of frames.

ghost use Rattle.std.specs.Prelude.{◌≡◌, ◌↔◌, IsTrue, IsFalse, IfOk, OnOk, Some};
ghost use Rattle.krb_base.specs.Bytes.{AreBytes};
ghost use Rattle.krb_peers.specs.Plan.{contents, is_good, is_good_emission, emission, emissions, wire};
ghost use Rattle.krb_peers.specs.Verdicts.{AllBytes};

use crate::plan::EmitError;
use krb_base::known_bytes;
use krb_record::Emit;
use std::alloc::{AllocError, Global};

/// What `plan` makes of `frames`: one frame for each emission, in order.
///
/// `BadPlan` is returned if and only if the plan is bad, before any allocation.
pub fn emit(alloc: Global, frames: &[Vec<u8>], plan: &[Emit]) -> Result<Vec<Vec<u8>>, EmitError>
    ensures ok { IfOk result (λ emitted.
        contents emitted.items ≡ wire (contents frames.now) (Some plan.now)) }
    ensures good { OnOk result (IsTrue (is_good (contents frames.now) plan.now)) }
    ensures bad { (result ≡ Err EmitError.BadPlan)
        ↔ IsFalse (is_good (contents frames.now) plan.now) }
    ensures bytes { IfOk result (λ emitted. AllBytes (contents emitted.items)) }
{
    if !is_good(frames, plan) {
        return Err(EmitError::BadPlan);
    }
    Ok(emit_all(alloc, frames, plan)?)
}

/// Whether each emission is good.
pub(crate) fn is_good(frames: &[Vec<u8>], plan: &[Emit]) -> bool
    ensures { result ≡ is_good (contents frames.now) plan.now }
{
    plan.iter()
        .all(|emission| is_good_emission(frames, emission))
}

/// Whether the frames have what `emission` names, and its mask isn't 0.
fn is_good_emission(frames: &[Vec<u8>], emission: &Emit) -> bool
    ensures { result ≡ is_good_emission (contents frames.now) emission.now }
{
    match emission {
        Emit::Frame(k) => *k < frames.len(),
        Emit::Flip { k, at, mask } => { *k < frames.len() && *at < frames[*k].len() && *mask != 0 }
        Emit::Raw(_) => true,
    }
}

/// A law, and no work: what is emitted are bytes, if the frames are.
pub(crate) fn known_emissions(frames: &[Vec<u8>], plan: &[Emit])
    ensures { AllBytes (contents frames.now)
        → AllBytes (emissions (contents frames.now) plan.now) }
{
    for emission in plan {
        known_emission(frames, emission);
    }
}

/// The same of one emission.
fn known_emission(frames: &[Vec<u8>], one: &Emit)
    ensures { AllBytes (contents frames.now)
        → AreBytes (emission (contents frames.now) one.now) }
{
    let _ = frames;
    match one {
        Emit::Frame(_) => {}
        Emit::Flip { mask, .. } => {
            let _mask = *mask;
        }
        Emit::Raw(bytes) => known_bytes(bytes.as_slice()),
    }
}

/// The emissions of a good plan.
fn emit_all(alloc: Global, frames: &[Vec<u8>], plan: &[Emit]) -> Result<Vec<Vec<u8>>, AllocError>
    requires { IsTrue (is_good (contents frames.now) plan.now) }
    ensures ok { IfOk result (λ emitted.
        contents emitted.items ≡ emissions (contents frames.now) plan.now) }
    ensures bytes { IfOk result (λ emitted. AllBytes (contents emitted.items)) }
{
    let mut emitted = Vec::with_capacity(alloc, plan.len())?;
    for emission in plan {
        let frame = emit_one(alloc, frames, emission)?;
        known_bytes(frame.as_slice());
        emitted.push(frame)?;
    }
    Ok(emitted)
}

/// One good emission.
pub(crate) fn emit_one(alloc: Global, frames: &[Vec<u8>], one: &Emit) -> Result<Vec<u8>, AllocError>
    requires { IsTrue (is_good_emission (contents frames.now) one.now) }
    ensures { IfOk result (λ frame. frame.items ≡ emission (contents frames.now) one.now) }
{
    match one {
        Emit::Frame(k) => Vec::from_slice(alloc, frames[*k].as_slice()),
        Emit::Flip { k, at, mask } => {
            let mut frame = Vec::from_slice(alloc, frames[*k].as_slice())?;
            frame[*at] ^= *mask;
            Ok(frame)
        }
        Emit::Raw(bytes) => Vec::from_slice(alloc, bytes.as_slice()),
    }
}
