//! Sealing of several messages into one buffer.

ghost use Rattle.std.specs.Prelude.{◌≡◌, ◌≤◌, ◌+◌, length, map, IfErr, IfOk, OnOk, OnErr};
ghost use Rattle.krb_seal.specs.declared.refusal.Refusal.TheVariants.{Memory};
ghost use Rattle.krb_seal.specs.Lent.{advanced_by};
ghost use Rattle.krb_seal.specs.Sealer.{end_of_numbers};
ghost use Rattle.krb_bulk.specs.Many.{CanSealInTurn, SealsInTurn};
ghost use Rattle.krb_structs.specs.Peer.{peer_sealed_many};
ghost use Rattle.krb_calls.specs.Checks.{AllTimed};
ghost use Rattle.krb_calls.specs.Many.{AreSealable, ManyAnswer};
ghost use Rattle.krb_calls.specs.Unsealed.{unsealed_of};
ghost use Rattle.krb_calls.specs.Packed.{SealsPacked};

use crate::checks::{check, forget, put_unsealed};
use crate::frames::{have_room, put_frames};
use crate::many_fault::ManyFault;
use crate::unsealed::KrbUnsealed;
use krb_bulk::{ManyError, Unsealed, are_many, frames_of};
use krb_der::Moment;
use krb_seal::Refusal;
use krb_structs::{AnySealer, Fault, Peer};
use std::alloc::{AllocError, Global};

/// How many messages are sealed in one call at most.
pub const MOST_MESSAGES: usize = 64;

/// Messages in Rattle's type.
fn unsealed<'a>(
    alloc: Global,
    messages: &[KrbUnsealed<'a>],
) -> Result<Vec<Unsealed<'a>>, AllocError>
    requires { AllTimed messages.now }
    ensures { IfOk result (λ all. all.items ≡ map unsealed_of messages.now) }
{
    let Some(epoch) = Moment::from_micros(0) else {
        unreachable!();
    };
    let none = Unsealed {
        user_data: &[],
        at: epoch,
        confounder: [0; 16],
    };
    let mut all = Vec::from_elem(alloc, none, messages.len())?;
    put_unsealed(messages, &mut all);
    Ok(all)
}

/// The frames of messages that can be sealed. Out of memory is the only fault.
fn frames_of_all(
    alloc: Global,
    sealer: &AnySealer,
    all: &[Unsealed<'_>],
) -> Result<Vec<Vec<u8>>, Fault>
    requires { CanSealInTurn sealer.now all.now }
    ensures sealed { IfOk result (λ frames. SealsInTurn sealer.now all.now frames.items) }
    ensures numbers { OnOk result (sealer.now.next + length all.now ≤ end_of_numbers) }
    ensures memory { IfErr result (λ f. f ≡ Fault.Refused Memory) }
{
    match frames_of(alloc, sealer.session_sealer(), all) {
        Ok(frames) => Ok(frames),
        Err(ManyError::Memory) => Err(Fault::Refused(Refusal::Memory)),
        Err(ManyError::Refused { index: _, why: _ }) => unreachable!(),
    }
}

/// The same of messages as C gives them, whose confounders are overwritten where they were copied to.
fn made(
    alloc: Global,
    sealer: &AnySealer,
    messages: &[KrbUnsealed<'_>],
) -> Result<Vec<Vec<u8>>, Fault>
    requires { AreSealable sealer.now messages.now }
    ensures sealed { IfOk result (λ frames.
        SealsInTurn sealer.now (map unsealed_of messages.now) frames.items) }
    ensures numbers { OnOk result (sealer.now.next + length messages.now ≤ end_of_numbers) }
    ensures memory { IfErr result (λ f. f ≡ Fault.Refused Memory) }
{
    let mut all = unsealed(alloc, messages)?;
    let frames = frames_of_all(alloc, sealer, &all);
    forget(&mut all);
    frames
}

/// Writes the frames of messages into a buffer that has room for them, one after another, and the size
/// of each. The sealer stays as it is.
fn put_sealed(
    alloc: Global,
    sealer: &AnySealer,
    messages: &[KrbUnsealed<'_>],
    out: &mut [u8],
    sizes: &mut [usize],
) -> Result<(), ManyFault>
    requires { length messages.now ≤ length sizes.old }
    ensures sealed { OnOk result (SealsPacked sealer.now messages.now out.old out.new
        sizes.old sizes.new) }
    ensures numbers { OnOk result (sealer.now.next + length messages.now ≤ end_of_numbers) }
    ensures out_kept { OnErr result (out.new ≡ out.old) }
    ensures sizes_kept { OnErr result (sizes.new ≡ sizes.old) }
    ensures answer { ManyAnswer sealer.now messages.now (length out.old) result }
{
    check(sealer.session_sealer(), messages)?;
    let frames = made(alloc, sealer, messages)?;
    if !have_room(&frames, out.len()) {
        return Err(ManyFault::All(Fault::Room));
    }
    put_frames(&frames, out, sizes);
    Ok(())
}

/// Seals messages into a buffer that has room for their frames, one after another, and tells the size
/// of each. What follows the frames and the sizes stays, and so does all if nothing is sealed.
pub fn seal_many_into(
    alloc: Global,
    sealer: &mut AnySealer,
    messages: &[KrbUnsealed<'_>],
    out: &mut [u8],
    sizes: &mut [usize],
) -> Result<(), ManyFault>
    requires { length messages.now ≤ length sizes.old }
    ensures sealed { OnOk result (SealsPacked sealer.old messages.now out.old out.new
        sizes.old sizes.new) }
    ensures advanced { OnOk result (sealer.new ≡ advanced_by sealer.old (length messages.now)) }
    ensures unchanged { OnErr result (sealer.new ≡ sealer.old) }
    ensures out_kept { OnErr result (out.new ≡ out.old) }
    ensures sizes_kept { OnErr result (sizes.new ≡ sizes.old) }
    ensures answer { ManyAnswer sealer.old messages.now (length out.old) result }
{
    if are_many(messages.len()) {
        sealer.prepare_batch();
    }
    put_sealed(alloc, sealer, messages, out, sizes)?;
    sealer.pass(messages.len() as u64);
    Ok(())
}

/// The same by a peer, at its own next numbers. What it expects of the other end stays.
pub fn peer_seal_many_into(
    alloc: Global,
    peer: &mut Peer,
    messages: &[KrbUnsealed<'_>],
    out: &mut [u8],
    sizes: &mut [usize],
) -> Result<(), ManyFault>
    requires { length messages.now ≤ length sizes.old }
    ensures sealed { OnOk result (SealsPacked peer.old.sealer messages.now out.old out.new
        sizes.old sizes.new) }
    ensures advanced { OnOk result (peer.new ≡ peer_sealed_many peer.old (length messages.now)) }
    ensures unchanged { OnErr result (peer.new ≡ peer.old) }
    ensures out_kept { OnErr result (out.new ≡ out.old) }
    ensures sizes_kept { OnErr result (sizes.new ≡ sizes.old) }
    ensures answer { ManyAnswer peer.old.sealer messages.now (length out.old) result }
{
    if are_many(messages.len()) {
        peer.prepare_batch();
    }
    put_sealed(alloc, peer.any_sealer(), messages, out, sizes)?;
    peer.pass(messages.len() as u64);
    Ok(())
}
