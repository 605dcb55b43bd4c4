//! What a sender puts on its wire, one emission at a time.

ghost use Rattle.std.specs.Prelude.{◌≡◌, ◌<◌, ◌^◌, Some, true, false, length, slice_get, option_map, IfOk, IfSome, IfNone, OnSome};
ghost use Rattle.krb_peers.specs.Plan.{contents, is_planned, wire};
ghost use Rattle.krb_peers.specs.Verdicts.{AllBytes};

use crate::emission::{emit_one, is_good, known_emissions};
use krb_record::Emit;
use std::alloc::{AllocError, Global};
use std::marker::Model;

/// The wire of a sender: the frames of all its records, and the plan that says which of them come, in
/// which order and with which bytes. Contracts see it as the list of its emissions.
///
/// An emission is made when it is asked for. So a wire takes the memory of its frames and its plan,
/// however often the plan repeats a frame.
#[derive(Drop)]
pub struct Wire {
    frames: Vec<Vec<u8>>,
    plan: Option<Vec<Emit>>,
}

impl Model for Wire {
    ghost use Rattle.std.specs.Prelude.{◌≡◌, ℕ, List, true, option_map};
    ghost use Rattle.krb_peers.specs.Plan.{contents, is_planned, wire};

    ghost Value = { List (List ℕ) };

    ghost view = { λ w.
        wire (contents w.frames.items) (option_map (λ plan. plan.items) w.plan) };

    ghost invariant = { λ w.
        is_planned (contents w.frames.items) (option_map (λ plan. plan.items) w.plan) ≡ true };
}

impl Wire {
    /// The wire of these frames under a plan, or of the frames as they are if there is none. A bad
    /// plan makes no wire.
    pub(crate) fn new(frames: Vec<Vec<u8>>, plan: Option<Vec<Emit>>) -> Option<Wire>
        ensures value { IfSome result (λ emitted. emitted
            ≡ wire (contents frames.items) (option_map (λ plan. plan.items) plan)) }
        ensures planned { OnSome result
            (is_planned (contents frames.items) (option_map (λ plan. plan.items) plan) ≡ true) }
        ensures bad { IfNone result
            (is_planned (contents frames.items) (option_map (λ plan. plan.items) plan) ≡ false) }
        ensures bytes { AllBytes (contents frames.items) → IfSome result AllBytes }
    {
        if is_planned(frames.as_slice(), &plan) {
            Some(Wire { frames, plan })
        } else {
            None
        }
    }

    /// How many emissions there are.
    pub fn len(&self) -> usize
        ensures count { result ≡ length self.now }
        ensures few { result < 2 ^ 63 }
    {
        match &self.plan {
            None => self.frames.len(),
            Some(plan) => plan.len(),
        }
    }

    /// Emission `k`, in a block of its own. It exists. The only error is out of memory.
    pub fn emission(&self, alloc: Global, k: usize) -> Result<Vec<u8>, AllocError>
        requires { k < length self.now }
        ensures { IfOk result (λ frame. slice_get self.now k ≡ Some frame.items) }
    {
        match &self.plan {
            None => Vec::from_slice(alloc, self.frames[k].as_slice()),
            Some(plan) => emit_one(alloc, self.frames.as_slice(), &plan[k]),
        }
    }
}

/// Whether the plan is good, if there is one. What it emits are bytes, if the frames are.
fn is_planned(frames: &[Vec<u8>], plan: &Option<Vec<Emit>>) -> bool
    ensures planned { result
        ≡ is_planned (contents frames.now) (option_map (λ plan. plan.items) plan.now) }
    ensures bytes { result ≡ true → AllBytes (contents frames.now) → AllBytes
        (wire (contents frames.now) (option_map (λ plan. plan.items) plan.now)) }
{
    let Some(plan) = plan else {
        return true;
    };
    known_emissions(frames, plan.as_slice());
    is_good(frames, plan.as_slice())
}
