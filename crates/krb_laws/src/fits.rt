//! Each call that succeeds is one of the calls that the laws speak of.

ghost use Rattle.std.specs.Prelude.{◌≡◌, ◌≤◌, ℕ, List, Option, Some, IfOk, OnErr, All, drop, length, take};
ghost use Rattle.krb_structs.specs.Fault.{answer_of};
ghost use Rattle.krb_structs.specs.Moment.{micros_of};
ghost use Rattle.krb_structs.specs.Opening.{MisordersTo};
ghost use Rattle.krb_structs.specs.PeerExport.{export_of};
ghost use Rattle.krb_structs.specs.Reasons.{DemandAnswer, ResumeAnswer, SealAnswer};
ghost use Rattle.krb_peers.specs.Calls.{Answers, AreCalls, Call, Moves};
ghost use Rattle.krb_peers.specs.Plan.{contents};
ghost use Rattle.krb_laws.specs.TakenFrames.{AreAnswers, frames_of};
ghost use Rattle.krb_laws.specs.Peers.{PeerEnd, IsPeerCall};
ghost use Rattle.krb_laws.specs.Peers.PeerCall.{Sealed, Opened, Resumed};

use krb_der::Moment;
use krb_peers::{Delivery, Receiver, calls_laws};
use krb_seal::Refusal;
use krb_structs::{Fault, KrbCarried, KrbDemand, KrbMoment, KrbSession, Peer};
use std::alloc::Global;

/// Takes a frame.
pub fn take_frame(
    receiver: &mut Receiver,
    alloc: Global,
    frame: &[u8],
    now: Moment,
) -> Result<Delivery, Refusal>
    ensures { (verdict : Option _) × Answers result verdict
        × Moves receiver.old now frame.now verdict receiver.new }
{
    calls_laws();
    receiver.take(alloc, frame, now)
}

/// Seals user data at the peer's next number, and answers the size of the frame, with which `out` begins then.
///
/// It succeeds if and only if all conditions of `SealAnswer` hold and memory was available, and else its fault is
/// that of the first that doesn't hold, and nothing has changed.
pub fn seal_peer(
    peer: &mut Peer,
    alloc: Global,
    user: &[u8],
    at: &KrbMoment,
    confounder: &[u8; 16],
    out: &mut [u8],
) -> Result<usize, Fault>
    ensures call { IfOk result (λ size. (e : PeerEnd) → IsPeerCall e peer.old (Sealed (record {
      user = user.now;
      at = micros_of at.now;
      confounder = confounder.now;
      frame = take size out.new;
    })) peer.new) }
    ensures none { OnErr result (peer.new ≡ peer.old) }
    ensures size { IfOk result (λ size. size ≤ length out.new) }
    ensures rest { IfOk result (λ size. drop size out.new ≡ drop size out.old) }
    ensures kept { OnErr result (out.new ≡ out.old) }
    ensures answer { SealAnswer peer.old.sealer (length user.now) at.now (length out.old)
        (answer_of result) }
{
    peer.seal(alloc, user, at, confounder, out)
}

/// Opens a frame, and answers the size of its user data, with which `out` begins then.
///
/// It succeeds if and only if all conditions of `DemandAnswer` hold and memory was available, and else its fault is
/// that of the first that doesn't hold. Then nothing has changed, but that `told` says what a message carried
/// that was refused for its number alone (BADORDER).
pub fn open_peer(
    peer: &mut Peer,
    alloc: Global,
    frame: &[u8],
    at: &KrbMoment,
    out: &mut [u8],
    told: &mut KrbCarried,
) -> Result<usize, Fault>
    ensures call { IfOk result (λ size. (e : PeerEnd) → IsPeerCall e peer.old (Opened (record {
      frame = frame.now;
      now = micros_of at.now;
      user = take size out.new;
      told = told.new;
    })) peer.new) }
    ensures none { OnErr result (peer.new ≡ peer.old) }
    ensures size { IfOk result (λ size. size ≤ length out.new) }
    ensures rest { IfOk result (λ size. drop size out.new ≡ drop size out.old) }
    ensures kept { OnErr result (out.new ≡ out.old) }
    ensures misordered { answer_of result ≡ 42 → MisordersTo (Some peer.old.opener)
        peer.old.demand (micros_of at.now) frame.now told.new }
    ensures untold { ¬ (answer_of result ≡ 0) → ¬ (answer_of result ≡ 42) → told.new ≡ told.old }
    ensures answer { DemandAnswer (Some peer.old.opener) peer.old.demand at.now frame.now
        (length out.old) (answer_of result) }
{
    peer.open(alloc, frame, at, out, told)
}

/// Goes on from the export of a peer.
///
/// It succeeds if and only if all conditions of `ResumeAnswer` hold and memory was available, and else its fault is
/// that of the first that doesn't hold.
pub fn resume_peer(
    peer: &Peer,
    alloc: Global,
    etype: i32,
    key: &[u8],
    session: &KrbSession,
    demand: &KrbDemand,
) -> Result<Box<Peer>, Fault>
    ensures call { IfOk result (λ b. (state : List ℕ) × IsPeerCall (record {
      etype = etype;
      key = key.now;
      session = session.now;
      demand = demand.now;
    })
        peer.now (Resumed state) b.value) }
    ensures answer { ResumeAnswer etype (length key.now) session.now demand.now
        (export_of peer.now.sealer.next peer.now.demand.number) (answer_of result) }
{
    let state = peer.export();
    Peer::resume(alloc, etype, key, session, demand, &state)
}

/// Takes frames one after another, whatever each call answers, and writes each answer.
///
/// There is one call for each frame, in their order, and each is made at `now`. Its answer is its verdict, or
/// out of memory: then nothing changed, and the frame may be taken again.
pub fn take_each(
    receiver: &mut Receiver,
    alloc: Global,
    frames: &[Vec<u8>],
    now: Moment,
    answers: &mut [Result<Delivery, Refusal>],
)
    requires { length answers.old ≡ length frames.now }
    ensures { (calls : List Call) × AreCalls receiver.old calls receiver.new
        × (frames_of calls ≡ contents frames.now) × All (λ call. call.now ≡ now) calls
        × AreAnswers answers.new calls }
{
    calls_laws();
    for k in 0..frames.len() {
        answers[k] = receiver.take(alloc, frames[k].as_slice(), now);
    }
}
