//! Frames that a peer opens one after another.

ghost use Rattle.std.specs.Prelude.{◌≡◌, ◌≤◌, List, Ok, drop, length, take, IfOk, OnErr, OnOk};
ghost use Rattle.krb_structs.specs.Fault.{answer_of};
ghost use Rattle.krb_structs.specs.Peer.{PeerState, Resumes};
ghost use Rattle.krb_structs.specs.PeerExport.{export_of};
ghost use Rattle.krb_structs.specs.Reasons.{ResumeAnswer};
ghost use Rattle.krb_peers.specs.Plan.{contents};
ghost use Rattle.krb_laws.specs.OpenedFrames.{AnswersAreCalls, OpensEach, OpensFrame, OpensInOrder};
ghost use Rattle.krb_laws.specs.Peers.{PeerEnd};

use crate::fits::resume_peer;
use krb_seal::Refusal;
use krb_structs::{
    ADDRESS_ROOM, Fault, KrbAddress, KrbCarried, KrbDemand, KrbMoment, KrbSession, Peer,
    export_laws,
};
use std::alloc::Global;

const NO_ADDRESS: KrbAddress = KrbAddress {
    kind: 0,
    len: 0,
    bytes: [0; ADDRESS_ROOM],
};

/// What a message carries that tells nothing.
fn nothing_carried() -> KrbCarried {
    KrbCarried {
        seconds: 0,
        microseconds: 0,
        has_seconds: 0,
        has_microseconds: 0,
        has_number: 0,
        number: 0,
        has_receiver: 0,
        sender: NO_ADDRESS,
        receiver: NO_ADDRESS,
        reserved: [0; 6],
    }
}

/// Opens a frame, and gives its user data.
///
/// The peer demands the next number then. On an error it is as it was.
pub fn open_frame(
    peer: &mut Peer,
    alloc: Global,
    frame: &[u8],
    at: &KrbMoment,
) -> Result<Vec<u8>, Fault>
    ensures { OpensFrame peer.old at.now frame.now result peer.new }
{
    let mut user = match vec![in alloc; 0; frame.len()] {
        Ok(user) => user,
        Err(_) => return Err(Fault::Refused(Refusal::Memory)),
    };
    let mut told = nothing_carried();
    let size = peer.open(alloc, frame, at, user.as_mut_slice(), &mut told)?;
    user.truncate(size);
    Ok(user)
}

/// Opens frames one after another, whatever each call answers, and writes each answer: the user data, or the
/// fault.
///
/// Each frame has one answer, which is that of a call from where the frame before it led (`each`). A fault leaves
/// the peer as it was, so a frame whose answer is out of memory may come again. What is opened continues, in order
/// and each once, what the other end sealed, unless a frame that opens is a forgery (`headline`). The answers
/// are calls of which [`peer_laws`](crate::peer_laws) speak (`calls`).
pub fn open_each(
    peer: &mut Peer,
    alloc: Global,
    frames: &[Vec<u8>],
    at: &KrbMoment,
    answers: &mut [Result<Vec<u8>, Fault>],
)
    requires { length answers.old ≡ length frames.now }
    ensures each { OpensEach peer.old at.now (contents frames.now) answers.new peer.new }
    ensures headline { (e : PeerEnd) → OpensInOrder e peer.old (contents frames.now) answers.new }
    ensures calls { AnswersAreCalls peer.old at.now (contents frames.now) answers.new peer.new }
{
    export_laws();
    for k in 0..frames.len() {
        answers[k] = open_frame(peer, alloc, frames[k].as_slice(), at);
    }
}

/// Opens frames one after another: the peer opens the first of them, up to `split`, and a peer that is resumed from
/// its export opens the others. Gives that peer.
///
/// Each frame has one answer, as [`open_each`] says (`before`, `after`). What is opened continues, in order and
/// each once, what the other end sealed, as if no export came between (`headline`). Where the peer can't be
/// resumed the other frames have no answer (`rest`).
pub fn open_through_export(
    peer: &mut Peer,
    alloc: Global,
    etype: i32,
    key: &[u8],
    session: &KrbSession,
    demand: &KrbDemand,
    frames: &[Vec<u8>],
    split: usize,
    at: &KrbMoment,
    answers: &mut [Result<Vec<u8>, Fault>],
) -> Result<Box<Peer>, Fault>
    requires split { split ≤ length frames.now }
    requires answers { length answers.old ≡ length frames.now }
    ensures before { OpensEach peer.old at.now (take split (contents frames.now))
        (take split answers.new) peer.new }
    ensures after { IfOk result (λ b. (resumed : PeerState)
        × Resumes etype key.now session.now demand.now
        (export_of peer.new.sealer.next peer.new.demand.number) resumed
        × OpensEach resumed at.now (drop split (contents frames.now)) (drop split answers.new) b.value) }
    ensures rest { OnErr result (drop split answers.new ≡ drop split answers.old) }
    ensures answer { ResumeAnswer etype (length key.now) session.now demand.now
        (export_of peer.new.sealer.next peer.new.demand.number) (answer_of result) }
    ensures headline { OnOk result (OpensInOrder (record {
      etype = etype;
      key = key.now;
      session = session.now;
      demand = demand.now;
    })
        peer.old (contents frames.now) answers.new) }
{
    export_laws();
    open_each(peer, alloc, &frames[..split], at, &mut answers[..split]);
    let mut resumed = match resume_peer(peer, alloc, etype, key, session, demand) {
        Ok(resumed) => resumed,
        Err(fault) => return Err(fault),
    };
    open_each(
        &mut *resumed,
        alloc,
        &frames[split..],
        at,
        &mut answers[split..],
    );
    Ok(resumed)
}
