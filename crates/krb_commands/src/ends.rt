//! The two ends of a lane, as a job states them.

ghost use Rattle.std.specs.Prelude.{◌≡◌, ◌+◌, ◌<◌, ◌≤◌, ◌∷◌, ◌++◌, [], false, ℕ, List, length, map, IsSome, IfOk, IfErr, OnOk, Some};
ghost use Rattle.krb_seal.specs.Session.{HasShortAddresses};
ghost use Rattle.krb_peers.specs.Planned.{IsPaired};
ghost use Rattle.krb_peers.specs.Ends.{lanes_of};
ghost use Rattle.krb_job.specs.SenderKeys.{Sender};
ghost use Rattle.krb_job.specs.SenderView.{sender_view};
ghost use Rattle.krb_peers.specs.Sending.{source_of, IsSender};
ghost use Rattle.krb_base.specs.Limits.{last_number};
ghost use Rattle.krb_commands.specs.Ends as ends;

use crate::fault::Fault;
use krb_der::HostAddress;
use krb_job::SenderJob;
use krb_peers::{Receiver, Receiving, Sending};
use krb_seal::{Expect, Opener, Sealer, Session, SessionKey, SessionSealer};
use rand_chacha::ChaCha20Rng;
use rand_core::SeedableRng;
use std::alloc::{AllocError, Global};

/// The key of a sender of a job.
pub fn key_of(sender: &SenderJob) -> SessionKey
    ensures etype { result.etype ≡ sender.now.etype }
    ensures bytes { result.bytes ≡ sender.now.key }
{
    SessionKey::copy_of(sender.etype, sender.key.as_slice()).unwrap()
}

/// The session that a sender of a job seals for.
pub fn session_of(alloc: Global, sender: &SenderJob) -> Result<Session, AllocError>
    ensures session { IfOk result (λ session. session ≡ ends.session_of (sender_view sender.now)) }
    ensures short { IfOk result HasShortAddresses }
{
    let r_addr = if sender.write_to {
        Some(copy_of(alloc, &sender.to)?)
    } else {
        None
    };
    Ok(Session {
        mode: sender.mode,
        s_addr: copy_of(alloc, &sender.from)?,
        r_addr,
        first: sender.first,
    })
}

/// The sealer of a sender of a job, which has sealed nothing.
pub fn sealer_of(alloc: Global, sender: &SenderJob) -> Result<SessionSealer, AllocError>
    ensures made { IfOk result (λ sealer. sealer ≡ ends.sealer_of (sender_view sender.now)) }
    ensures next { IfOk result (λ sealer. sealer.next ≤ last_number) }
{
    let session = session_of(alloc, sender)?;
    Ok(SessionSealer::new(key_of(sender), session))
}

/// What the receiver of a job's lane expects of each message.
fn expect_of(alloc: Global, sender: &SenderJob) -> Result<Expect, AllocError>
    ensures { IfOk result (λ expect. expect ≡ ends.expect_of (sender_view sender.now)) }
{
    Ok(Expect {
        mode: sender.mode,
        s_addr: copy_of(alloc, &sender.from)?,
        r_addr: copy_of(alloc, &sender.to)?,
        require_r: sender.require_to,
        expect_time: sender.expect_time,
        skew: sender.skew,
    })
}

/// The receiver of a job's lane, which has taken nothing, and its moments.
pub fn receiving_of(alloc: Global, sender: &SenderJob) -> Result<Receiving, AllocError>
    ensures receiver { IfOk result (λ receiving.
        receiving.receiver ≡ ends.receiver_of (sender_view sender.now)) }
    ensures nows { IfOk result (λ receiving. receiving.nows.items ≡ sender.now.nows.items) }
    ensures moments { IfOk result (λ receiving. 0 < length receiving.nows.items) }
{
    let expect = expect_of(alloc, sender)?;
    let opener = Opener::new(key_of(sender), expect);
    Ok(Receiving {
        receiver: Receiver::new(opener, sender.first),
        nows: sender.nows.clone()?,
    })
}

/// The sender of a job's lane, around a sealer of its session.
///
/// The job is one of a command that seals, so it has a seed.
pub fn sending_of<S: Sealer>(sender: SenderJob, sealer: S) -> Sending<S>
    requires seed { IsSome sender.seed }
    ensures source { Some (source_of S.state result)
        ≡ ends.source_in (sender_view sender) (S.state sealer) }
    ensures sealer { S.state result.sealer ≡ S.state sealer }
    ensures limits { (S.state sealer).next ≤ last_number → IsSender (source_of S.state result) }
{
    let seed = sender.seed.unwrap();
    Sending {
        sealer,
        texts: sender.texts,
        batch: sender.batch,
        ats: sender.ats,
        draws: ChaCha20Rng::from_seed(seed),
        plan: sender.plan,
    }
}

/// Adds the ends of a job's lane to those of the lanes before it, around a sealer of its session.
///
/// The job is one of a command that seals, so it has a seed. The sealer wasn't wiped, and has a
/// number left for the close. Out of memory is the only error; after it one of the lists may be
/// longer than the other.
pub fn push_lane<S: Sealer>(
    alloc: Global,
    sendings: &mut Vec<Sending<S>>,
    receivings: &mut Vec<Receiving>,
    sender: SenderJob,
    sealer: S,
) -> Result<(), Fault>
    requires seed { IsSome sender.seed }
    requires live { (S.state sealer).wiped ≡ false }
    requires next { (S.state sealer).next ≤ last_number }
    requires ready { ends.AreReady S.state sendings.old.items receivings.old.items }
    ensures lane { OnOk result
        (map Some (lanes_of S.state sendings.new.items receivings.new.items)
        ≡ map Some (lanes_of S.state sendings.old.items receivings.old.items)
        ++ ends.ends_in (sender_view sender) (S.state sealer) ∷ []) }
    ensures ready { OnOk result
        (ends.AreReady S.state sendings.new.items receivings.new.items) }
    ensures count { OnOk result
        (length sendings.new.items ≡ length sendings.old.items + 1) }
    ensures faults { IfErr result (λ fault. fault ≡ Fault.Memory) }
{
    let receiving = receiving_of(alloc, &sender);
    // A sender lets its sealer go wiped, so it is made first.
    let sending = sending_of(sender, sealer);
    let receiving = receiving?;
    receivings.push(receiving)?;
    sendings.push(sending)?;
    Ok(())
}

/// A law, and no work: both ends of a job's lane have one key, and the number that is demanded
/// first is the sender's.
pub fn job_lanes_are_paired()
    ensures { (sender : Sender) (seed : List ℕ)
        → IsPaired (ends.ends_with sender (ends.source_with sender (ends.sealer_of sender) seed)) }
{}

fn copy_of(alloc: Global, address: &HostAddress) -> Result<HostAddress, AllocError>
    ensures { IfOk result (λ copy. copy ≡ address.now) }
{
    HostAddress::new(alloc, address.kind, address.bytes.as_slice())
}
