//! The command `relay`. Each sealer is boxed here, so that its keys stay where they lie.

ghost use Rattle.std.specs.Prelude.{◌≡◌, ◌≤◌, ◌+◌, ◌∷◌, ◌++◌, [], ℕ, length, map, All, Some, IsSome, IfOk, IfErr, OnOk, OnErr};
ghost use Rattle.std.specs.Io.KnownBytes.{Keeps};
ghost use Rattle.krb_base.specs.Limits.{last_number};
ghost use Rattle.krb_peers.specs.Ends.{lanes_of};
ghost use Rattle.krb_job.specs.declared.bad_input.BadInput.{BadInput};
ghost use Rattle.krb_job.specs.Job.{job_view};
ghost use Rattle.krb_job.specs.SenderView.{sender_view};
ghost use Rattle.krb_commands.specs.declared.fault.KeyFault.{KeyFault};
ghost use Rattle.krb_commands.specs.Ends as ends;
ghost use Rattle.krb_commands.specs.Ends.{AreReady, lane_stated};
ghost use Rattle.krb_commands.specs.JobInput.{ReadsInput, PrintsNothing};
ghost use Rattle.krb_commands.specs.Parsed.{Parsed, IsParsed};
ghost use Rattle.krb_program.specs.RelayFault.{IsOfRelaying};
ghost use Rattle.krb_program.specs.RelayedJob.{RelaysParsed, RelaysParsedPrefix, RelaysJob, RelaysJobPrefix, StopsJob, StopsParsed, HasBadPlan, IsBadToRelay};

use crate::relaying::relay_job;
use krb_commands::{Fault, parsed_job, push_lane, sealer_of};
use krb_job::{Command, Job, SenderJob};
use krb_peers::{Receivers, Receiving, Sending};
use krb_relay::Gate;
use krb_seal::Sealer;
use std::alloc::Global;
use std::io::{Read, Write};
use std::sync::Wait;
use std::thread::Threads;

/// Relays the texts of all senders of the job, each sealed in a thread of its own within the gate.
pub fn relay<T: Threads + Wait + Sync, R: Read, W: Write, G: Gate + Sync>(
    rt: &T,
    alloc: Global,
    reader: &mut R,
    writer: &mut W,
    gate: &G,
) -> Result<u8, Fault>
    ensures printed { (parsed : Parsed) → IsParsed Command.Relay (R.remaining reader.old) parsed
        → IfOk result (RelaysParsed parsed (W.contents writer.old) (W.contents writer.new)) }

    ensures reading { ReadsInput Command.Relay (R.remaining reader.old) IsBadToRelay result }
    ensures nothing { PrintsNothing (W.contents writer.old) (W.contents writer.new) result }
    ensures no_key { (key : KeyFault) → ¬ (result ≡ Err (Fault.Key key)) }
    ensures stopped { (parsed : Parsed) → IsParsed Command.Relay (R.remaining reader.old) parsed
        → (lines : ℕ) → result ≡ Err (Fault.Stopped lines)
        → StopsParsed parsed lines (W.contents writer.old) (W.contents writer.new) }
    ensures thread { (parsed : Parsed) → IsParsed Command.Relay (R.remaining reader.old) parsed
        → (lines : ℕ) → result ≡ Err (Fault.Thread lines)
        → StopsParsed parsed lines (W.contents writer.old) (W.contents writer.new) }
    ensures prefix { (parsed : Parsed) → IsParsed Command.Relay (R.remaining reader.old) parsed
        → OnErr result (RelaysParsedPrefix parsed (W.contents writer.old) (W.contents writer.new)) }
{
    let job = parsed_job(alloc, reader, Command::Relay)?;
    relay_senders(rt, alloc, job, writer, gate)
}

/// Relays the texts of the senders of a job, each of which has a seed.
fn relay_senders<T: Threads + Wait + Sync, W: Write, G: Gate + Sync>(
    rt: &T,
    alloc: Global,
    job: Job,
    writer: &mut W,
    gate: &G,
) -> Result<u8, Fault>
    requires { All (λ sender. IsSome sender.seed) job.senders.items }
    ensures printed { IfOk result (λ status.
        RelaysJob (job_view job) (W.contents writer.old) (W.contents writer.new) status) }

    ensures bad_plan { (bad : BadInput) → result ≡ Err (Fault.BadInput bad)
        → HasBadPlan (job_view job) bad }
    ensures bad_plan_prints_nothing { (bad : BadInput) → result ≡ Err (Fault.BadInput bad)
        → Keeps (W.contents writer.old) (W.contents writer.new) }
    ensures stopped { (lines : ℕ) → result ≡ Err (Fault.Stopped lines)
        → StopsJob (job_view job) lines (W.contents writer.old) (W.contents writer.new) }
    ensures thread { (lines : ℕ) → result ≡ Err (Fault.Thread lines)
        → StopsJob (job_view job) lines (W.contents writer.old) (W.contents writer.new) }
    ensures prefix { OnErr result
        (RelaysJobPrefix (job_view job) (W.contents writer.old) (W.contents writer.new)) }
    ensures faults { IfErr result IsOfRelaying }
{
    let Job { capacity, senders } = job;
    let mut sendings = Vec::with_capacity(alloc, senders.len())?;
    let mut receivers = Receivers::with_capacity(alloc, senders.len())?;
    for sender in senders {
        let sealer: Box<dyn Sealer + Send> = Box::new(alloc, sealer_of(alloc, &sender)?)?;
        push_parsed(alloc, &mut sendings, &mut receivers.items, sender, sealer)?;
    }
    let receivings = receivers.into_vec(alloc);
    relay_job(rt, alloc, sendings, receivings, capacity, writer, gate)
}

/// Adds a sender's lane to those of the senders before it.
fn push_parsed<S: Sealer>(
    alloc: Global,
    sendings: &mut Vec<Sending<S>>,
    receivings: &mut Vec<Receiving>,
    sender: SenderJob,
    sealer: S,
) -> Result<(), Fault>
    requires seed { IsSome sender.seed }
    requires made { S.state sealer ≡ ends.sealer_of (sender_view sender) }
    requires next { (S.state sealer).next ≤ last_number }
    requires ready { AreReady S.state sendings.old.items receivings.old.items }
    ensures lane { OnOk result
        (map Some (lanes_of S.state sendings.new.items receivings.new.items)
        ≡ map Some (lanes_of S.state sendings.old.items receivings.old.items)
        ++ lane_stated (sender_view sender) ∷ []) }
    ensures ready { OnOk result
        (AreReady S.state sendings.new.items receivings.new.items) }
    ensures count { OnOk result
        (length sendings.new.items ≡ length sendings.old.items + 1) }
    ensures faults { IfErr result (λ fault. fault ≡ Fault.Memory) }
{
    push_lane(alloc, sendings, receivings, sender, sealer)
}
