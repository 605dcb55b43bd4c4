//! The commands that read a job of one sender. The sealer is boxed here, so that its keys stay where
//! they lie.

ghost use Rattle.std.specs.Prelude.{◌≡◌, ◌≤◌, true, ℕ, length, All, IsSome, IfOk, IfErr, OnOk, OnErr};
ghost use Rattle.std.specs.Io.KnownBytes.{Keeps};
ghost use Rattle.krb_base.specs.Limits.{last_number};
ghost use Rattle.krb_job.specs.declared.bad_input.BadInput.{BadInput};
ghost use Rattle.krb_job.specs.Job.{most_senders, job_view};
ghost use Rattle.krb_job.specs.SenderKeys.{seals};
ghost use Rattle.krb_job.specs.SenderView.{sender_view};
ghost use Rattle.krb_commands.specs.Ends as ends;
ghost use Rattle.krb_commands.specs.declared.fault.KeyFault.{KeyFault};
ghost use Rattle.krb_commands.specs.Fault.{bad_plan, IsOfSealing, IsOfTelling};
ghost use Rattle.krb_commands.specs.Parsed.{Parsed, IsParsed, HasOneSender};
ghost use Rattle.krb_commands.specs.JobInput.{ReadsInput, PrintsNothing, FailsCheck};
ghost use Rattle.krb_commands.specs.Jobs.{SealsParsed, SealsParsedPrefix, SealsSender, SealsSenderPrefix, IsBadSender, IsBadToSeal};
ghost use Rattle.krb_commands.specs.Jobs.{OpensParsed, OpensParsedFirst, OpensParsedPrefix};
ghost use Rattle.krb_commands.specs.Jobs.{OpensPlain, OpensPlainPrefix};

use crate::ends::{receiving_of, sealer_of, sending_of};
use crate::fault::Fault;
use crate::input::read_all;
use crate::opening::open_job;
use crate::plain::print_plain;
use crate::sealing::seal_job;
use krb_job::{Command, Job, SenderJob, read_job};
use krb_seal::Sealer;
use std::alloc::Global;
use std::io::{Read, Write};

/// Seals the texts of the job's one sender.
pub fn seal<R: Read, W: Write>(alloc: Global, reader: &mut R, writer: &mut W) -> Result<u8, Fault>
    ensures printed { (parsed : Parsed) → IsParsed Command.Seal (R.remaining reader.old) parsed
        → OnOk result (SealsParsed parsed (W.contents writer.old) (W.contents writer.new)) }
    ensures status { IfOk result (λ status. status ≡ 0) }

    ensures reading { ReadsInput Command.Seal (R.remaining reader.old) IsBadToSeal result }
    ensures nothing { PrintsNothing (W.contents writer.old) (W.contents writer.new) result }
    ensures never_stopped { (lines : ℕ) → ¬ (result ≡ Err (Fault.Stopped lines)) }
    ensures no_thread { (lines : ℕ) → ¬ (result ≡ Err (Fault.Thread lines)) }
    ensures no_key { (key : KeyFault) → ¬ (result ≡ Err (Fault.Key key)) }
    ensures prefix { (parsed : Parsed) → IsParsed Command.Seal (R.remaining reader.old) parsed
        → OnErr result (SealsParsedPrefix parsed (W.contents writer.old) (W.contents writer.new)) }
{
    let sender = one_sender(alloc, reader, Command::Seal)?;
    seal_sender(alloc, sender, writer)
}

/// Seals the texts of a sender that has a seed.
fn seal_sender<W: Write>(alloc: Global, sender: SenderJob, writer: &mut W) -> Result<u8, Fault>
    requires { IsSome sender.seed }
    ensures printed { OnOk result (SealsSender (sender_view sender)
        (W.contents writer.old) (W.contents writer.new)) }
    ensures status { IfOk result (λ status. status ≡ 0) }

    ensures bad_plan { (bad : BadInput) → result ≡ Err (Fault.BadInput bad)
        → (bad ≡ bad_plan 0) × IsBadSender (sender_view sender) }
    ensures bad_plan_prints_nothing { (bad : BadInput) → result ≡ Err (Fault.BadInput bad)
        → Keeps (W.contents writer.old) (W.contents writer.new) }
    ensures prefix { OnErr result (SealsSenderPrefix (sender_view sender)
        (W.contents writer.old) (W.contents writer.new)) }
    ensures faults { IfErr result IsOfSealing }
{
    let sealer = sealer_of(alloc, &sender)?;
    let sealer: Box<dyn Sealer + Send> = Box::new(alloc, sealer)?;
    seal_with(alloc, sender, sealer, writer)
}

/// Seals the texts of a sender with its sealer.
fn seal_with<S: Sealer, W: Write>(
    alloc: Global,
    sender: SenderJob,
    sealer: S,
    writer: &mut W,
) -> Result<u8, Fault>
    requires seed { IsSome sender.seed }
    requires made { S.state sealer ≡ ends.sealer_of (sender_view sender) }
    requires next { (S.state sealer).next ≤ last_number }
    ensures printed { OnOk result (SealsSender (sender_view sender)
        (W.contents writer.old) (W.contents writer.new)) }
    ensures status { IfOk result (λ status. status ≡ 0) }

    ensures bad_plan { (bad : BadInput) → result ≡ Err (Fault.BadInput bad)
        → (bad ≡ bad_plan 0) × IsBadSender (sender_view sender) }
    ensures bad_plan_prints_nothing { (bad : BadInput) → result ≡ Err (Fault.BadInput bad)
        → Keeps (W.contents writer.old) (W.contents writer.new) }
    ensures prefix { OnErr result (SealsSenderPrefix (sender_view sender)
        (W.contents writer.old) (W.contents writer.new)) }
    ensures faults { IfErr result IsOfSealing }
{
    let sending = sending_of(sender, sealer);
    seal_job(alloc, sending, writer)
}

/// Opens the frames of the job's one sender.
pub fn open<R: Read, W: Write>(alloc: Global, reader: &mut R, writer: &mut W) -> Result<u8, Fault>
    ensures printed { (parsed : Parsed) → IsParsed Command.Open (R.remaining reader.old) parsed
        → IfOk result (OpensParsed parsed (W.contents writer.old) (W.contents writer.new)) }

    ensures reading { ReadsInput Command.Open (R.remaining reader.old) FailsCheck result }
    ensures nothing { PrintsNothing (W.contents writer.old) (W.contents writer.new) result }
    ensures stopped { (parsed : Parsed) → IsParsed Command.Open (R.remaining reader.old) parsed
        → (lines : ℕ) → result ≡ Err (Fault.Stopped lines)
        → OpensParsedFirst parsed lines (W.contents writer.old) (W.contents writer.new) }
    ensures no_thread { (lines : ℕ) → ¬ (result ≡ Err (Fault.Thread lines)) }
    ensures no_key { (key : KeyFault) → ¬ (result ≡ Err (Fault.Key key)) }
    ensures prefix { (parsed : Parsed) → IsParsed Command.Open (R.remaining reader.old) parsed
        → OnErr result (OpensParsedPrefix parsed (W.contents writer.old) (W.contents writer.new)) }
{
    let sender = one_sender(alloc, reader, Command::Open)?;
    let receiving = receiving_of(alloc, &sender)?;
    open_job(alloc, receiving, sender.frames.as_slice(), writer)
}

/// Opens the frames of the job's one sender, and takes their user data as they are.
pub fn open_plain<R: Read, W: Write>(
    alloc: Global,
    reader: &mut R,
    writer: &mut W,
) -> Result<u8, Fault>
    ensures printed { (parsed : Parsed) → IsParsed Command.Open (R.remaining reader.old) parsed
        → IfOk result (OpensPlain parsed (W.contents writer.old) (W.contents writer.new)) }

    ensures reading { ReadsInput Command.Open (R.remaining reader.old) FailsCheck result }
    ensures nothing { PrintsNothing (W.contents writer.old) (W.contents writer.new) result }
    ensures never_stopped { (lines : ℕ) → ¬ (result ≡ Err (Fault.Stopped lines)) }
    ensures no_thread { (lines : ℕ) → ¬ (result ≡ Err (Fault.Thread lines)) }
    ensures no_key { (key : KeyFault) → ¬ (result ≡ Err (Fault.Key key)) }
    ensures prefix { (parsed : Parsed) → IsParsed Command.Open (R.remaining reader.old) parsed
        → OnErr result (OpensPlainPrefix parsed (W.contents writer.old) (W.contents writer.new)) }
{
    let sender = one_sender(alloc, reader, Command::Open)?;
    let receiving = receiving_of(alloc, &sender)?;
    print_plain(alloc, &receiving, sender.frames.as_slice(), writer)
}

/// The job that the whole input states for a command, or what is bad in it.
pub fn parsed_job<R: Read>(alloc: Global, reader: &mut R, command: Command) -> Result<Job, Fault>
    ensures parsed { (parsed : Parsed) → IsParsed command (R.remaining reader.old) parsed
        → IfOk result (λ job. parsed ≡ Ok (job_view job)) }
    ensures one { most_senders command ≡ 1
        → IfOk result (λ job. length job.senders.items ≡ 1) }
    ensures seeds { seals command ≡ true
        → IfOk result (λ job. All (λ sender. IsSome sender.seed) job.senders.items) }

    ensures reading { ReadsInput command (R.remaining reader.old) FailsCheck result }
    ensures faults { IfErr result IsOfTelling }
{
    let input = read_all(alloc, reader)?;
    Ok(read_job(alloc, input.as_slice(), command)?)
}

/// The one sender of a job for such a command.
fn one_sender<R: Read>(alloc: Global, reader: &mut R, command: Command) -> Result<SenderJob, Fault>
    requires { most_senders command ≡ 1 }
    ensures parsed { (parsed : Parsed) → IsParsed command (R.remaining reader.old) parsed
        → IfOk result (λ sender. HasOneSender parsed (sender_view sender)) }
    ensures seed { seals command ≡ true → IfOk result (λ sender. IsSome sender.seed) }

    ensures reading { ReadsInput command (R.remaining reader.old) FailsCheck result }
    ensures faults { IfErr result IsOfTelling }
{
    let Job {
        capacity: _,
        mut senders,
    } = parsed_job(alloc, reader, command)?;
    Ok(senders.pop().unwrap())
}
