//! The command `open`.

ghost use Rattle.std.specs.Prelude.{◌≡◌, ◌<◌, ◌⊎◌, ℕ, false, length, IfOk, IfErr, OnOk, OnErr};
ghost use Rattle.std.specs.Result.{is_err};
ghost use Rattle.std.specs.Io.KnownBytes.{Appends};
ghost use Rattle.krb_peers.specs.Log.{new_log};
ghost use Rattle.krb_commands.specs.Fault.{IsOfOpening, IsOfPrinting};
ghost use Rattle.krb_commands.specs.JobLines.{entry_lines};
ghost use Rattle.krb_commands.specs.Opened.{LogsFrames, PrintsFirst, PrintsOpened, PrintsOpenedPrefix};
ghost use Rattle.krb_commands.specs.Output.{AppendsPart};

use crate::fault::Fault;
use crate::job_lines::{StateLine, is_closed, print_log, status_of_lanes};
use crate::line::print_line;
use krb_base::Bytes;
use krb_peers::{Log, Receiving};
use std::alloc::{AllocError, Global};
use std::io::Write;

/// Gives the frames to a receiver, one after another, and prints what became of each, one a line,
/// and whether the close was accepted.
///
/// There is at least one moment. The answer is the exit status: 0 where the close was accepted,
/// else 3. `Stopped` is an allocation that failed while frames were taken: its `lines` are printed,
/// those of all frames until then. After a fault of printing a prefix is.
pub fn open_job<W: Write>(
    alloc: Global,
    receiving: Receiving,
    frames: &[Bytes],
    writer: &mut W,
) -> Result<u8, Fault>
    requires { 0 < length receiving.nows.items }
    ensures printed { IfOk result (PrintsOpened receiving.receiver receiving.nows.items frames.now
        (W.contents writer.old) (W.contents writer.new)) }
    ensures prefix { OnErr result (PrintsOpenedPrefix receiving.receiver receiving.nows.items
        frames.now (W.contents writer.old) (W.contents writer.new)) }
    ensures stopped { (lines : ℕ) → result ≡ Err (Fault.Stopped lines)
        → PrintsFirst receiving.receiver receiving.nows.items frames.now lines
        (W.contents writer.old) (W.contents writer.new) }
    ensures faults { IfErr result IsOfOpening }
{
    let mut log = Log::new(alloc, 1);
    let outcome = take_all(alloc, receiving, frames, &mut log);
    print_taken(alloc, &log, outcome, writer)?;
    log.end(0);
    let status = log.status(0);
    print_line(alloc, &StateLine { lane: 0, status }, writer)?;
    Ok(status_of_lanes(is_closed(status)))
}

/// Prints the outcome of all frames that were taken, and answers the fault where not all of them
/// could be.
fn print_taken<W: Write>(
    alloc: Global,
    log: &Log,
    outcome: Result<(), AllocError>,
    writer: &mut W,
) -> Result<(), Fault>
    ensures all { OnOk result (is_err outcome ≡ false) }
    ensures printed { OnOk result (Appends (W.contents writer.old) (W.contents writer.new)
        (entry_lines log.now.entries)) }
    ensures fault { IfErr result (λ fault.
        ((fault ≡ Fault.Stopped (length log.now.entries)) × Appends
        (W.contents writer.old) (W.contents writer.new) (entry_lines log.now.entries))
        ⊎ (IsOfPrinting fault × AppendsPart
        (W.contents writer.old) (W.contents writer.new) (entry_lines log.now.entries))) }
{
    let lines = print_log(alloc, log, writer)?;
    match outcome {
        Ok(()) => Ok(()),
        Err(_) => Err(Fault::Stopped { lines }),
    }
}

/// Gives each frame to the receiver at the moment of its place, and what became of it to a new log.
fn take_all(
    alloc: Global,
    mut receiving: Receiving,
    frames: &[Bytes],
    log: &mut Log,
) -> Result<(), AllocError>
    requires moments { 0 < length receiving.nows.items }
    requires log { log.old ≡ new_log 1 }
    ensures { LogsFrames receiving.receiver receiving.nows.items frames.now result log.new }
{
    for (place, frame) in frames.iter().enumerate() {
        let now = receiving.moment_at(place);
        let receiver = &mut receiving.receiver;
        receiver.take_into(log, alloc, 0, frame.as_slice(), now)?;
    }
    Ok(())
}
