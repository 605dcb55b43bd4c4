//! A relay of a job's lanes, and what is printed of it.

ghost use Rattle.std.specs.Prelude.{◌≡◌, ◌⊎◌, ◌≤◌, ◌<◌, ℕ, false, length, All, IfOk, IfErr, OnErr};
ghost use Rattle.std.specs.Io.KnownBytes.{Appends, Keeps};
ghost use Rattle.krb_base.specs.Limits.{lane_limit, capacity_limit};
ghost use Rattle.krb_job.specs.declared.bad_input.BadInput.{BadInput};
ghost use Rattle.krb_peers.specs.Sending.{source_of, IsSender};
ghost use Rattle.krb_peers.specs.Ends.{lanes_of};
ghost use Rattle.krb_commands.specs.Fault.{bad_plan, IsOfPrinting};
ghost use Rattle.krb_commands.specs.JobLines.{entry_lines};
ghost use Rattle.krb_commands.specs.Output.{AppendsPart, AppendsPrefix};
ghost use Rattle.krb_program.specs.RelayFault.{of_relay, IsLiveCause, IsOfRelaying};
ghost use Rattle.krb_program.specs.Relayed.{HasBadPlanFirst, PrintsRelayed, PrintsRelayedPrefix, PrintsStopped};

use krb_commands::{Fault, print_ends, print_log};
use krb_peers::{Boxed, Receiving, Sending};
use krb_relay::{Cause, Gate, relay};
use krb_seal::Sealer;
use std::alloc::Global;
use std::io::Write;
use std::sync::Wait;
use std::thread::Threads;

/// Relays the texts of all senders to their receivers, in rounds, and prints what became of each
/// frame, one a line, and then of each lane how much was sealed and whether its close was accepted.
///
/// Each sender seals in a thread of its own, whose seal calls stand within the gate. There are one
/// to eight senders, within their limits and none of them wiped, as many receivers, and room for 1
/// to 64 items in each lane. The answer is the exit status: 0 where every lane's close was
/// accepted, else 3. A bad plan is bad input, and nothing is printed. `Stopped` is an allocation
/// that failed in the run and `Thread` a fault of its threads: their `lines` are printed, the
/// outcome of each frame until then. After a fault of printing a prefix is.
pub fn relay_job<T: Threads + Wait + Sync, G: Gate + Sync, S: Sealer + Boxed + Send, W: Write>(
    rt: &T,
    alloc: Global,
    sendings: Vec<Sending<S>>,
    receivings: Vec<Receiving>,
    capacity: usize,
    writer: &mut W,
    gate: &G,
) -> Result<u8, Fault>
    requires same { length sendings.items ≡ length receivings.items }
    requires some { 1 ≤ length sendings.items }
    requires few { length sendings.items ≤ lane_limit }
    requires senders { All (λ sending. IsSender (source_of S.state sending)) sendings.items }
    requires live { All (λ sending. (S.state sending.sealer).wiped ≡ false) sendings.items }
    requires moments { All (λ receiving. 0 < length receiving.nows.items) receivings.items }
    requires room { (0 < capacity) × (capacity ≤ capacity_limit) }
    ensures printed { IfOk result (PrintsRelayed
        (lanes_of S.state sendings.items receivings.items)
        (W.contents writer.old) (W.contents writer.new)) }

    ensures bad_plan { (bad : BadInput) → result ≡ Err (Fault.BadInput bad)
        → (lane : ℕ) × (bad ≡ bad_plan lane) × HasBadPlanFirst
        (lanes_of S.state sendings.items receivings.items) lane }
    ensures bad_plan_prints_nothing { (bad : BadInput) → result ≡ Err (Fault.BadInput bad)
        → Keeps (W.contents writer.old) (W.contents writer.new) }
    ensures prefix { OnErr result (PrintsRelayedPrefix
        (lanes_of S.state sendings.items receivings.items)
        (W.contents writer.old) (W.contents writer.new)) }
    ensures stopped { (lines : ℕ) → result ≡ Err (Fault.Stopped lines) → PrintsStopped
        (lanes_of S.state sendings.items receivings.items) lines
        (W.contents writer.old) (W.contents writer.new) }
    ensures thread { (lines : ℕ) → result ≡ Err (Fault.Thread lines) → PrintsStopped
        (lanes_of S.state sendings.items receivings.items) lines
        (W.contents writer.old) (W.contents writer.new) }
    ensures faults { IfErr result IsOfRelaying }
{
    let report = match relay(rt, alloc, sendings, receivings, capacity, gate) {
        Ok(report) => report,
        Err(stopped) => return Err(print_stopped(alloc, &stopped, writer)),
    };
    print_log(alloc, &report.log, writer)?;
    print_ends(alloc, report.sent.as_slice(), &report.log, writer)
}

/// Prints the outcome of all frames until a relay stopped, and answers its fault, or that of the
/// printing. Prints nothing where a plan is bad.
fn print_stopped<W: Write>(alloc: Global, stopped: &krb_relay::Fault, writer: &mut W) -> Fault
    requires { IsLiveCause stopped.now.cause }
    ensures fault { (result
        ≡ of_relay stopped.now.cause stopped.now.lane (length stopped.now.log.entries))
        ⊎ (IsOfPrinting result × AppendsPart (W.contents writer.old) (W.contents writer.new)
        (entry_lines stopped.now.log.entries)) }
    ensures faults { IsOfRelaying result }

    ensures bad_plan { (bad : BadInput) → result ≡ Fault.BadInput bad
        → Keeps (W.contents writer.old) (W.contents writer.new) }
    ensures stopped { (lines : ℕ) → result ≡ Fault.Stopped lines
        → (lines ≡ length stopped.now.log.entries) × Appends (W.contents writer.old)
        (W.contents writer.new) (entry_lines stopped.now.log.entries) }
    ensures thread { (lines : ℕ) → result ≡ Fault.Thread lines
        → (lines ≡ length stopped.now.log.entries) × Appends (W.contents writer.old)
        (W.contents writer.new) (entry_lines stopped.now.log.entries) }
    ensures prefix { Keeps (W.contents writer.old) (W.contents writer.new)
        ⊎ AppendsPrefix (W.contents writer.old) (W.contents writer.new)
        (entry_lines stopped.now.log.entries) }
{
    if matches!(stopped.cause, Cause::BadPlan) {
        return Fault::bad_plan(stopped.lane);
    }
    match print_log(alloc, &stopped.log, writer) {
        Ok(lines) => fault_of(stopped.cause, stopped.lane, lines),
        Err(fault) => fault,
    }
}

/// Why a relay of sealers that weren't wiped stops, as a fault: a bad plan is bad input. So many
/// lines are printed.
fn fault_of(cause: Cause, lane: u32, lines: usize) -> Fault
    requires { IsLiveCause cause }
    ensures { result ≡ of_relay cause lane lines }
{
    match cause {
        Cause::Memory => Fault::Stopped { lines },
        Cause::Spawn | Cause::Lost => Fault::Thread { lines },
        Cause::BadPlan => Fault::bad_plan(lane),
        Cause::Wiped => unreachable!(),
    }
}
