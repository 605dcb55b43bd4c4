//! The command `seal`.

ghost use Rattle.std.specs.Prelude.{◌≡◌, false, IfOk, IfErr, OnOk, OnErr};
ghost use Rattle.std.specs.Io.KnownBytes.{Appends, Keeps};
ghost use Rattle.krb_job.specs.declared.bad_input.BadInput.{BadInput};
ghost use Rattle.krb_peers.specs.Sending.{source_of, IsSender};
ghost use Rattle.krb_peers.specs.Wire.{IsBad};
ghost use Rattle.krb_commands.specs.Fault.{bad_plan, IsOfPrinting, IsOfSealing};
ghost use Rattle.krb_commands.specs.JobLines.{frame_lines};
ghost use Rattle.krb_commands.specs.Output.{AppendsPart};
ghost use Rattle.krb_commands.specs.Sealed.{PrintsSealed, PrintsSealedPrefix};

use crate::fault::Fault;
use crate::line::print_line;
use krb_peers::{Sending, Wire, emit_sealed};
use krb_seal::Sealer;
use std::alloc::Global;
use std::io::Write;

/// Seals the texts of one sender and its close, and prints what its plan puts on the wire, one
/// frame a line, and how much was sealed.
///
/// The sender is within its limits, and its sealer wasn't wiped. The answer is the exit status 0. A
/// bad plan is bad input, and nothing is printed. After another fault a prefix is printed, or
/// nothing.
pub fn seal_job<S: Sealer, W: Write>(
    alloc: Global,
    sending: Sending<S>,
    writer: &mut W,
) -> Result<u8, Fault>
    requires sender { IsSender (source_of S.state sending) }
    requires live { (S.state sending.sealer).wiped ≡ false }
    ensures printed { OnOk result (PrintsSealed
        (source_of S.state sending) (W.contents writer.old) (W.contents writer.new)) }
    ensures status { IfOk result (λ status. status ≡ 0) }

    ensures bad_plan { (bad : BadInput) → result ≡ Err (Fault.BadInput bad)
        → (bad ≡ bad_plan 0) × IsBad (source_of S.state sending) }
    ensures bad_plan_prints_nothing { (bad : BadInput) → result ≡ Err (Fault.BadInput bad)
        → Keeps (W.contents writer.old) (W.contents writer.new) }
    ensures prefix { OnErr result (PrintsSealedPrefix
        (source_of S.state sending) (W.contents writer.old) (W.contents writer.new)) }
    ensures faults { IfErr result IsOfSealing }
{
    let sent = sending.sent();
    let wire = match emit_sealed(alloc, 0, sending) {
        Ok(wire) => wire,
        Err(error) => return Err(Fault::of_start(error)),
    };
    print_wire(alloc, &wire, writer)?;
    print_line(alloc, &sent, writer)?;
    Ok(0)
}

/// Prints the emissions, one a line. Each is made once the one before is printed.
///
/// After a fault a prefix of the lines is written, and not all.
fn print_wire<W: Write>(alloc: Global, wire: &Wire, writer: &mut W) -> Result<(), Fault>
    ensures printed { OnOk result
        (Appends (W.contents writer.old) (W.contents writer.new) (frame_lines wire.now)) }
    ensures part { OnErr result
        (AppendsPart (W.contents writer.old) (W.contents writer.new) (frame_lines wire.now)) }
    ensures faults { IfErr result IsOfPrinting }
{
    for k in 0..wire.len() {
        let frame = wire.emission(alloc, k)?;
        print_line(alloc, &frame, writer)?;
    }
    Ok(())
}
