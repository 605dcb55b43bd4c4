//! What is printed as one line.

ghost use Rattle.std.specs.Prelude.{◌≡◌, ℕ, List, map, IfOk, IfErr, OnOk, OnErr};
ghost use Rattle.std.specs.List.{concat};
ghost use Rattle.std.specs.Io.KnownBytes.{Appends};
ghost use Rattle.std.specs.String.{string_bytes};
ghost use Rattle.krb_commands.specs.Fault.{IsOfPrinting};
ghost use Rattle.krb_commands.specs.JobLines.{line_of};
ghost use Rattle.krb_commands.specs.Output.{AppendsPart};

use crate::fault::Fault;
use crate::output::write_all;
use std::alloc::{AllocError, Global};
use std::io::Write;

/// Something that is printed as one line.
pub(crate) trait Line {
    /// The line, without its line feed.
    ghost text: { Self → List ℕ };

    /// The line, with its line feed.
    fn line(&self, alloc: Global) -> Result<String, AllocError>
        ensures { IfOk result (λ line. string_bytes line ≡ line_of (text self.now)) };
}

/// Prints the lines of the items, in order.
///
/// After a fault a prefix of them is written, and not all.
pub(crate) fn print_lines<L: Line, W: Write>(
    alloc: Global,
    items: &[L],
    writer: &mut W,
) -> Result<(), Fault>
    ensures printed { OnOk result (Appends (W.contents writer.old) (W.contents writer.new)
        (concat (map (λ item. line_of (L.text item)) items.now))) }
    ensures part { OnErr result (AppendsPart (W.contents writer.old) (W.contents writer.new)
        (concat (map (λ item. line_of (L.text item)) items.now))) }
    ensures faults { IfErr result IsOfPrinting }
{
    for item in items {
        print_line(alloc, item, writer)?;
    }
    Ok(())
}

/// Prints the line of one item.
pub(crate) fn print_line<L: Line, W: Write>(
    alloc: Global,
    item: &L,
    writer: &mut W,
) -> Result<(), Fault>
    ensures printed { OnOk result
        (Appends (W.contents writer.old) (W.contents writer.new) (line_of (L.text item.now))) }
    ensures part { OnErr result
        (AppendsPart (W.contents writer.old) (W.contents writer.new) (line_of (L.text item.now))) }
    ensures faults { IfErr result IsOfPrinting }
{
    let line = item.line(alloc)?;
    write_all(writer, line.as_bytes())
}
