//! Writing all of a text.
ghost use Rattle.std.specs.Prelude.{◌≡◌, OnOk, OnErr, IfErr};
ghost use Rattle.std.specs.Io.KnownBytes.{Appends};
ghost use Rattle.krb_commands.specs.Output.{AppendsPart};

use crate::fault::Fault;
use std::io::Write;

/// Writes all of the bytes, or only a prefix of them where the writer fails or takes nothing.
pub fn write_all<W: Write>(writer: &mut W, bytes: &[u8]) -> Result<(), Fault>
    ensures written { OnOk result
        (Appends (W.contents writer.old) (W.contents writer.new) bytes.now) }
    ensures part { OnErr result
        (AppendsPart (W.contents writer.old) (W.contents writer.new) bytes.now) }
    ensures fault { IfErr result (λ fault. fault ≡ Fault.Write) }
{
    let mut rest = bytes;
    while !rest.is_empty() {
        match writer.write(rest) {
            Err(_) | Ok(0) => return Err(Fault::Write),
            Ok(count) => rest = &rest[count..],
        }
    }
    Ok(())
}
