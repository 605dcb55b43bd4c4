//! A command over a reader and a writer.

ghost use Rattle.std.specs.Prelude.{◌≡◌, ◌≢◌, [], ◌<◌, ◌≤◌, ℕ, List, Option, length, map, option_map, Some, IfOk, OnOk, OnErr, IfSome};
ghost use Rattle.std.specs.Io.Buffered.{writer_buffer, writer_contents};
ghost use Rattle.clap.specs.Words.{subcommand_of, FailsBy, fault_of};
ghost use Rattle.krb_job.specs.declared.bad_input.BadInput.{BadInput};
ghost use Rattle.krb_commands.specs.Input.{input_limit};
ghost use Rattle.krb_program.specs.Command.{IsEntered, krbrelay_app, text_behind, word_of};
ghost use Rattle.krb_commands.specs.JobInput.{PrintsNothing};
ghost use Rattle.krb_commands.specs.declared.fault.KeyFault.{KeyFault as KeyFaultValue};
ghost use Rattle.krb_program.specs.declared.command.Asked.{Asked as AskedValue};
ghost use Rattle.krb_program.specs.Running.{Does, DoesFirst, DoesPrefix, IsBadInput, HasObeyed, HasOpenedPlain, HasRun, HasShown, HasShownFile, IsRefused, stated_of};

use crate::command::{Asked, Cmd, command_of};
use crate::relay_command::relay;
use clap::Error;
use krb_commands::{Fault, Form, KeyFault, open, open_plain, read_key, seal, show, vectors};
use krb_relay::Gate;
use krb_seal::Etype;
use std::alloc::Global;
use std::convert::AsStr;
use std::fs::{File, Files};
use std::io::{BufWriter, Read, Write};
use std::sync::Wait;
use std::thread::Threads;

/// Runs the command that the words of a command line name, and answers how it went. A relay's seal
/// calls stand within the gate.
///
/// An error is `clap`'s, and nothing is read or written then. `vectors` reads nothing.
pub fn obey<
    'a,
    T: Threads + Wait + Files + Sync,
    S: AsStr,
    R: Read,
    W: Write + Drop,
    G: Gate + Sync,
>(
    rt: &T,
    alloc: Global,
    words: &'a [S],
    reader: &mut R,
    writer: &mut BufWriter<W>,
    gate: &G,
) -> Result<Result<u8, Fault>, Error>
    ensures ran { IfOk result (λ outcome. (asked : AskedValue)
        × IsEntered (subcommand_of krbrelay_app (map S.text words.entry.now)) asked
        × HasObeyed asked (R.remaining reader.old) (writer_contents W.contents writer.old)
        (writer_contents W.contents writer.new) outcome) }
    ensures flushed { IfOk result (λ outcome. ¬ (outcome ≡ Err Fault.Write)
        → writer_buffer writer.new ≡ []) }
    ensures vectors_reads_nothing { option_map (λ p. p.0)
        (subcommand_of krbrelay_app (map S.text words.entry.now)) ≡ Some (word_of Cmd.Vectors)
        → reader.new ≡ reader.old }

    ensures faults { FailsBy (fault_of krbrelay_app (map S.text words.entry.now)) result }
    ensures nothing_read { OnErr result (reader.new ≡ reader.old) }
    ensures nothing_written { OnErr result (writer.new ≡ writer.old) }
{
    let asked = command_of(alloc, words)?;
    Ok(serve(rt, alloc, asked, reader, writer, gate))
}

/// Does what a command line asks, and answers the exit status.
fn serve<T: Threads + Wait + Files + Sync, R: Read, W: Write + Drop, G: Gate + Sync>(
    rt: &T,
    alloc: Global,
    asked: Asked<'_>,
    reader: &mut R,
    writer: &mut BufWriter<W>,
    gate: &G,
) -> Result<u8, Fault>
    ensures obeyed { HasObeyed asked.entry (R.remaining reader.old)
        (writer_contents W.contents writer.old) (writer_contents W.contents writer.new) result }
    ensures flushed { ¬ (result ≡ Err Fault.Write) → writer_buffer writer.new ≡ [] }
    ensures vectors_reads_nothing { asked.entry.command ≡ Cmd.Vectors → reader.new ≡ reader.old }
{
    if matches!(asked.command, Cmd::Open) && asked.plain {
        return run_plain(alloc, reader, writer);
    }
    if !matches!(asked.command, Cmd::Show) {
        return run(rt, alloc, asked.command, asked.form, reader, writer, gate);
    }
    match asked.key {
        Some(path) => show_file(rt, alloc, asked.form, path, asked.etype, reader, writer),
        None if asked.etype.is_some() => refuse_key(KeyFault::Missing, writer),
        None => run(rt, alloc, asked.command, asked.form, reader, writer, gate),
    }
}

/// Runs `open` over user data that are taken as they are.
fn run_plain<R: Read, W: Write + Drop>(
    alloc: Global,
    reader: &mut R,
    writer: &mut BufWriter<W>,
) -> Result<u8, Fault>
    ensures opened { HasOpenedPlain (R.remaining reader.old)
        (writer_contents W.contents writer.old) (writer_contents W.contents writer.new) result }
    ensures flushed { ¬ (result ≡ Err Fault.Write) → writer_buffer writer.new ≡ [] }
{
    let outcome = open_plain(alloc, reader, writer);
    if writer.flush().is_err() {
        return Err(Fault::Write);
    }
    outcome
}

/// Runs `show` under the key of a file, whose type may be stated.
fn show_file<F: Files, R: Read, W: Write + Drop>(
    files: &F,
    alloc: Global,
    form: Form,
    path: &str,
    etype: Option<&str>,
    reader: &mut R,
    writer: &mut BufWriter<W>,
) -> Result<u8, Fault>
    ensures shown { HasShownFile form (stated_of (text_behind etype.entry)) (R.remaining reader.old)
        (writer_contents W.contents writer.old) (writer_contents W.contents writer.new) result }
    ensures flushed { ¬ (result ≡ Err Fault.Write) → writer_buffer writer.new ≡ [] }
{
    let stated = match stated_type(etype) {
        Ok(stated) => stated,
        Err(fault) => return refuse_key(fault, writer),
    };
    let outcome = show_under(files, alloc, form, path, stated, reader, writer);
    if writer.flush().is_err() {
        return Err(Fault::Write);
    }
    outcome
}

/// The encryption type that an option states, if it is there.
fn stated_type(etype: Option<&str>) -> Result<Option<Etype>, KeyFault>
    ensures { result ≡ stated_of (text_behind etype.entry) }
{
    match etype {
        None => Ok(None),
        Some("17") => Ok(Some(Etype::Aes128)),
        Some("18") => Ok(Some(Etype::Aes256)),
        Some(_) => Err(KeyFault::NoType),
    }
}

/// Answers that there is no key.
fn refuse_key<W: Write + Drop>(fault: KeyFault, writer: &mut BufWriter<W>) -> Result<u8, Fault>
    ensures refused { IsRefused fault (writer_contents W.contents writer.old)
        (writer_contents W.contents writer.new) result }
    ensures flushed { ¬ (result ≡ Err Fault.Write) → writer_buffer writer.new ≡ [] }
{
    if writer.flush().is_err() {
        return Err(Fault::Write);
    }
    Err(Fault::Key(fault))
}

/// Prints the messages of the input and what the key of a file gives of them, and lets the last lines
/// stand in the writer's buffer.
fn show_under<F: Files, R: Read, W: Write>(
    files: &F,
    alloc: Global,
    form: Form,
    path: &str,
    stated: Option<Etype>,
    reader: &mut R,
    writer: &mut W,
) -> Result<u8, Fault>
    ensures { (file : Option (List ℕ)) × HasShown form stated file (R.remaining reader.old)
        (W.contents writer.old) (W.contents writer.new) result }
{
    let Ok(mut file) = File::open(files, path) else {
        return Err(Fault::Key(KeyFault::Unreadable));
    };
    let openers = read_key(alloc, &mut file, stated)?;
    show(alloc, form, Some(&openers), reader, writer)
}

/// Runs a command, and answers the exit status. `show` reads its input in this form. A relay's seal
/// calls stand within the gate.
///
/// All that is written has left the buffer then, unless the fault is the writer's. `vectors` reads
/// nothing.
pub fn run<T: Threads + Wait + Sync, R: Read, W: Write + Drop, G: Gate + Sync>(
    rt: &T,
    alloc: Global,
    command: Cmd,
    form: Form,
    reader: &mut R,
    writer: &mut BufWriter<W>,
    gate: &G,
) -> Result<u8, Fault>
    ensures run { HasRun command form (R.remaining reader.old) (writer_contents W.contents writer.old)
        (writer_contents W.contents writer.new) result }
    ensures within { command ≢ Cmd.Vectors
        → OnOk result (IfSome (R.remaining reader.old) (λ input. length input ≤ input_limit)) }
    ensures flushed { ¬ (result ≡ Err Fault.Write) → writer_buffer writer.new ≡ [] }
    ensures vectors_reads_nothing { command ≡ Cmd.Vectors → reader.new ≡ reader.old }
{
    let outcome = command_over(rt, alloc, command, form, reader, writer, gate);
    if writer.flush().is_err() {
        return Err(Fault::Write);
    }
    outcome
}

/// Runs a command, and lets its last lines stand in the writer's buffer.
fn command_over<T: Threads + Wait + Sync, R: Read, W: Write, G: Gate + Sync>(
    rt: &T,
    alloc: Global,
    command: Cmd,
    form: Form,
    reader: &mut R,
    writer: &mut W,
    gate: &G,
) -> Result<u8, Fault>
    ensures done { IfOk result (λ status. Does command form (R.remaining reader.old)
        (W.contents writer.old) (W.contents writer.new) status) }
    ensures within { command ≢ Cmd.Vectors
        → OnOk result (IfSome (R.remaining reader.old) (λ input. length input ≤ input_limit)) }
    ensures vectors_reads_nothing { command ≡ Cmd.Vectors → reader.new ≡ reader.old }

    ensures prefix { OnErr result (DoesPrefix command form (R.remaining reader.old)
        (W.contents writer.old) (W.contents writer.new)) }
    ensures stopped { (lines : ℕ) → result ≡ Err (Fault.Stopped lines)
        → DoesFirst command lines (R.remaining reader.old)
        (W.contents writer.old) (W.contents writer.new) }
    ensures thread { (lines : ℕ) → result ≡ Err (Fault.Thread lines)
        → DoesFirst command lines (R.remaining reader.old)
        (W.contents writer.old) (W.contents writer.new) }
    ensures bad_input { (bad : BadInput) → result ≡ Err (Fault.BadInput bad)
        → IsBadInput command (R.remaining reader.old) bad }
    ensures too_long { result ≡ Err Fault.TooLong
        → IfSome (R.remaining reader.old) (λ input. input_limit < length input) }
    ensures nothing { PrintsNothing (W.contents writer.old) (W.contents writer.new) result }
    ensures no_key { (key : KeyFaultValue) → ¬ (result ≡ Err (Fault.Key key)) }
{
    match command {
        Cmd::Show => show(alloc, form, None, reader, writer),
        Cmd::Vectors => vectors(alloc, writer),
        Cmd::Seal => seal(alloc, reader, writer),
        Cmd::Open => open(alloc, reader, writer),
        Cmd::Relay => relay(rt, alloc, reader, writer, gate),
    }
}
