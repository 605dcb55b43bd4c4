//! How the program ends: what it reports on standard error, and the exit code.

ghost use Rattle.std.specs.Prelude.{◌≡◌, ◌≢◌};
ghost use Rattle.std.specs.Process.{exit_status};
ghost use Rattle.std.specs.IoError.{error_kind};
ghost use Rattle.std.specs.declared.io.ErrorKind.TheVariants as io_kind;
ghost use Rattle.clap.specs.Words.{kind_of};
ghost use Rattle.krb_program.specs.Running.{status_of};

use clap::error::ErrorKind;
use krb_commands::Fault;
use std::io;
use std::process::ExitCode;

/// The exit code of a run. A fault is reported in one line on standard error.
pub fn finish(rt: &impl Eprint, outcome: Result<u8, Fault>) -> ExitCode
    ensures { exit_status result ≡ status_of outcome }
{
    match outcome {
        Ok(status) => ExitCode::from(status),
        Err(fault) => {
            let _ = eprintln!(rt; "{fault}");
            ExitCode::from(fault.status())
        }
    }
}

/// Words that could not be had: there was no memory, or one of them is no text.
pub fn bad_words(rt: &impl Eprint, error: &io::Error) -> ExitCode
    ensures memory { error_kind error.now ≡ io_kind.OutOfMemory → exit_status result ≡ 4 }
    ensures no_text { error_kind error.now ≢ io_kind.OutOfMemory → exit_status result ≡ 2 }
{
    if matches!(error.kind(), io::ErrorKind::OutOfMemory) {
        return finish(rt, Err(Fault::Memory));
    }
    let _ = eprintln!(rt; "error: invalid UTF-8 was detected in one or more arguments");
    ExitCode::from(2)
}

/// What `clap` answers in place of a command: its help, or a fault of usage.
pub fn usage(rt: &(impl Print + Eprint), error: &clap::Error) -> ExitCode
    ensures memory { kind_of error.now ≡ ErrorKind.OutOfMemory → exit_status result ≡ 4 }
    ensures help { kind_of error.now ≡ ErrorKind.DisplayHelp → exit_status result ≡ 0 }
    ensures version { kind_of error.now ≡ ErrorKind.DisplayVersion → exit_status result ≡ 0 }
    ensures fault { kind_of error.now ≢ ErrorKind.OutOfMemory
        → kind_of error.now ≢ ErrorKind.DisplayHelp
        → kind_of error.now ≢ ErrorKind.DisplayVersion → exit_status result ≡ 2 }
{
    if matches!(error.kind(), ErrorKind::OutOfMemory) {
        return finish(rt, Err(Fault::Memory));
    }
    let _ = error.print(rt);
    ExitCode::from(if error.use_stderr() { 2 } else { 0 })
}
