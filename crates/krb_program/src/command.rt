//! The command line.
ghost use Rattle.std.specs.Prelude.{◌≡◌, IfOk, false, map};
ghost use Rattle.clap.specs.Words.{app_of, subcommand_of, rule_of, subcommand_rows_of, with_subcommand, FailsBy, fault_of, new_app};
ghost use Rattle.clap.specs.declared.builder.command.Command.TheViews.{out-Command as fields_of};
ghost use Rattle.krb_program.specs.Command as line;
ghost use Rattle.krb_program.specs.Command.{IsEntered, IsNamed, IsWord, krbrelay_app, shape_for, text_behind, with_word, word_of};

use crate::help;
use crate::help::Help;
use clap::{Arg, ArgAction, ArgMatches, Command, Error};
use krb_commands::Form;
use std::alloc::{AllocError, Global};
use std::convert::AsStr;

/// A command of the program.
#[derive(Clone, Copy, Debug, PartialEq, Eq)]
pub enum Cmd {
    /// Prints the messages of the input, one a line.
    Show,
    /// Prints the published vectors.
    Vectors,
    /// Seals the texts of a job's sender, and prints the frames.
    Seal,
    /// Opens the frames of a job's sender, and prints what became of each.
    Open,
    /// Relays the texts of a job's senders, and prints what became of each frame.
    Relay,
}

impl Cmd {
    /// The command of this word.
    fn of_word(word: &str) -> Cmd
        requires { IsWord word.now }
        ensures { word.now ≡ word_of result }
    {
        match word {
            "show" => Cmd::Show,
            "vectors" => Cmd::Vectors,
            "seal" => Cmd::Seal,
            "open" => Cmd::Open,
            _ => Cmd::Relay,
        }
    }
}

/// What a command line asks.
#[derive(Clone, Copy, Debug, PartialEq, Eq)]
pub struct Asked<'a> {
    /// The command.
    pub command: Cmd,
    /// How `show` reads its input.
    pub form: Form,
    /// The file of the key under which messages are shown.
    pub key: Option<&'a str>,
    /// The number of the encryption type that this key is of.
    pub etype: Option<&'a str>,
    /// Whether `open` takes user data as they are, and not as records.
    pub plain: bool,
}

/// What the words of a command line ask, of which the first is the program's name.
///
/// An error is `clap`'s: a fault of usage, a request for help, or that there was no memory.
pub fn command_of<'a, S: AsStr>(alloc: Global, words: &'a [S]) -> Result<Asked<'a>, Error>
    ensures asked { IfOk result
        (IsEntered (subcommand_of krbrelay_app (map S.text words.entry.now))) }
    ensures faults { FailsBy (fault_of krbrelay_app (map S.text words.entry.now)) result }
{
    let command = command_line(alloc)?;
    let matches = command.try_get_matches_from(words)?;
    Ok(entered(&matches))
}

/// The command that was entered, and its options.
fn entered<'a>(matches: &ArgMatches<'a>) -> Asked<'a>
    requires { IsNamed matches.now }
    ensures { IsEntered (subcommand_rows_of matches.now) result }
{
    let (word, options) = matches.subcommand().unwrap();
    Asked {
        command: Cmd::of_word(word),
        form: form_of(options.get_str("any")),
        key: options.get_str("key"),
        etype: options.get_str("etype"),
        plain: is_set(options.get_str("plain")),
    }
}

/// The form that the value of the option `--any` stands for.
fn form_of(any: Option<&str>) -> Form
    ensures { result ≡ line.form_of (text_behind any.entry) }
{
    match any {
        Some("true") => Form::Any,
        _ => Form::Lines,
    }
}

/// Whether an option without a value is there, by its text.
fn is_set(flag: Option<&str>) -> bool
    ensures { result ≡ line.is_set (text_behind flag.entry) }
{
    matches!(flag, Some("true"))
}

/// The command line as `clap` knows it: one line for each command, with its help.
fn command_line<'a>(alloc: Global) -> Result<Command<'a>, AllocError>
    ensures { IfOk result (λ command. app_of command ≡ krbrelay_app) }
{
    let line = Command::new(alloc, "krbrelay")
        .version("1.1.0")
        .about(help::PROGRAM)
        .after_help(help::EXIT_STATUS)
        .subcommand_required(true)
        .disable_help_subcommand(true);
    let line = with_messages(alloc, line)?;
    with_jobs(alloc, line)
}

/// Adds the commands that read no job.
fn with_messages<'a>(alloc: Global, line: Command<'a>) -> Result<Command<'a>, AllocError>
    ensures { IfOk result (λ command.
        app_of command ≡ with_word (with_word (app_of line.entry) Cmd.Show) Cmd.Vectors) }
{
    let line = line.subcommand(show(alloc)?)?;
    with_command(alloc, line, "vectors", help::VECTORS)
}

/// Adds the commands that read a job.
fn with_jobs<'a>(alloc: Global, line: Command<'a>) -> Result<Command<'a>, AllocError>
    ensures { IfOk result (λ command. app_of command
        ≡ with_word (with_word (with_word (app_of line.entry) Cmd.Seal) Cmd.Open) Cmd.Relay) }
{
    let line = with_command(alloc, line, "seal", help::SEAL)?;
    let line = with_open(alloc, line)?;
    with_command(alloc, line, "relay", help::RELAY)
}

/// Adds the command `open`.
fn with_open<'a>(alloc: Global, line: Command<'a>) -> Result<Command<'a>, AllocError>
    ensures { IfOk result (λ command. app_of command ≡ with_word (app_of line.entry) Cmd.Open) }
{
    line.subcommand(open(alloc)?)
}

/// Adds a command without options.
fn with_command<'a>(
    alloc: Global,
    line: Command<'a>,
    word: &'static str,
    help: Help,
) -> Result<Command<'a>, AllocError>
    ensures { IfOk result (λ command. app_of command
        ≡ with_subcommand (app_of line.entry) (new_app word.entry.now).top) }
{
    line.subcommand(described(alloc, word, help))
}

/// The command `show`, with its options.
fn show<'a>(alloc: Global) -> Result<Command<'a>, AllocError>
    ensures shape { IfOk result (λ command. (app_of command).top ≡ shape_for Cmd.Show) }
    ensures local { IfOk result (λ command. (fields_of command).has_globals ≡ false) }
{
    let any = flag(alloc, "any", help::ANY);
    let key = option(alloc, "key", "FILE", help::KEY);
    let etype = option(alloc, "etype", "N", help::ETYPE);
    described(alloc, "show", help::SHOW)
        .arg(any)?
        .arg(key)?
        .arg(etype)
}

/// The command `open`, with its option.
fn open<'a>(alloc: Global) -> Result<Command<'a>, AllocError>
    ensures shape { IfOk result (λ command. (app_of command).top ≡ shape_for Cmd.Open) }
    ensures local { IfOk result (λ command. (fields_of command).has_globals ≡ false) }
{
    let plain = flag(alloc, "plain", help::PLAIN);
    described(alloc, "open", help::OPEN).arg(plain)
}

/// A command without options.
fn described<'a>(alloc: Global, word: &'static str, help: Help) -> Command<'a>
    ensures app { app_of result ≡ new_app word.entry.now }
    ensures local { (fields_of result).has_globals ≡ false }
{
    Command::new(alloc, word)
        .override_usage(help.usage)
        .about(help.about)
        .after_help(help.after)
}

/// An option without a value.
fn flag<'a>(alloc: Global, name: &'static str, help: &'static str) -> Arg<'a>
    ensures rule { rule_of result ≡ line.flag_rule name.entry.now }
    ensures local { result.global ≡ false }
{
    Arg::new(alloc, name)
        .long(name)
        .action(ArgAction::SetTrue)
        .help(help)
}

/// An option with one value.
fn option<'a>(alloc: Global, name: &'static str, value: &'static str, help: &'static str) -> Arg<'a>
    ensures rule { rule_of result ≡ line.option_rule name.entry.now }
    ensures local { result.global ≡ false }
{
    Arg::new(alloc, name)
        .long(name)
        .value_name(value)
        .help(help)
}
