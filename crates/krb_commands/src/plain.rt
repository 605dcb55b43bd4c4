//! The command `open` with `--plain`: user data are taken as they are, and not as records.

ghost use Rattle.std.specs.Prelude.{◌≡◌, ◌<◌, ◌≤◌, is_ok, length, IfOk, IfErr, OnOk, OnErr};
ghost use Rattle.std.specs.List.{list_all};
ghost use Rattle.krb_base.specs.Limits.{last_number};
ghost use Rattle.krb_seal.specs.Opens.{Opens};
ghost use Rattle.krb_commands.specs.Fault.{IsOfPrinting};
ghost use Rattle.krb_commands.specs.Plain as plain;

use crate::fault::Fault;
use crate::line::{Line, print_lines};
use crate::messages::status_of;
use krb_base::Bytes;
use krb_der::Moment;
use krb_peers::Receiving;
use krb_seal::{Opener, Refusal};
use std::alloc::{AllocError, Global};
use std::io::Write;

/// The outcome of a message: its user data, or the refusal of the first check that it fails.
impl Line for Result<Bytes, Refusal> {
    ghost text = { λ outcome. plain.outcome_text outcome };

    fn line(&self, alloc: Global) -> Result<String, AllocError> {
        match self {
            Ok(user_data) => {
                let digits = hex::encode(alloc, user_data.as_slice())?;
                format!(in alloc; "lane 0 data {digits}\n")
            }
            Err(refusal) => {
                let (code, name) = (refusal.code(), refusal.name());
                format!(in alloc; "lane 0 refused {code} {name}\n")
            }
        }
    }
}

/// Opens the frames, one after another, and prints the user data of each, or why it is refused, one a
/// line.
///
/// There is at least one moment. Nothing is a record, so nothing is a close. The answer is the exit
/// status: 0 where each frame was accepted, else 2. Nothing is printed before all frames were opened.
pub fn print_plain<W: Write>(
    alloc: Global,
    receiving: &Receiving,
    frames: &[Bytes],
    writer: &mut W,
) -> Result<u8, Fault>
    requires { 0 < length receiving.now.nows.items }
    ensures printed { IfOk result (plain.PrintsPlain receiving.now.receiver receiving.now.nows.items
        frames.now (W.contents writer.old) (W.contents writer.new)) }
    ensures prefix { OnErr result (plain.PrintsPlainPrefix receiving.now.receiver
        receiving.now.nows.items frames.now (W.contents writer.old) (W.contents writer.new)) }
    ensures faults { IfErr result IsOfPrinting }
{
    let outcomes = outcomes_of(alloc, receiving, frames)?;
    print_lines(alloc, outcomes.as_slice(), writer)?;
    Ok(status_of(are_accepted(outcomes.as_slice())))
}

/// The outcome of each frame, which is opened at the moment of its place.
fn outcomes_of(
    alloc: Global,
    receiving: &Receiving,
    frames: &[Bytes],
) -> Result<Vec<Result<Bytes, Refusal>>, AllocError>
    requires { 0 < length receiving.now.nows.items }
    ensures { IfOk result (λ outcomes. plain.ArePlain receiving.now.receiver
        receiving.now.nows.items frames.now outcomes.items) }
{
    let opener = receiving.receiver.opener();
    let mut number = receiving.receiver.expected();
    let mut outcomes = Vec::new(alloc);
    for (place, frame) in frames.iter().enumerate() {
        let now = receiving.moment_at(place);
        let outcome = outcome_of(alloc, opener, frame.as_slice(), number, now)?;
        number = number_after(number, &outcome);
        outcomes.push(outcome)?;
    }
    Ok(outcomes)
}

/// The outcome of one frame, of which this number is demanded.
fn outcome_of(
    alloc: Global,
    opener: &Opener,
    frame: &[u8],
    number: u64,
    now: Moment,
) -> Result<Result<Bytes, Refusal>, AllocError>
    ensures opens { IfOk result (Opens opener.now number now frame.now) }
    ensures in_range { IfOk result (λ outcome. OnOk outcome (number ≤ last_number)) }
{
    match opener.unseal_telling(alloc, frame, number, now) {
        Ok(user_data) => Ok(Ok(user_data)),
        Err(unopened) => match unopened.refusal {
            Refusal::Memory => Err(AllocError),
            refusal => Ok(Err(refusal)),
        },
    }
}

/// The number that is demanded after an outcome.
fn number_after(number: u64, outcome: &Result<Bytes, Refusal>) -> u64
    requires { OnOk outcome.now (number ≤ last_number) }
    ensures { result ≡ plain.number_after number outcome.now }
{
    match outcome {
        Ok(_) => number + 1,
        Err(_) => number,
    }
}

/// Whether each message was accepted.
fn are_accepted(outcomes: &[Result<Bytes, Refusal>]) -> bool
    ensures { result ≡ list_all is_ok outcomes.now }
{
    outcomes.iter().all(|outcome| outcome.is_ok())
}
