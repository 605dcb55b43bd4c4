//! The lines that are printed for a job.

ghost use Rattle.std.specs.Prelude.{◌≡◌, length, IfOk, IfErr, OnOk, OnErr};
ghost use Rattle.std.specs.Io.KnownBytes.{Appends};
ghost use Rattle.hex.specs.Hex.{encode_lower};
ghost use Rattle.krb_commands.specs.Fault.{IsOfPrinting};
ghost use Rattle.krb_commands.specs.JobLines as lines;
ghost use Rattle.krb_commands.specs.Output.{AppendsPart};

use crate::fault::Fault;
use crate::line::{Line, print_line, print_lines};
use krb_peers::{Ending, Entry, Event, Log, Sent, Status};
use std::alloc::{AllocError, Global};
use std::io::Write;

/// A frame is printed as its digits.
impl Line for Vec<u8> {
    ghost text = { λ frame. encode_lower frame.items };

    fn line(&self, alloc: Global) -> Result<String, AllocError> {
        let digits = hex::encode(alloc, self.as_slice())?;
        format!(in alloc; "{digits}\n")
    }
}

/// An entry of a log.
impl Line for Entry {
    ghost text = { λ entry. lines.entry_text entry };

    fn line(&self, alloc: Global) -> Result<String, AllocError> {
        let lane = self.lane;
        match &self.event {
            Event::Text(text) => {
                let digits = hex::encode(alloc, text.as_slice())?;
                format!(in alloc; "lane {lane} text {digits}\n")
            }
            Event::Closed => format!(in alloc; "lane {lane} closed\n"),
            Event::Refused(refusal) => {
                let (code, name) = (refusal.code(), refusal.name());
                format!(in alloc; "lane {lane} refused {code} {name}\n")
            }
        }
    }
}

/// Prints all entries of a log, one a line, and answers how many these are.
///
/// After a fault a prefix of the lines is written, and not all.
pub fn print_log<W: Write>(alloc: Global, log: &Log, writer: &mut W) -> Result<usize, Fault>
    ensures count { IfOk result (λ count. count ≡ length log.now.entries) }
    ensures printed { OnOk result (Appends
        (W.contents writer.old) (W.contents writer.new) (lines.entry_lines log.now.entries)) }
    ensures part { OnErr result (AppendsPart
        (W.contents writer.old) (W.contents writer.new) (lines.entry_lines log.now.entries)) }
    ensures faults { IfErr result IsOfPrinting }
{
    let entries = log.entries();
    print_lines(alloc, entries, writer)?;
    Ok(entries.len())
}

/// How much of a sender's texts is sealed.
impl Line for Sent {
    ghost text = { λ sent. lines.sent_text sent };

    fn line(&self, alloc: Global) -> Result<String, AllocError> {
        let (sealed, texts) = (self.sealed, self.texts);
        let ending = ending_name(self.ending);
        format!(in alloc; "sent {sealed} of {texts} {ending}\n")
    }
}

fn ending_name(ending: Ending) -> &'static str
    ensures { result.now ≡ lines.ending_name ending }
{
    match ending {
        Ending::Done => "DONE",
        Ending::LastNumber => "LAST_NUMBER",
    }
}

/// How a lane ended.
#[derive(Drop)]
pub(crate) struct StateLine {
    pub(crate) lane: u32,
    pub(crate) status: Status,
}

impl Line for StateLine {
    ghost text = { λ state. lines.state_text state.lane state.status };

    fn line(&self, alloc: Global) -> Result<String, AllocError> {
        let (lane, name) = (self.lane, state_name(self.status));
        format!(in alloc; "lane {lane} {name}\n")
    }
}

fn state_name(status: Status) -> &'static str
    ensures { result.now ≡ lines.state_name status }
{
    match status {
        Status::Closed => "CLOSED",
        Status::Truncated | Status::Live => "TRUNCATED",
    }
}

/// How much of a lane's texts was sealed, and how the lane ended.
#[derive(Drop)]
struct EndLine {
    lane: u32,
    sent: Sent,
    status: Status,
}

impl Line for EndLine {
    ghost text = { λ end. lines.end_text end.lane end.sent end.status };

    fn line(&self, alloc: Global) -> Result<String, AllocError> {
        let (lane, name) = (self.lane, state_name(self.status));
        let (sealed, texts) = (self.sent.sealed, self.sent.texts);
        let ending = ending_name(self.sent.ending);
        format!(in alloc; "lane {lane} sent {sealed} of {texts} {ending} {name}\n")
    }
}

/// Prints of each lane of a log that has ended how it ended, one a line, and answers the exit
/// status: 0 where every lane's close was accepted, else 3.
///
/// `sents` says how much the sender of each lane sealed. After a fault a prefix of the lines is
/// written, and not all.
pub fn print_ends<W: Write>(
    alloc: Global,
    sents: &[Sent],
    log: &Log,
    writer: &mut W,
) -> Result<u8, Fault>
    requires { length sents.now ≡ log.now.lanes }
    ensures printed { OnOk result (Appends (W.contents writer.old) (W.contents writer.new)
        (lines.end_lines 0 sents.now log.now)) }
    ensures status { IfOk result (λ status.
        status ≡ lines.status_by (lines.are_closed 0 sents.now log.now)) }
    ensures part { OnErr result (AppendsPart (W.contents writer.old) (W.contents writer.new)
        (lines.end_lines 0 sents.now log.now)) }
    ensures faults { IfErr result IsOfPrinting }
{
    let mut all_closed = true;
    for lane in 0..log.lanes() {
        let end = EndLine {
            lane,
            sent: sents[lane as usize],
            status: log.status(lane),
        };
        print_line(alloc, &end, writer)?;
        all_closed &= is_closed(end.status);
    }
    Ok(status_of_lanes(all_closed))
}

/// Whether the lane's close was accepted.
pub(crate) fn is_closed(status: Status) -> bool
    ensures { result ≡ lines.is_closed_state status }
{
    matches!(status, Status::Closed)
}

/// The exit status: 0 where all that ended was closed, else 3.
pub(crate) fn status_of_lanes(closed: bool) -> u8
    ensures { result ≡ lines.status_by closed }
{
    if closed { 0 } else { 3 }
}
