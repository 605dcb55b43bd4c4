//! What waits goes into the log in rounds, one item of each lane in each.

ghost use Rattle.std.specs.Prelude.{◌≡◌, ◌<◌, ◌+◌, ◌↔◌, [], length, All, IfErr, IsTrue, OnErr, OnOk};
ghost use Rattle.krb_peers.specs.Logged.{MayBeNoted, noted};
ghost use Rattle.krb_relay.specs.Waiting.{CanLog, GoesOn, IsEmpty, LogsAll, LogsItem, MayBeLogged, StopsLog};

use crate::cause::OwnCause;
use crate::fault::OwnFault;
use crate::waiting::{Last, Waiting};
use krb_base::known_bytes;
use krb_peers::{Delivery, Event, Log};
use krb_seal::Refusal;
use std::alloc::AllocError;
use std::sync::Wait;

/// Logs all that waits, in rounds.
pub(crate) fn log_all<R: Wait>(
    rt: &R,
    waiting: &mut [Waiting],
    log: &mut Log,
) -> Result<(), OwnFault>
    requires { CanLog 0 waiting.old log.old }
    ensures ok { OnOk result (LogsAll waiting.old log.old log.new) }
    ensures err { OnErr result (StopsLog 0 waiting.old log.old log.new) }
{
    for _ in rt.forever() {
        log_round(waiting, log)?;
        if are_empty(waiting) {
            return Ok(());
        }
    }
    unreachable!()
}

/// Whether nothing waits of any lane.
fn are_empty(waiting: &[Waiting]) -> bool
    ensures { IsTrue result ↔ All IsEmpty waiting.now }
{
    waiting.iter().all(|lane| lane.is_empty())
}

/// Logs one round.
fn log_round(waiting: &mut [Waiting], log: &mut Log) -> Result<(), OwnFault>
    requires { CanLog 0 waiting.old log.old }
    ensures ok { OnOk result (GoesOn 0 0 waiting.old log.old waiting.new log.new) }
    ensures err { OnErr result (StopsLog 0 waiting.old log.old log.new) }
{
    for lane in 0..waiting.len() {
        log_at(lane, waiting, log)?;
    }
    Ok(())
}

/// The turn of a lane in a round.
fn log_at(lane: usize, waiting: &mut [Waiting], log: &mut Log) -> Result<(), OwnFault>
    requires there { lane < length waiting.old }
    requires waits { CanLog lane waiting.old log.old }
    ensures ok { OnOk result (GoesOn lane (lane + 1) waiting.old log.old waiting.new log.new) }
    ensures err { OnErr result (StopsLog lane waiting.old log.old log.new) }
    ensures named { IfErr result (λ fault. fault.lane ≡ lane) }
{
    let number = lane as u32;
    match waiting[lane].log_one(number, log) {
        Ok(()) => Ok(()),
        Err(cause) => Err(OwnFault {
            cause,
            lane: number,
        }),
    }
}

impl Waiting {
    /// Whether nothing waits.
    fn is_empty(&self) -> bool
        ensures { IsTrue result ↔ IsEmpty self.now }
    {
        self.frames.is_empty() && !matches!(self.last, Last::End)
    }

    /// Logs the next item of a lane, unless its End was noted. If that is a frame without a verdict,
    /// memory has run out.
    fn log_one(&mut self, lane: u32, log: &mut Log) -> Result<(), OwnCause>
        requires lane { lane < log.old.lanes }
        requires open { MayBeLogged self.old lane log.old }
        ensures ok { OnOk result (LogsItem lane self.old log.old self.new log.new) }
        ensures err { OnErr result (log.new ≡ log.old) }
    {
        let Some(frame) = self.frames.pop_front() else {
            return self.log_last(lane, log);
        };
        known_bytes(frame.as_slice());
        let Some(verdict) = self.verdicts.pop_front() else {
            return Err(OwnCause::Memory);
        };
        match note(log, lane, verdict) {
            Ok(()) => Ok(()),
            Err(_) => Err(OwnCause::Memory),
        }
    }

    /// Notes the End of a lane that has no frame, if it follows.
    fn log_last(&mut self, lane: u32, log: &mut Log) -> Result<(), OwnCause>
        requires lane { lane < log.old.lanes }
        requires none { self.old.frames.items ≡ [] }
        ensures ok { OnOk result (LogsItem lane self.old log.old self.new log.new) }
        ensures err { OnErr result (log.new ≡ log.old) }
    {
        match self.last {
            Last::Nothing => Ok(()),
            Last::End => {
                log.end(lane);
                self.last = Last::Nothing;
                Ok(())
            }
            Last::More(cause) => Err(cause),
        }
    }
}

/// Appends what a verdict on a frame of a lane brings. Out of memory is the only error, and changes
/// nothing.
fn note(log: &mut Log, lane: u32, verdict: Result<Delivery, Refusal>) -> Result<(), AllocError>
    requires lane { lane < log.old.lanes }
    requires open { MayBeNoted verdict lane log.old.entries }
    ensures ok { OnOk result (log.new ≡ noted log.old lane verdict) }
    ensures err { OnErr result (log.new ≡ log.old) }
{
    match verdict {
        Ok(Delivery::Text(text)) => log.push(lane, Event::Text(text)),
        Ok(Delivery::Batch(texts)) => log.push_batch(lane, texts),
        Ok(Delivery::Closed) => log.push(lane, Event::Closed),
        Err(refusal) => log.push(lane, Event::Refused(refusal)),
    }
}
