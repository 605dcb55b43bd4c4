//! The numbers of the header's enums for the ends of a carrier.

ghost use Rattle.std.specs.Prelude.{◌≡◌, ◌≤◌};
ghost use Rattle.krb_carrier_structs.specs.Numbers.{heard_number, judged_number, outcome_number, read_number, stands_number, told_asks, told_ended};

use krb_engine::{Asks, Ended, Heard, Judged, Outcome, Read, Stands};

/// What a receipt that is owed asks for, and 0 where none is owed.
pub fn number_of_owed(owed: Option<Asks>) -> u32
    ensures told { told_asks result ≡ owed }
    ensures few { result ≤ 3 }
{
    match owed {
        None => 0,
        Some(Asks::Nothing) => 1,
        Some(Asks::Missing) => 2,
        Some(Asks::Refused) => 3,
    }
}

/// What a receipt of this number asks for, if there is one.
pub fn asks_of(number: u32) -> Option<Asks>
    ensures value { result ≡ told_asks number }
{
    match number {
        1 => Some(Asks::Nothing),
        2 => Some(Asks::Missing),
        3 => Some(Asks::Refused),
        _ => None,
    }
}

/// Why an end is stopped, and 0 where it isn't.
pub fn number_of_ended(ended: Option<Ended>) -> u32
    ensures told { told_ended result ≡ ended }
    ensures few { result ≤ 2 }
{
    match ended {
        None => 0,
        Some(Ended::Older) => 1,
        Some(Ended::Forked) => 2,
    }
}

/// Why an end of this number is stopped, if it is.
pub fn ended_of(number: u32) -> Option<Ended>
    ensures value { result ≡ told_ended number }
{
    match number {
        1 => Some(Ended::Older),
        2 => Some(Ended::Forked),
        _ => None,
    }
}

/// The number of what a sender finds by a receipt.
pub fn number_of_heard(heard: Heard) -> u32
    ensures value { result ≡ heard_number heard }
{
    match heard {
        Heard::Nothing => 0,
        Heard::Delivered => 1,
        Heard::Ended => 2,
    }
}

/// The number of why a session stands, and 0 where it doesn't.
pub fn number_of_stands(stands: Option<Stands>) -> u32
    ensures value { result ≡ stands_number stands }
{
    match stands {
        None => 0,
        Some(Stands::Stopped(Ended::Older)) => 1,
        Some(Stands::Stopped(Ended::Forked)) => 2,
        Some(Stands::Refused) => 3,
        Some(Stands::Unanswered) => 4,
        Some(Stands::Unconfirmed) => 5,
    }
}

/// The number of what a read results in.
pub fn number_of_read(read: Read) -> u32
    ensures value { result ≡ read_number read }
{
    match read {
        Read::Nothing => 0,
        Read::Elsewhere => 1,
        Read::Take => 2,
    }
}

/// The number of what an opening is taken for.
pub fn number_of_judged(judged: Judged) -> u32
    ensures value { result ≡ judged_number judged }
{
    match judged {
        Judged::Begins => 0,
        Judged::Later => 1,
        Judged::Forked => 2,
    }
}

/// The number of what a frame is taken for.
pub fn number_of_outcome(outcome: Outcome) -> u32
    ensures value { result ≡ outcome_number outcome }
{
    match outcome {
        Outcome::Accepted => 0,
        Outcome::Repeat => 1,
        Outcome::Early => 2,
        Outcome::Unknown => 3,
        Outcome::Unsettled => 4,
    }
}
