//! Which messages can be sealed.

ghost use Rattle.std.specs.Prelude.{◌≡◌, ◌≤◌, MatchResult, length, map, replicate, take};
ghost use Rattle.krb_calls.specs.Checks.{IsSealableAt, FailsAt, ChecksMany, AllTimed};
ghost use Rattle.krb_calls.specs.Unsealed.{confounder_of, unsealed_of};
ghost use Rattle.krb_structs.specs.Fault.{fault_code};

use crate::many_fault::ManyFault;
use crate::unsealed::KrbUnsealed;
use krb_bulk::{Unsealed, check_size};
use krb_der::Moment;
use krb_seal::{Sealer, SessionSealer};
use krb_structs::Fault;

/// Whether a message can be sealed at a number.
fn check_one(is_wiped: bool, number: u64, message: &KrbUnsealed<'_>) -> Result<(), Fault>
    ensures { MatchResult result (λ _. IsSealableAt is_wiped number message.now)
        (λ fault. FailsAt is_wiped number message.now (fault_code fault)) }
{
    message.at.moment()?;
    check_size(is_wiped, number, message.user_data.len())?;
    Ok(())
}

/// Whether messages can be sealed one after another.
pub fn check(sealer: &SessionSealer, messages: &[KrbUnsealed<'_>]) -> Result<(), ManyFault>
    ensures { ChecksMany sealer.now messages.now result }
{
    let is_wiped = sealer.is_wiped();
    let mut number = sealer.next();
    for (index, message) in messages.iter().enumerate() {
        if let Err(fault) = check_one(is_wiped, number, message) {
            return Err(ManyFault::Message { index, fault });
        }
        number += 1;
    }
    Ok(())
}

/// Puts messages in Rattle's type into a buffer.
pub fn put_unsealed<'a>(messages: &[KrbUnsealed<'a>], all: &mut [Unsealed<'a>])
    requires timed { AllTimed messages.now }
    requires room { length messages.now ≤ length all.old }
    ensures { take (length messages.now) all.new ≡ map unsealed_of messages.now }
{
    for index in 0..messages.len() {
        let told = messages[index].at;
        let Some(at) = Moment::new(told.seconds, told.microseconds) else {
            unreachable!();
        };
        all[index] = Unsealed {
            user_data: messages[index].user_data,
            at,
            confounder: messages[index].confounder,
        };
    }
}

/// Overwrites the confounders of messages in a buffer that ends.
pub fn forget(all: &mut [Unsealed<'_>])
    ensures { map confounder_of all.new ≡ replicate (length all.new) (replicate 16 0) }
{
    for index in 0..all.len() {
        all[index].confounder = [0; 16];
    }
}
